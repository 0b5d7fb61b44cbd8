//! What is found out once of a table.

ghost use Rattle.std.specs.Prelude.{◌≡◌, ◌↔◌, IfOk, IsTrue};
ghost use Rattle.std.specs.String.{string_bytes};
ghost use Rattle.std.specs.Str.Lossy.{utf8_lossy};
ghost use Rattle.binlog_table.specs.TableMap.{without_id};
ghost use Rattle.row_json.specs.Columns.{columns_of};
ghost use Rattle.changed_rows.specs.Weights.{table_weight};

use binlog_table::table_map::TableMapEvent;
use row_json::TableJson;
use std::alloc::{AllocError, Global};

/// How many bytes hold what is kept of a table.
const HOLDING: usize = 1024;

// Returns how many bytes of memory what is kept of a table takes.
fn weight_of(event: &TableMapEvent<'_>) -> usize
    ensures { result ≡ table_weight event.now }
{
    let database = event.database_name_raw().len();
    let names = database.saturating_add(event.table_name_raw().len());
    let columns = event.columns_count() as usize;
    HOLDING
        .saturating_add(names.saturating_mul(4))
        .saturating_add(event.optional_metadata_raw().len().saturating_mul(4))
        .saturating_add(columns.saturating_mul(200))
}

/// What is found out once of a table map event.
#[derive(Drop)]
pub struct Table {
    event: TableMapEvent<'static>,
    bytes: usize,
    json: TableJson,
    database: String,
    name: String,
    ghost columns: { json ≡ columns_of event },
    ghost is_database: { string_bytes database ≡ utf8_lossy event.database },
    ghost is_name: { string_bytes name ≡ utf8_lossy event.table },
}

impl Table {
    /// Finds out what there is to know of a table. Fails if memory is refused.
    pub fn new(alloc: Global, event: &TableMapEvent<'_>) -> Result<Table, AllocError>
        ensures columns { IfOk result (λ t. t.json ≡ columns_of event.now) }
        ensures database { IfOk result (λ t. string_bytes t.database ≡ utf8_lossy event.now.database) }
        ensures name { IfOk result (λ t. string_bytes t.name ≡ utf8_lossy event.now.table) }
        ensures same { IfOk result (λ t. t.event ≡ event.now) }
        ensures bytes { IfOk result (λ t. t.bytes ≡ table_weight event.now) }
    {
        let Ok(json) = TableJson::new(alloc, event) else {
            return Err(AllocError);
        };
        Ok(Table {
            event: event.clone(alloc)?.into_owned(alloc)?,
            bytes: weight_of(event),
            json,
            database: String::from_utf8_lossy(alloc, event.database_name_raw())?,
            name: String::from_utf8_lossy(alloc, event.table_name_raw())?,
        })
    }

    /// Returns whether this is what there is to know of the table that an event describes.
    pub fn is_of(&self, event: &TableMapEvent<'_>) -> bool
        ensures { IsTrue result ↔ (without_id self.now.event ≡ without_id event.now) }
    {
        self.event.tells_the_same(event)
    }

    /// Returns how many bytes of memory this takes, reckoned from the lengths of the event's parts.
    pub fn bytes(&self) -> usize
        ensures { result ≡ self.now.bytes }
    {
        self.bytes
    }

    /// Returns what decides the JSON of the table's rows.
    pub fn json(&self) -> &TableJson
        ensures { result.now ≡ self.now.json }
    {
        &self.json
    }

    /// Returns the name of the database, with U+FFFD in place of what isn't UTF-8.
    pub fn database(&self) -> &str
        ensures { result.now ≡ string_bytes self.now.database }
    {
        self.database.as_str()
    }

    /// Returns the name of the table, with U+FFFD in place of what isn't UTF-8.
    pub fn name(&self) -> &str
        ensures { result.now ≡ string_bytes self.now.name }
    {
        self.name.as_str()
    }
}
