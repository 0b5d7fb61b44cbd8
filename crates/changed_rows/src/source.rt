//! Where a row that changed comes from.
#![tactic(auto, using(row_json::proofs::Steps::stays))]

ghost use Rattle.std.specs.Prelude.{◌≡◌, ◌*◌, [], ◌∷◌, decimal, OnOk};
ghost use Rattle.std.specs.Option.{option_map};
ghost use Rattle.json.specs.Json.{string, number};
ghost use Rattle.json.specs.Print.{escape};
ghost use Rattle.row_json.specs.Wrote.{AddsSome, WroteMembers};
ghost use Rattle.changed_rows.specs.Origins.{text_or_null};
ghost use Rattle.changed_rows.specs.Sources.{fields_of, source_at};

use binlog_file::origin::Origin;
use json_line::Writer;
use row_json::Members;
use std::alloc::AllocError;

/// Where a row that changed comes from: the member `source` of its line.
#[derive(Clone, Copy, Debug)]
pub struct Source<'a> {
    /// The name of the file.
    pub file: &'a str,
    /// The event.
    pub origin: Origin,
    /// The number of the row in the event, from 0.
    pub row: u64,
    /// The GTID of the transaction, if there is one.
    pub gtid: Option<&'a str>,
    /// The name of the database.
    pub database: &'a str,
    /// The name of the table.
    pub table: &'a str,
}

// Writes a member that is a string.
#[inline(always)]
fn write_string(out: &mut Writer, name: &str, text: &str) -> Result<(), AllocError>
    requires { escape name.now ≡ name.now }
    ensures written { OnOk result
        (WroteMembers (λ ms. ms ≡ (name.now, string text.now) ∷ []) out.old out.new) }
    ensures stays { AddsSome out.old out.new }
{
    out.plain_key(name)?;
    out.string(text)
}

// Writes a member that is a number.
#[inline(always)]
fn write_number(out: &mut Writer, name: &str, n: u64) -> Result<(), AllocError>
    requires { escape name.now ≡ name.now }
    ensures written { OnOk result
        (WroteMembers (λ ms. ms ≡ (name.now, number (decimal n)) ∷ []) out.old out.new) }
    ensures stays { AddsSome out.old out.new }
{
    out.plain_key(name)?;
    out.u64(n)
}

// Writes a member that is a string, or null.
#[inline(always)]
fn write_option(out: &mut Writer, name: &str, text: Option<&str>) -> Result<(), AllocError>
    requires { escape name.now ≡ name.now }
    ensures written { OnOk result (WroteMembers (λ ms. ms
        ≡ (name.now, text_or_null (option_map (λ t. t.now) text.entry)) ∷ []) out.old out.new) }
    ensures stays { AddsSome out.old out.new }
{
    out.plain_key(name)?;
    match text {
        Some(text) => out.string(text),
        None => out.null(),
    }
}

// Returns seconds as milliseconds.
fn milliseconds(seconds: u32) -> u64
    ensures { result ≡ seconds * 1000 }
{
    u64::from(seconds) * 1000
}

impl<'a> Source<'a> {
    /// Returns where the first row of an event comes from.
    pub fn first(
        file: &'a str,
        origin: Origin,
        gtid: Option<&'a str>,
        database: &'a str,
        table: &'a str,
    ) -> Source<'a>
        ensures { result ≡ record {
          file = file.entry;
          origin = origin;
          row = 0;
          gtid = gtid.entry;
          database = database.entry;
          table = table.entry;
        } }
    {
        Source {
            file,
            origin,
            row: 0,
            gtid,
            database,
            table,
        }
    }

    /// Returns where another row of the event comes from, which has this number.
    pub fn at(&self, row: u64) -> Source<'a>
        ensures { result ≡ source_at self.now row }
    {
        Source { row, ..*self }
    }

    // Writes the members of the object.
    #[inline(always)]
    #[tactic(auto, using(row_json::proofs::Steps::stays), unfolding(json::specs::Print::escape_byte))]
    fn write_members(&self, out: &mut Writer) -> Result<(), AllocError>
        ensures written { OnOk result
            (WroteMembers (λ ms. ms ≡ fields_of self.now) out.old out.new) }
        ensures stays { AddsSome out.old out.new }
    {
        write_string(out, "file", self.file)?;
        write_number(out, "pos", self.origin.position)?;
        write_number(out, "row", self.row)?;
        write_number(out, "ts_ms", milliseconds(self.origin.timestamp))?;
        write_number(out, "server_id", u64::from(self.origin.server_id))?;
        write_option(out, "gtid", self.gtid)?;
        write_string(out, "db", self.database)?;
        write_string(out, "table", self.table)?;
        Ok(())
    }
}

impl<'a> Members for Source<'a> {
    ghost use Rattle.changed_rows.specs.Sources.{members_in};
    ghost use Rattle.changed_rows.specs.Fits.{members_fit};

    ghost members = { members_in };

    ghost fits = { members_fit };

    #[inline(always)]
    fn write(&self, out: &mut Writer) -> Result<(), AllocError> {
        out.plain_key("source")?;
        out.begin_object()?;
        self.write_members(out)?;
        out.end_object()?;
        Ok(())
    }
}
