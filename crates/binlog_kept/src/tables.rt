//! The table map events in force.

ghost use Rattle.std.specs.Prelude.{◌≡◌, ◌≤◌, ◌*◌, ◌⊎◌, ℕ, false, Ok, Err, Some, None, IsTrue, length, OnOk, OnErr, IfOk, IfErr, IfSome, IsSome};
ghost use Rattle.std.specs.Option.{option_map};
ghost use Rattle.std.specs.Arc.{arc_value};
ghost use Rattle.binlog_events.specs.declared.error.EventError.TheVariants as error;
ghost use Rattle.binlog_events.specs.Tables.{no_tables, with_table, with_map, found, given_up, ends_statement, in_force_after};
ghost use Rattle.binlog_events.specs.Workings.TableBodies.{ReadsTable, table_weight};
ghost use Rattle.binlog_kept.specs.TableMaps.{in_force_at, in_maps, held_by, most_kept, opened_in};
ghost use Rattle.binlog_kept.specs.Kept.{all_bytes};

use crate::generations::{Found, Generations, Weighed};
use crate::in_force::InForce;
use binlog_base::below::{Server, same_bytes};
use binlog_events::error::EventError;
use binlog_events::event::{Event, PlainEvent, read_table};
use binlog_table::table_map::TableMapEvent;
use byteorder::{ByteOrder, LittleEndian};
use std::alloc::{AllocError, Global};
use std::collections::BTreeMap;
use std::marker::Model;
use std::sync::Arc;

/// How many bytes of memory the table map events take at most that are kept past the end of their
/// statements, where a caller gives no other bound.
const MOST_KEPT: usize = 0x80_0000;

/// How many bytes the body of an event has at most that is kept past the end of its statement. To
/// compare a longer one takes longer than to copy its parts.
const MOST_BODY: usize = 8192;

/// How many bytes of memory a kept event takes beside its body and its parts.
const HOLDING: usize = 768;

/// A table map event, the bytes of its body, and what they were read by.
#[derive(Drop)]
struct KeptTable {
    server: Server,
    post_header_len: u8,
    body: Vec<u8>,
    table: Arc<TableMapEvent<'static>>,
}

impl Model for KeptTable {
    ghost use Rattle.std.specs.Prelude.{◌≤◌, Ok, length};
    ghost use Rattle.std.specs.Arc.{arc_value};
    ghost use Rattle.binlog_events.specs.Workings.TableBodies as Spec;

    ghost Value = { Spec.KeptTable };

    ghost view = { λ k. record {
      server = k.server;
      post_header_len = k.post_header_len;
      body = k.body.items;
      table = arc_value k.table;
    } };

    ghost invariant = { λ k. Spec.ReadsTable k.server k.post_header_len k.body.items
        (Ok (arc_value k.table)) × (length k.body.items ≤ 8192) };
}

impl Weighed for KeptTable {
    ghost use Rattle.binlog_events.specs.Workings.TableBodies.{table_weight};

    ghost weight = { λ k. table_weight (length k.body) };

    fn weight(&self) -> usize {
        weight_of(&self.body)
    }
}

// Returns how many bytes of memory an event of this body takes that is kept.
fn weight_of(body: &[u8]) -> usize
    requires { length body.now ≤ 8192 }
    ensures { result ≡ table_weight (length body.now) }
{
    2 * body.len() + HOLDING
}

impl KeptTable {
    // Returns the table map event, if it is that of a body: if that has the same bytes, and is read
    // by the same layout.
    fn shared(
        &self,
        server: Server,
        post_header_len: u8,
        body: &[u8],
    ) -> Result<Option<Arc<TableMapEvent<'static>>>, AllocError>
        ensures { IfOk result
            (λ o. IfSome o (λ t. ReadsTable server post_header_len body.now (Ok (arc_value t)))) }
    {
        if self.server == server
            && self.post_header_len == post_header_len
            && same_bytes(&self.body, body)
        {
            Ok(Some(self.table.clone()?))
        } else {
            Ok(None)
        }
    }
}

// Returns the key under which the table map event of a body is kept: six bytes, which begin with
// the table id.
fn key_of(body: &[u8]) -> u64 {
    if body.len() < 8 {
        return 0;
    }
    LittleEndian::read_u64(body) & 0xffff_ffff_ffff
}

impl InForce {
    // Returns that no event is in force.
    fn new(alloc: Global) -> InForce
        ensures tables { (id : ℕ) → in_force_at result id ≡ None }
        ensures opened { option_map arc_value result.opened ≡ None }
    {
        InForce {
            first: None,
            others: BTreeMap::new(alloc),
            opened: None,
            open_id: None,
            met_id: None,
        }
    }

    // Returns the event that is in force for a table id.
    fn get(&self, table_id: u64) -> Option<&Arc<TableMapEvent<'static>>>
        ensures { option_map (λ t. arc_value t.now) result ≡ in_force_at self.now table_id }
    {
        if let Some(first) = &self.first {
            if first.table_id() == table_id {
                return Some(first);
            }
        }
        self.others.get(&table_id)
    }

    // Closes the event that was opened.
    fn close(&mut self)
        ensures closed { self.new.open_id ≡ None }
        ensures first { self.new.first ≡ self.old.first }
        ensures others { self.new.others ≡ self.old.others }
        ensures opened { self.new.opened ≡ self.old.opened }
    {
        self.open_id = None;
        self.met_id = None;
    }

    // Gives up all events. What was opened is open no more.
    fn clear(&mut self)
        ensures tables { (id : ℕ) → in_force_at self.new id ≡ None }
        ensures first { self.new.first ≡ None }
        ensures opened { self.new.opened ≡ self.old.opened }
    {
        self.close();
        self.first = None;
        self.others.clear();
    }

    // Puts an event in force, in place of one with the same table id. Memory is asked for beside a first
    // one alone, and where it is refused all stay. What was opened is open no more.
    fn put(&mut self, table: Arc<TableMapEvent<'static>>) -> Result<(), AllocError>
        ensures tables { OnOk result ((id : ℕ) → in_force_at self.new id
            ≡ with_table (in_force_at self.old) (arc_value table.entry) id) }
        ensures beside { OnErr result (IsSome self.old.first) }
        ensures refused { OnErr result (in_force_at self.new ≡ in_force_at self.old) }
        ensures opened { self.new.opened ≡ self.old.opened }
    {
        self.close();
        let table_id = table.table_id();
        if let Some(first) = &self.first {
            if first.table_id() != table_id {
                self.others.insert(table_id, table)?;
                return Ok(());
            }
        }
        self.first = Some(table);
        Ok(())
    }

    // Returns whether what was opened is in force under this table id.
    fn is_open(&self, table_id: u64) -> bool
        ensures { IsTrue result → option_map arc_value self.now.opened ≡ in_force_at self.now table_id }
    {
        match self.open_id {
            Some(open_id) => open_id == table_id,
            None => false,
        }
    }

    // Notes that a rows event of the table comes, and returns whether the last one was of it too.
    fn meet(&mut self, table_id: u64) -> bool
        ensures tables { in_force_at self.new ≡ in_force_at self.old }
        ensures opened { self.new.opened ≡ self.old.opened }
    {
        let is_met = self.met_id == Some(table_id);
        self.met_id = Some(table_id);
        is_met
    }

    // Opens the event that is in force for a table id.
    fn open(&mut self, table_id: u64, table: Arc<TableMapEvent<'static>>)
        requires { in_force_at self.old table_id ≡ Some (arc_value table) }
        ensures opened { option_map arc_value self.new.opened ≡ Some (arc_value table.entry) }
        ensures tables { in_force_at self.new ≡ in_force_at self.old }
    {
        self.opened = Some(table);
        self.open_id = Some(table_id);
    }
}

/// The table map events in force, one for each table id. They own their bytes.
///
/// A server writes the same table map event again before each statement. So they are kept past the
/// end of their statements, with their bodies, and one whose body comes again is neither read nor
/// copied again. What is kept takes a bounded number of bytes of memory together: each event twice
/// its body, and 768 bytes for what holds it. None with a body above 8 KiB is kept.
///
/// One of the events may be opened: whoever keeps plans by which its rows are read needn't compare them
/// with it again for as long as `is_open` says that it is in force still.
#[derive(Drop)]
#[derive_where(Debug)]
pub struct TableMaps {
    in_force: InForce,
    #[derive_where(skip(Debug))]
    kept: Generations<KeptTable>,
    ended: bool,
}

impl TableMaps {
    /// Returns an empty set of tables. It keeps up to 8 MiB past the end of statements.
    pub fn new(alloc: Global) -> TableMaps
        ensures tables { (id : ℕ) → in_maps result id ≡ no_tables id }
        ensures ended { result.ended ≡ false }
        ensures most { most_kept result ≡ 8 * 1024 * 1024 }
        ensures opened { opened_in result ≡ None }
    {
        TableMaps::with_kept_bytes(alloc, MOST_KEPT)
    }

    /// Returns an empty set of tables. What it keeps past the end of statements takes at most this
    /// many bytes of memory, beside 64 KiB for notes of what came, which it asks for once all is full.
    pub fn with_kept_bytes(alloc: Global, most: usize) -> TableMaps
        ensures tables { (id : ℕ) → in_maps result id ≡ no_tables id }
        ensures ended { result.ended ≡ false }
        ensures most { most_kept result ≡ most }
        ensures opened { opened_in result ≡ None }
    {
        TableMaps {
            in_force: InForce::new(alloc),
            kept: Generations::new(alloc, most),
            ended: false,
        }
    }

    /// Returns how many bytes of memory the table map events take that are kept past the end of
    /// their statements.
    pub fn kept_bytes(&self) -> usize
        ensures bytes { result ≡ all_bytes (λ k. table_weight (length k.body)) self.now.kept }
        ensures most { result ≤ most_kept self.now }
    {
        self.kept.bytes()
    }

    /// Keeps at most this many bytes past the end of statements from now on. What was kept is given
    /// up.
    pub fn keep_at_most(&mut self, alloc: Global, most: usize)
        ensures held { held_by self.new ≡ held_by self.old }
        ensures most { most_kept self.new ≡ most }
        ensures opened { opened_in self.new ≡ opened_in self.old }
    {
        self.kept = Generations::new(alloc, most);
    }

    /// Returns the table map event that is in force for a table id, to be shared.
    pub fn shared_tme(&self, table_id: u64) -> Option<&Arc<TableMapEvent<'static>>>
        ensures { option_map (λ t. arc_value t.now) result ≡ in_maps self.now table_id }
    {
        self.in_force.get(table_id)
    }

    /// Returns the table map event that is in force for a table id.
    pub fn get_tme(&self, table_id: u64) -> Option<&TableMapEvent<'static>>
        ensures { option_map (λ t. t.now) result ≡ in_maps self.now table_id }
    {
        match self.shared_tme(table_id) {
            Some(table) => Some(table),
            None => None,
        }
    }

    /// Returns whether the table map event that was opened last is in force under this table id.
    pub fn is_open(&self, table_id: u64) -> bool
        ensures { IsTrue result → opened_in self.now ≡ in_maps self.now table_id }
    {
        self.in_force.is_open(table_id)
    }

    /// Notes that a rows event of the table comes. Returns whether the one before it was of the table
    /// too, and by the same table map event.
    pub fn meet(&mut self, table_id: u64) -> bool
        ensures held { held_by self.new ≡ held_by self.old }
        ensures most { most_kept self.new ≡ most_kept self.old }
        ensures opened { opened_in self.new ≡ opened_in self.old }
    {
        self.in_force.meet(table_id)
    }

    /// Opens the table map event that is in force for a table id, until another is opened.
    pub fn open(&mut self, table_id: u64, table: Arc<TableMapEvent<'static>>)
        requires { in_maps self.old table_id ≡ Some (arc_value table) }
        ensures opened { opened_in self.new ≡ Some (arc_value table.entry) }
        ensures held { held_by self.new ≡ held_by self.old }
        ensures most { most_kept self.new ≡ most_kept self.old }
    {
        self.in_force.open(table_id, table);
    }

    /// Returns whether a statement ended with the last event.
    pub fn ended(&self) -> bool
        ensures { result ≡ self.now.ended }
    {
        self.ended
    }

    // Gives up all tables.
    fn clear(&mut self)
        ensures tables { (id : ℕ) → in_maps self.new id ≡ None }
        ensures first { self.new.in_force.first ≡ None }
        ensures ended { self.new.ended ≡ self.old.ended }
        ensures most { most_kept self.new ≡ most_kept self.old }
        ensures opened { opened_in self.new ≡ opened_in self.old }
    {
        self.in_force.clear();
    }

    // Gives up all tables if the event before was the last of its statement. So where one is left,
    // all are.
    fn end_statement(&mut self)
        ensures tables { (id : ℕ) → in_maps self.new id ≡ found (in_maps self.old) self.old.ended id }
        ensures left { IsSome self.new.in_force.first → self.new ≡ self.old }
        ensures ended { self.new.ended ≡ self.old.ended }
        ensures most { most_kept self.new ≡ most_kept self.old }
        ensures opened { opened_in self.new ≡ opened_in self.old }
    {
        if self.ended {
            self.clear();
        }
    }

    // Gives up all tables if the event before was the last of its statement, or this one is a format
    // description event. So where one is left, all are.
    fn give_up(&mut self, event: &Event<'_>)
        ensures tables { (id : ℕ) → in_maps self.new id
            ≡ given_up (found (in_maps self.old) self.old.ended) event.now.description id }
        ensures left { IsSome self.new.in_force.first → self.new ≡ self.old }
        ensures ended { self.new.ended ≡ self.old.ended }
        ensures most { most_kept self.new ≡ most_kept self.old }
        ensures opened { opened_in self.new ≡ opened_in self.old }
    {
        if self.ended || event.description().is_some() {
            self.clear();
        }
    }

    /// Takes what a plain event says of tables.
    pub fn take_plain(&mut self, event: &PlainEvent<'_>)
        requires plain { event.now.description ≡ None }
        requires no_table { event.now.table ≡ None }
        ensures tables { (id : ℕ) → in_maps self.new id
            ≡ (in_force_after (held_by self.old) event.now).tables id }
        ensures ended { self.new.ended ≡ ends_statement event.now }
        ensures most { most_kept self.new ≡ most_kept self.old }
        ensures opened { opened_in self.new ≡ opened_in self.old }
    {
        self.end_statement();
        self.ended = event.ends_statement();
    }

    // Puts a table map event in force, in place of one with the same table id. Memory is asked for
    // beside a first one alone, and where it is refused all stay.
    fn put(&mut self, table: Arc<TableMapEvent<'static>>) -> Result<(), AllocError>
        ensures tables { OnOk result ((id : ℕ) → in_maps self.new id
            ≡ with_table (in_maps self.old) (arc_value table.entry) id) }
        ensures beside { OnErr result (IsSome self.old.in_force.first) }
        ensures refused { OnErr result (held_by self.new ≡ held_by self.old) }
        ensures ended { self.new.ended ≡ self.old.ended }
        ensures most { most_kept self.new ≡ most_kept self.old }
        ensures opened { opened_in self.new ≡ opened_in self.old }
    {
        self.in_force.put(table)
    }

    // Returns the kept table map event of a body.
    fn kept_as(
        &mut self,
        server: Server,
        post_header_len: u8,
        body: &[u8],
    ) -> Result<Option<Arc<TableMapEvent<'static>>>, AllocError>
        ensures read { IfOk result
            (λ o. IfSome o (λ t. ReadsTable server post_header_len body.now (Ok (arc_value t)))) }
        ensures held { held_by self.new ≡ held_by self.old }
        ensures most { most_kept self.new ≡ most_kept self.old }
        ensures opened { opened_in self.new ≡ opened_in self.old }
    {
        let key = key_of(body);
        let Some(Found { value, is_old }) = self.kept.get(key) else {
            return Ok(None);
        };
        let shared = value.shared(server, post_header_len, body)?;
        if is_old {
            self.kept.renew(key)?;
        }
        Ok(shared)
    }

    // Keeps a table map event that is that of a body, if there is room for it.
    fn keep(
        &mut self,
        alloc: Global,
        server: Server,
        post_header_len: u8,
        body: &[u8],
        table: &Arc<TableMapEvent<'static>>,
    ) -> Result<(), AllocError>
        requires { ReadsTable server post_header_len body.now (Ok (arc_value table.now)) }
        ensures held { held_by self.new ≡ held_by self.old }
        ensures most { most_kept self.new ≡ most_kept self.old }
        ensures opened { opened_in self.new ≡ opened_in self.old }
    {
        let key = key_of(body);
        if body.len() > MOST_BODY || !self.kept.make_room(key, weight_of(body))? {
            return Ok(());
        }
        let kept = KeptTable {
            server,
            post_header_len,
            body: Vec::from_slice(alloc, body)?,
            table: table.clone()?,
        };
        self.kept.insert(key, kept)
    }

    // Copies a table map event that is that of a body, and keeps the copy if there is room for it.
    fn copy(
        &mut self,
        alloc: Global,
        server: Server,
        post_header_len: u8,
        body: &[u8],
        table: &TableMapEvent<'_>,
    ) -> Result<Arc<TableMapEvent<'static>>, AllocError>
        requires { ReadsTable server post_header_len body.now (Ok table.now) }
        ensures copied { IfOk result (λ t. arc_value t ≡ table.now) }
        ensures held { held_by self.new ≡ held_by self.old }
        ensures most { most_kept self.new ≡ most_kept self.old }
        ensures opened { opened_in self.new ≡ opened_in self.old }
    {
        let copy = Arc::new(alloc, table.clone(alloc)?.into_owned(alloc)?)?;
        self.keep(alloc, server, post_header_len, body, &copy)?;
        Ok(copy)
    }

    /// Returns the table map event of a body, a kept one where there is one.
    pub fn table_of(
        &mut self,
        alloc: Global,
        server: Server,
        post_header_len: u8,
        body: &[u8],
    ) -> Result<Arc<TableMapEvent<'static>>, EventError>
        ensures ok { IfOk result (λ t. ReadsTable server post_header_len body.now (Ok (arc_value t))) }
        ensures err { IfErr result
            (λ e. (e ≡ error.Memory) ⊎ ReadsTable server post_header_len body.now (Err e)) }
        ensures held { held_by self.new ≡ held_by self.old }
        ensures most { most_kept self.new ≡ most_kept self.old }
        ensures opened { opened_in self.new ≡ opened_in self.old }
    {
        if let Some(kept) = self.kept_as(server, post_header_len, body)? {
            return Ok(kept);
        }
        let table = read_table(server, post_header_len, body)?;
        Ok(self.copy(alloc, server, post_header_len, body, &table)?)
    }

    // Returns a table map event that is that of a body, a kept one where there is one.
    fn shared(
        &mut self,
        alloc: Global,
        post_header_len: u8,
        body: &[u8],
        table: &TableMapEvent<'_>,
    ) -> Result<Arc<TableMapEvent<'static>>, AllocError>
        requires { ReadsTable table.now.server post_header_len body.now (Ok table.now) }
        ensures same { IfOk result (λ t. arc_value t ≡ table.now) }
        ensures held { held_by self.new ≡ held_by self.old }
        ensures most { most_kept self.new ≡ most_kept self.old }
        ensures opened { opened_in self.new ≡ opened_in self.old }
    {
        let server = table.server();
        match self.kept_as(server, post_header_len, body)? {
            Some(kept) => Ok(kept),
            None => self.copy(alloc, server, post_header_len, body, table),
        }
    }

    // Returns the table map event that an event is, a kept one where there is one.
    fn table_in(
        &mut self,
        alloc: Global,
        event: &Event<'_>,
    ) -> Result<Option<Arc<TableMapEvent<'static>>>, AllocError>
        ensures same { IfOk result (λ t. option_map arc_value t ≡ event.now.table) }
        ensures held { held_by self.new ≡ held_by self.old }
        ensures most { most_kept self.new ≡ most_kept self.old }
        ensures opened { opened_in self.new ≡ opened_in self.old }
    {
        match event.table() {
            None => Ok(None),
            Some(table) => Ok(Some(self.shared(
                alloc,
                event.post_header_len(),
                event.body(),
                table,
            )?)),
        }
    }

    // Puts a table map event in force, if there is one.
    fn put_maybe(&mut self, table: Option<Arc<TableMapEvent<'static>>>) -> Result<(), AllocError>
        ensures tables { OnOk result ((id : ℕ) → in_maps self.new id
            ≡ with_map (in_maps self.old) (option_map arc_value table.entry) id) }
        ensures beside { OnErr result (IsSome self.old.in_force.first) }
        ensures refused { OnErr result (held_by self.new ≡ held_by self.old) }
        ensures ended { self.new.ended ≡ self.old.ended }
        ensures most { most_kept self.new ≡ most_kept self.old }
        ensures opened { opened_in self.new ≡ opened_in self.old }
    {
        match table {
            None => Ok(()),
            Some(table) => self.put(table),
        }
    }

    /// Takes a table map event. All tables before it are given up if a statement ended with the event
    /// before it. Where memory is refused, all is as before.
    pub fn take_table(&mut self, table: Arc<TableMapEvent<'static>>) -> Result<(), AllocError>
        ensures tables { OnOk result ((id : ℕ) → in_maps self.new id
            ≡ with_table (found (in_maps self.old) self.old.ended) (arc_value table.entry) id) }
        ensures ended { OnOk result (self.new.ended ≡ false) }
        ensures refused { OnErr result (held_by self.new ≡ held_by self.old) }
        ensures most { most_kept self.new ≡ most_kept self.old }
        ensures opened { opened_in self.new ≡ opened_in self.old }
    {
        self.end_statement();
        self.put(table)?;
        self.ended = false;
        Ok(())
    }

    /// Takes what an event says of tables: a table map event is in force from then on. All tables
    /// are given up at the event after a rows event with the flag STMT_END_F, and at a format
    /// description event. Where memory is refused, the tables in force are as before.
    pub fn take(&mut self, alloc: Global, event: &Event<'_>) -> Result<(), AllocError>
        ensures tables { OnOk result
            ((id : ℕ) → in_maps self.new id ≡ (in_force_after (held_by self.old) event.now).tables id) }
        ensures ended { OnOk result (self.new.ended ≡ ends_statement event.now) }
        ensures refused { OnErr result (held_by self.new ≡ held_by self.old) }
        ensures most { most_kept self.new ≡ most_kept self.old }
        ensures opened { opened_in self.new ≡ opened_in self.old }
    {
        let table = self.table_in(alloc, event)?;
        self.give_up(event);
        self.put_maybe(table)?;
        self.ended = event.ends_statement();
        Ok(())
    }
}
