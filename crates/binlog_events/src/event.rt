//! The events of a file, and how one is read.

ghost use Rattle.std.specs.Prelude.{◌≡◌, ◌↔◌, ◌-◌, ◌<◌, ◌++◌, ℕ, List, true, false, nat_eq, None, Some, Ok, Err, IfOk, IfErr, IfSome, IsTrue, length, take, drop};
ghost use Rattle.std.specs.Option.{option_map};
ghost use Rattle.binlog_base.specs.Format.{Parses, ParsesAs, ReadsAs, within, all_of, map_value, map_fault};
ghost use Rattle.binlog_table.specs.TableMap.{table_map_of};
ghost use Rattle.binlog_events.specs.Description.{description, post_header_len};
ghost use Rattle.binlog_events.specs.Header.{header};
ghost use Rattle.binlog_events.specs.declared.error.EventError.TheVariants as error;
ghost use Rattle.binlog_events.specs.Crc32.{crc32};
ghost use Rattle.binlog_events.specs.Events as Spec;
ghost use Rattle.binlog_events.specs.Tables.{ends_statement, has_end_flag};
ghost use Rattle.binlog_events.specs.Workings.Stored.{is_there};
ghost use Rattle.binlog_events.specs.Workings.TableBodies.{ReadsTable};

use crate::crc::crc32_of_both;
use crate::description::FormatDescriptionEvent;
use crate::error::EventError;
use crate::header::BinlogEventHeader;
use crate::origin::Origin;
use crate::types::{FORMAT_DESCRIPTION, ROTATE, TABLE_MAP, TRANSACTION_PAYLOAD, WRITE_ROWS};
use crate::version::knows_checksums;
use binlog_base::below::{MyDeserialize, ParseBuf, Server};
use binlog_consts::consts::EventType;
use binlog_table::table_map::TableMapEvent;
use byteorder::{ByteOrder, LittleEndian};
use mysql_binlog_rows::rows_event::RowsEventCtx;
use std::marker::Model;

/// The bytes of an event: those of the header, and those after it.
#[derive(Debug, Drop)]
pub struct Raw<'a> {
    head: &'a [u8],
    header: BinlogEventHeader,
    rest: &'a [u8],
}

impl<'a> Model for Raw<'a> {
    ghost use Rattle.std.specs.Prelude.{◌≡◌, length};
    ghost use Rattle.binlog_events.specs.Events as Spec;

    ghost Value = { Spec.Raw };

    ghost view = { λ r. record { head = r.head.now; header = r.header; rest = r.rest.now } };

    ghost invariant = { λ r. length r.head.now ≡ 19 };
}

impl<'a> Raw<'a> {
    /// Returns the event with these 19 bytes of the header, this header, and these bytes after it. It
    /// isn't checked that the bytes say the header.
    pub fn new(head: &'a [u8], header: BinlogEventHeader, rest: &'a [u8]) -> Raw<'a>
        requires { length head.now ≡ 19 }
        ensures { result ≡ Spec.raw head.now header rest.now }
    {
        Raw { head, header, rest }
    }

    /// Returns the event's header.
    pub fn header(&self) -> BinlogEventHeader
        ensures { result ≡ self.now.header }
    {
        self.header
    }

    /// Returns the 19 bytes of the header.
    pub fn head(&self) -> &'a [u8]
        ensures { result.now ≡ self.now.head }
    {
        self.head
    }

    /// Returns the bytes after the header, with a checksum where the event ends with one.
    pub fn rest(&self) -> &'a [u8]
        ensures { result.now ≡ self.now.rest }
    {
        self.rest
    }

    fn is_description(&self) -> bool
        ensures { result ≡ Spec.is_description self.now }
    {
        self.header.event_type() == FORMAT_DESCRIPTION
    }

    /// Returns whether the event is a table map event.
    pub fn is_table(&self) -> bool
        ensures { IsTrue result ↔ (self.now.header.event_type ≡ 0x13) }
    {
        self.header.event_type() == TABLE_MAP
    }

    /// Returns whether the event is neither a format description nor a table map event.
    pub fn is_plain(&self) -> bool
        ensures { result ≡ Spec.is_plain self.now }
    {
        !matches!(self.header.event_type(), FORMAT_DESCRIPTION | TABLE_MAP)
    }
}

/// What the changes of a file need of an event: where it begins, its header, what is needed to read it
/// as a rows event, if it is one, and its body.
#[derive(Debug, Drop)]
pub struct Glance<'a> {
    /// Where the event begins in the file.
    pub position: u64,
    /// The event's header.
    pub header: BinlogEventHeader,
    /// What is needed to read the body as that of a rows event; none if the event is of another type.
    pub rows: Option<RowsEventCtx>,
    /// The bytes after the header, without a checksum.
    pub body: &'a [u8],
}

impl<'a> Model for Glance<'a> {
    ghost use Rattle.binlog_events.specs.Events as Spec;

    ghost Value = { Spec.Glance };

    ghost view = { λ g. record {
      origin = record {
        position = g.position;
        timestamp = g.header.timestamp;
        server_id = g.header.server_id;
      };
      header = g.header;
      rows = g.rows;
      body = g.body.now;
    } };
}

impl<'a> Glance<'a> {
    /// Returns where the event comes from.
    pub fn origin(&self) -> Origin
        ensures { result ≡ self.now.origin }
    {
        Origin {
            position: self.position,
            timestamp: self.header.timestamp(),
            server_id: self.header.server_id(),
        }
    }
}

/// What an event ends with: its checksum, where events have one.
#[derive(Clone, Copy, Debug, PartialEq, Eq)]
pub struct BinlogEventFooter {
    checksum: Option<u32>,
}

impl BinlogEventFooter {
    /// Returns the CRC-32 that the event ends with, if it ends with one.
    pub fn checksum(&self) -> Option<u32>
        ensures { result ≡ self.now.checksum }
    {
        self.checksum
    }
}

/// The body of an event, and what the event ends with.
#[derive(Debug, Drop)]
pub struct Parts<'a> {
    body: &'a [u8],
    footer: BinlogEventFooter,
}

impl<'a> Model for Parts<'a> {
    ghost use Rattle.binlog_events.specs.Events as Spec;

    ghost Value = { Spec.Parts };

    ghost view = { λ p. record { body = p.body.now; checksum = p.footer.checksum } };
}

impl<'a> Parts<'a> {
    /// Returns the body.
    pub fn body(&self) -> &'a [u8]
        ensures { result.now ≡ self.now.body }
    {
        self.body
    }
}

// Takes n bytes of an event.
fn take<'a>(n: usize, buf: &mut ParseBuf<'a>) -> Result<&'a [u8], EventError>
    ensures parses { ParsesAs (λ x. x.now) (Spec.taken n) result buf.old.0.now buf.new.0.now }
    ensures len { IfOk result (λ x. length x.now ≡ n) }
{
    let there = buf.len();
    match buf.checked_eat(n) {
        Some(bytes) => Ok(bytes),
        None => Err(EventError::Cut((n - there) as u64)),
    }
}

/// Returns how many bytes follow the header. Fails with `EventSize` if the size in it is below 19.
pub fn rest_len(header: &BinlogEventHeader) -> Result<usize, EventError>
    ensures { result ≡ Spec.rest_len header.now }
{
    let size = header.event_size();
    if size < 19 {
        Err(EventError::EventSize(size))
    } else {
        Ok(size as usize - 19)
    }
}

/// Reads the header from its 19 bytes. Fails with `Description` if they are others than 19.
pub fn header_of(head: &[u8]) -> Result<BinlogEventHeader, EventError>
    ensures { (x : List ℕ) → Parses (map_fault (within head.now header) error.Description) result x x }
{
    match BinlogEventHeader::deserialize((), &mut ParseBuf(head)) {
        Ok(header) => Ok(header),
        Err(fault) => Err(EventError::Description(fault)),
    }
}

/// Takes the bytes of an event. Fails with `Cut` if the header is cut, `EventSize` if the size in it is
/// below 19, and `Cut` if the rest of the event is cut.
#[tactic(auto, unfolding(crate::specs::Events::raw_event))]
pub fn read_raw<'a>(buf: &mut ParseBuf<'a>) -> Result<Raw<'a>, EventError>
    ensures { Parses Spec.raw_event result buf.old.0.now buf.new.0.now }
{
    let head = take(19, buf)?;
    let header = header_of(head)?;
    let size = rest_len(&header)?;
    let rest = take(size, buf)?;
    Ok(Raw { head, header, rest })
}

// Returns the first n bytes.
fn front(n: usize, bytes: &[u8]) -> &[u8]
    ensures { result.now ≡ take n bytes.now }
{
    bytes.split_at(n.min(bytes.len())).0
}

// Returns the bytes after the first n.
fn after(n: usize, bytes: &[u8]) -> &[u8]
    ensures { result.now ≡ drop n bytes.now }
{
    bytes.split_at(n.min(bytes.len())).1
}

/// Returns whether the event ends with a checksum, after the description that is in force.
pub fn has_checksum(in_force: &Option<FormatDescriptionEvent<'_>>, raw: &Raw<'_>) -> bool
    ensures { result ≡ Spec.has_checksum in_force.now raw.now }
{
    if raw.is_description() {
        return knows_checksums(front(50, after(2, raw.rest)));
    }
    match in_force {
        Some(description) => description.has_checksums(),
        None => false,
    }
}

// Returns whether the checksum that the event ends with has to be right.
fn is_checked(raw: &Raw<'_>) -> bool
    ensures { result ≡ Spec.is_checked raw.now }
{
    let algorithm = raw.rest.get(raw.rest.len().saturating_sub(5));
    !raw.is_description() || algorithm.copied().unwrap_or(0) == 1
}

// Returns the checksum of an event with this body.
fn checksum_of(raw: &Raw<'_>, body: &[u8]) -> u32
    ensures { result ≡ crc32 (Spec.summed_head raw.now ++ body.now) }
{
    if raw.is_description() {
        let mut head = [0; 19];
        head.copy_from_slice(raw.head);
        head[17] -= head[17] % 2;
        crc32_of_both(&head, body)
    } else {
        crc32_of_both(raw.head, body)
    }
}

// Returns the body with this checksum, which has to be right if it is checked.
fn summed<'a>(raw: &Raw<'_>, found: u32, body: &'a [u8]) -> Result<Parts<'a>, EventError>
    ensures { result ≡ Spec.summed (Spec.is_checked raw.now) (Spec.summed_head raw.now) found body.now }
{
    let footer = BinlogEventFooter {
        checksum: Some(found),
    };
    if !is_checked(raw) {
        return Ok(Parts { body, footer });
    }
    let computed = checksum_of(raw, body);
    if found == computed {
        Ok(Parts { body, footer })
    } else {
        Err(EventError::Checksum(found, computed))
    }
}

/// Returns the body, and the checksum after it if there is one. Fails with `EventSize` if there is no
/// room for it, and `Checksum` if it differs.
#[inline(always)]
#[tactic(auto, unfolding(crate::specs::Events::parts_of))]
pub fn parts_of<'a>(has_checksum: bool, raw: &Raw<'a>) -> Result<Parts<'a>, EventError>
    ensures { result ≡ Spec.parts_of has_checksum raw.now }
{
    if !has_checksum {
        return Ok(Parts {
            body: raw.rest,
            footer: BinlogEventFooter { checksum: None },
        });
    }
    let len = raw.rest.len();
    if len < 4 {
        return Err(EventError::EventSize(raw.header.event_size()));
    }
    let (body, sum) = raw.rest.split_at(len - 4);
    summed(raw, LittleEndian::read_u32(sum), body)
}

/// An event of a file: its header, its body, and the checksum after it; and what the body says if
/// it is a format description event or a table map event.
#[derive(Debug, Drop)]
pub struct Event<'a> {
    position: u64,
    header: BinlogEventHeader,
    body: &'a [u8],
    footer: BinlogEventFooter,
    rows: Option<RowsEventCtx>,
    description: Option<FormatDescriptionEvent<'a>>,
    table: Option<TableMapEvent<'a>>,
    // That of table map events, if the event is one, else 0.
    post_header_len: u8,
}

impl<'a> Model for Event<'a> {
    ghost use Rattle.std.specs.Prelude.{IfSome, Ok};
    ghost use Rattle.binlog_events.specs.Events as Spec;
    ghost use Rattle.binlog_events.specs.Workings.TableBodies.{ReadsTable};

    ghost Value = { Spec.Event };

    ghost view = { λ e. record {
      position = e.position;
      header = e.header;
      body = e.body.now;
      checksum = e.footer.checksum;
      rows = e.rows;
      description = e.description;
      table = e.table;
    } };

    ghost invariant = { λ e. IfSome e.table
        (λ t. ReadsTable t.server e.post_header_len e.body.now (Ok t)) };
}

// Reads a format description event from all bytes of its body.
fn described<'a>(
    position: u64,
    header: BinlogEventHeader,
    parts: Parts<'a>,
) -> Result<Event<'a>, EventError>
    ensures { (x : List ℕ) → Parses
        (map_value (all_of parts.entry.body (description (length parts.entry.body)))
        (Spec.with_description position header parts.entry)) result x x }
{
    let Parts { body, footer } = parts;
    let description = FormatDescriptionEvent::read(body.len(), &mut ParseBuf(body))?;
    Ok(Event {
        position,
        header,
        body,
        footer,
        rows: None,
        description: Some(description),
        table: None,
        post_header_len: 0,
    })
}

/// Reads a server's table map event from all bytes of its body, by the post-header length of table map
/// events. Fails with `TableMap`. Takes no memory.
pub fn read_table<'a>(
    server: Server,
    post_header_len: u8,
    body: &'a [u8],
) -> Result<TableMapEvent<'a>, EventError>
    ensures reads { ReadsTable server post_header_len body.now result }
    ensures server { IfOk result (λ t. t.server ≡ server) }
{
    match TableMapEvent::deserialize(post_header_len, &mut ParseBuf(body)) {
        Ok(table) => Ok(table.with_server(server)),
        Err(fault) => Err(EventError::TableMap(fault)),
    }
}

// Reads a table map event, after a description.
fn with_table<'a>(
    position: u64,
    description: &FormatDescriptionEvent<'_>,
    header: BinlogEventHeader,
    parts: Parts<'a>,
) -> Result<Event<'a>, EventError>
    ensures { (x : List ℕ) → Parses
        (map_value (map_fault (all_of parts.entry.body
        (table_map_of description.now.server (post_header_len description.now 0x13))) error.TableMap)
        (Spec.with_table position header parts.entry)) result x x }
{
    let Parts { body, footer } = parts;
    let post_header_len = description.post_header_len(TABLE_MAP);
    let table = read_table(description.server(), post_header_len, body)?;
    Ok(Event {
        position,
        header,
        body,
        footer,
        rows: None,
        description: None,
        table: Some(table),
        post_header_len,
    })
}

// Returns whether events of the type hold rows that aren't read.
fn has_unread_rows(event_type: u8) -> bool
    ensures { result ≡ Spec.has_unread_rows event_type }
{
    matches!(event_type, 0x14..=0x16 | TRANSACTION_PAYLOAD | 0xa6..=0xab)
}

// Returns whether a server writes events of the type.
fn is_known(event_type: u8) -> bool
    ensures { result ≡ Spec.is_known event_type }
{
    matches!(event_type, 0..=0x2a | 0xa0..=0xa3 | 0xa5)
}

// Returns whether the event can be read, or passed over.
fn is_supported(header: &BinlogEventHeader) -> bool
    ensures { result ≡ Spec.is_supported header.now }
{
    !has_unread_rows(header.event_type())
        && (is_known(header.event_type()) || header.is_ignorable())
}

/// Returns the type of a rows event; none for the number of another type.
pub fn rows_type(number: u8) -> Option<EventType>
    ensures { result ≡ Spec.rows_type number }
{
    match number {
        0x17 => Some(EventType::WRITE_ROWS_EVENT_V1),
        0x18 => Some(EventType::UPDATE_ROWS_EVENT_V1),
        0x19 => Some(EventType::DELETE_ROWS_EVENT_V1),
        0x1e => Some(EventType::WRITE_ROWS_EVENT),
        0x1f => Some(EventType::UPDATE_ROWS_EVENT),
        0x20 => Some(EventType::DELETE_ROWS_EVENT),
        0x27 => Some(EventType::PARTIAL_UPDATE_ROWS_EVENT),
        _ => None,
    }
}

// Returns what is needed to read the body of a rows event; none for any other type.
#[tactic(auto, unfolding(crate::specs::Events::rows_ctx))]
fn rows_ctx(description: &FormatDescriptionEvent<'_>, number: u8) -> Option<RowsEventCtx>
    ensures { result ≡ Spec.rows_ctx description.now number }
{
    let event_type = rows_type(number)?;
    Some(RowsEventCtx {
        event_type,
        post_header_len: description.post_header_len(number),
        write_rows_post_header_len: description.post_header_len(WRITE_ROWS),
    })
}

/// An event that is neither a format description nor a table map event. It is smaller than an
/// `Event`, so that the many events that are passed over cost less.
#[derive(Debug, Drop)]
pub struct PlainEvent<'a> {
    position: u64,
    header: BinlogEventHeader,
    body: &'a [u8],
    footer: BinlogEventFooter,
    rows: Option<RowsEventCtx>,
}

impl<'a> Model for PlainEvent<'a> {
    ghost use Rattle.std.specs.Prelude.{None};
    ghost use Rattle.binlog_events.specs.Events as Spec;

    ghost Value = { Spec.Event };

    ghost view = { λ e. record {
      position = e.position;
      header = e.header;
      body = e.body.now;
      checksum = e.footer.checksum;
      rows = e.rows;
      description = None;
      table = None;
    } };
}

// Returns whether the event names the file that follows.
fn is_rotate(header: &BinlogEventHeader) -> bool
    ensures { result ≡ Spec.is_rotate header.now }
{
    header.event_type() == ROTATE
}

// Reads an event that no description comes before. The name of a file is passed over: a server begins
// a stream with it.
fn undescribed_event<'a>(
    position: u64,
    header: BinlogEventHeader,
    parts: Parts<'a>,
) -> Result<PlainEvent<'a>, EventError>
    ensures parses { (x : List ℕ) → Parses
        (Spec.other_event position None header parts.entry) result x x }
    ensures plain { IfOk result (λ e. e.description ≡ None) }
    ensures no_table { IfOk result (λ e. e.table ≡ None) }
{
    if !is_rotate(&header) {
        return Err(EventError::NoDescription);
    }
    let Parts { body, footer } = parts;
    Ok(PlainEvent {
        position,
        header,
        body,
        footer,
        rows: None,
    })
}

// Reads a plain event from its parts.
fn plain_event<'a>(
    position: u64,
    in_force: &Option<FormatDescriptionEvent<'_>>,
    header: BinlogEventHeader,
    parts: Parts<'a>,
) -> Result<PlainEvent<'a>, EventError>
    requires { nat_eq header.event_type 0x13 ≡ false }
    ensures parses { (x : List ℕ) → Parses
        (Spec.other_event position in_force.now header parts.entry) result x x }
    ensures plain { IfOk result (λ e. e.description ≡ None) }
    ensures no_table { IfOk result (λ e. e.table ≡ None) }
{
    let Some(description) = in_force else {
        return undescribed_event(position, header, parts);
    };
    if !is_supported(&header) {
        return Err(EventError::NotSupported(header.event_type()));
    }
    let Parts { body, footer } = parts;
    Ok(PlainEvent {
        position,
        header,
        body,
        footer,
        rows: rows_ctx(description, header.event_type()),
    })
}

impl<'a> PlainEvent<'a> {
    /// Reads the event of these bytes, after the description that is in force.
    ///
    /// Fails with `EventSize` if there is no room for the checksum, `Checksum` if it differs,
    /// `NoDescription` if no description is in force, unless the event is a `ROTATE_EVENT`, and
    /// `NotSupported` if the event's type isn't supported.
    #[inline(always)]
    pub fn of_raw(
        position: u64,
        in_force: &Option<FormatDescriptionEvent<'_>>,
        raw: &Raw<'a>,
    ) -> Result<PlainEvent<'a>, EventError>
        requires { Spec.is_plain raw.now ≡ true }
        ensures parses { (x : List ℕ) → Parses
            (Spec.event_of_raw position in_force.now raw.now) result x x }
        ensures plain { IfOk result (λ e. e.description ≡ None) }
        ensures no_table { IfOk result (λ e. e.table ≡ None) }
    {
        let parts = parts_of(has_checksum(in_force, raw), raw)?;
        let header = raw.header();
        plain_event(position, in_force, header, parts)
    }

    /// Returns the number of the event's type.
    pub fn event_type(&self) -> u8
        ensures { result ≡ self.now.header.event_type }
    {
        self.header.event_type()
    }

    /// Returns how many bytes the whole event has, header and checksum included.
    pub fn event_size(&self) -> u32
        ensures { result ≡ self.now.header.event_size }
    {
        self.header.event_size()
    }

    /// Returns whether the event is a rows event with the flag STMT_END_F: the last one of its
    /// statement.
    pub fn ends_statement(&self) -> bool
        ensures { result ≡ ends_statement self.now }
    {
        ends_statement_of(self.rows, self.body)
    }

    /// Returns what the changes of a file need of the event.
    pub fn glance(&self) -> Glance<'a>
        ensures { result ≡ Spec.glance_of self.now }
    {
        Glance {
            position: self.position,
            header: self.header,
            rows: self.rows,
            body: self.body,
        }
    }
}

// Returns whether the body of a rows event has the flag STMT_END_F.
fn ends_statement_of(rows: Option<RowsEventCtx>, body: &[u8]) -> bool
    ensures { result ≡ has_end_flag rows body.now }
{
    match rows {
        None => false,
        Some(ctx) => {
            let id_len = if ctx.post_header_len == 6 { 4 } else { 6 };
            body.get(id_len).copied().unwrap_or(0) % 2 == 1
        }
    }
}

// Reads an event that is no format description event, after a description.
fn after_description<'a>(
    position: u64,
    description: &FormatDescriptionEvent<'_>,
    header: BinlogEventHeader,
    parts: Parts<'a>,
) -> Result<Event<'a>, EventError>
    ensures { (x : List ℕ) → Parses
        (Spec.other_event position (Some description.now) header parts.entry) result x x }
{
    let event_type = header.event_type();
    if event_type == TABLE_MAP {
        with_table(position, description, header, parts)
    } else if is_supported(&header) {
        let Parts { body, footer } = parts;
        Ok(Event {
            position,
            header,
            body,
            footer,
            rows: rows_ctx(description, event_type),
            description: None,
            table: None,
            post_header_len: 0,
        })
    } else {
        Err(EventError::NotSupported(event_type))
    }
}

// Reads an event that is no format description event.
fn other_event<'a>(
    position: u64,
    in_force: &Option<FormatDescriptionEvent<'_>>,
    header: BinlogEventHeader,
    parts: Parts<'a>,
) -> Result<Event<'a>, EventError>
    ensures { (x : List ℕ) → Parses
        (Spec.other_event position in_force.now header parts.entry) result x x }
{
    match in_force {
        None => Ok(Event::of_plain(undescribed_event(position, header, parts)?)),
        Some(description) => after_description(position, description, header, parts),
    }
}

impl<'a> Event<'a> {
    // Returns the event that this plain event is.
    fn of_plain(event: PlainEvent<'a>) -> Event<'a>
        ensures { result ≡ event.entry }
    {
        let PlainEvent {
            position,
            header,
            body,
            footer,
            rows,
        } = event;
        Event {
            position,
            header,
            body,
            footer,
            rows,
            description: None,
            table: None,
            post_header_len: 0,
        }
    }

    /// Returns where the event begins in the file.
    pub fn position(&self) -> u64
        ensures { result ≡ self.now.position }
    {
        self.position
    }

    /// Returns where the event comes from.
    pub fn origin(&self) -> Origin
        ensures { result ≡ Spec.origin_of self.now }
    {
        Origin {
            position: self.position,
            timestamp: self.header.timestamp(),
            server_id: self.header.server_id(),
        }
    }

    /// Returns the event's header.
    pub fn header(&self) -> BinlogEventHeader
        ensures { result ≡ self.now.header }
    {
        self.header
    }

    /// Returns the event's body: the bytes after the header, without a checksum.
    pub fn body(&self) -> &'a [u8]
        ensures { result.now ≡ self.now.body }
    {
        self.body
    }

    /// Returns what the event ends with.
    pub fn footer(&self) -> BinlogEventFooter
        ensures { result.checksum ≡ self.now.checksum }
    {
        self.footer
    }

    /// Returns what is needed to read the body as that of a rows event; none if the event is of
    /// another type.
    pub fn rows_ctx(&self) -> Option<RowsEventCtx>
        ensures { result ≡ self.now.rows }
    {
        self.rows
    }

    /// Returns the table map event that the event is, if it is one.
    pub fn table(&self) -> Option<&TableMapEvent<'a>>
        ensures { option_map (λ t. t.now) result ≡ self.now.table }
    {
        self.table.as_ref()
    }

    /// Returns the post-header length that the event was read by, if it is a table map event.
    pub fn post_header_len(&self) -> u8
        ensures { IfSome self.now.table (λ t. ReadsTable t.server result self.now.body (Ok t)) }
    {
        self.post_header_len
    }

    /// Returns the format description event that the event is, if it is one.
    pub fn description(&self) -> Option<&FormatDescriptionEvent<'a>>
        ensures { option_map (λ d. d.now) result ≡ self.now.description }
    {
        self.description.as_ref()
    }

    /// Returns the format description event that the event is, if it is one, apart from the event.
    pub fn description_again(&self) -> Option<FormatDescriptionEvent<'a>>
        ensures { result ≡ self.now.description }
    {
        match self.description() {
            Some(description) => Some(description.again()),
            None => None,
        }
    }

    /// Returns whether the event is a format description event.
    pub fn is_description(&self) -> bool
        ensures { result ≡ is_there self.now.description }
    {
        match self.description() {
            Some(_) => true,
            None => false,
        }
    }

    /// Returns whether the event is a table map event.
    pub fn is_table(&self) -> bool
        ensures { result ≡ is_there self.now.table }
    {
        match self.table() {
            Some(_) => true,
            None => false,
        }
    }

    /// Returns whether the event is a rows event with the flag STMT_END_F: the last one of its
    /// statement.
    pub fn ends_statement(&self) -> bool
        ensures { result ≡ ends_statement self.now }
    {
        ends_statement_of(self.rows, self.body)
    }

    /// Returns what the changes of a file need of the event.
    pub fn glance(&self) -> Glance<'a>
        ensures { result ≡ Spec.glance_of self.now }
    {
        Glance {
            position: self.position,
            header: self.header,
            rows: self.rows,
            body: self.body,
        }
    }

    /// Reads the event of these bytes, after the description that is in force. Fails as `read` does
    /// once it has the event's bytes.
    pub fn of_raw(
        position: u64,
        in_force: &Option<FormatDescriptionEvent<'_>>,
        raw: &Raw<'a>,
    ) -> Result<Event<'a>, EventError>
        ensures { (x : List ℕ) → Parses
            (Spec.event_of_raw position in_force.now raw.now) result x x }
    {
        let parts = parts_of(has_checksum(in_force, raw), raw)?;
        let header = raw.header();
        if raw.is_description() {
            described(position, header, parts)
        } else {
            other_event(position, in_force, header, parts)
        }
    }

    // Reads the event at the start of the bytes, after the description that is in force.
    #[tactic(auto, using(crate::proofs::Reading::from_raw), unfolding(crate::specs::Events::event))]
    fn read_parts(
        position: u64,
        in_force: &Option<FormatDescriptionEvent<'_>>,
        buf: &mut ParseBuf<'a>,
    ) -> Result<Event<'a>, EventError>
        ensures { Parses (Spec.event position in_force.now) result buf.old.0.now buf.new.0.now }
    {
        let raw = read_raw(buf)?;
        Event::of_raw(position, in_force, &raw)
    }

    /// Reads the event at the start of the bytes, which begin at `position` in a file, and takes its
    /// bytes. `in_force` is the format description event before it, if there is one.
    ///
    /// Fails with `Cut` if the header is cut; `EventSize` if the size in it is below 19; `Cut` if
    /// the rest of the event is cut; `EventSize` if there is no room for the checksum; `Checksum`
    /// if it differs. Then, for a format description event, with its first fault of
    /// `BinlogVersion`, `ServerVersion`, `HeaderLength`, `ChecksumAlgorithm` and `Description`; for
    /// another event, with `NoDescription` if none is in force, unless it is a `ROTATE_EVENT`,
    /// `TableMap` if it is a table map event that can't be read, and `NotSupported` if its type
    /// isn't. Takes no memory.
    ///
    /// A server begins a stream with a `ROTATE_EVENT`, which names the file. Before the first format
    /// description its body is all bytes after the header: whether a checksum ends it isn't known.
    #[tactic(auto, using(crate::proofs::Reading::read_event))]
    pub fn read(
        position: u64,
        in_force: &Option<FormatDescriptionEvent<'_>>,
        buf: &mut ParseBuf<'a>,
    ) -> Result<Event<'a>, EventError>
        // A prefix of the bytes spells the event, or the layout refuses them with the error.
        ensures { ReadsAs false (λ e. e) (Spec.event position in_force.now) result
            buf.old.0.now buf.new.0.now }
    {
        Event::read_parts(position, in_force, buf)
    }
}
