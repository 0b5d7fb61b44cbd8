//! Lines of pairs of rows whose long texts aren't in memory a second time.
#![tactic(auto, using(crate::proofs::Steps::stays))]

ghost use Rattle.std.specs.Prelude.{◌≡◌, ◌≢◌, ◌≤◌, ◌<◌, ◌+◌, ◌*◌, ◌++◌, ◌∷◌, [], List, drop, length, vec_len, vec_capacity, IsTrue, ◌↔◌, IfOk, IfErr, IfSome, OnOk, Some, codes};
ghost use Rattle.std.specs.Option.{option_map};
ghost use Rattle.json.specs.Json.{string};
ghost use Rattle.json.specs.Token.{Token};
ghost use Rattle.json.specs.Token as token;
ghost use Rattle.json.specs.Print.{escape, escape_byte, print_from, print, ArePrintableOrBad};
ghost use Rattle.binlog_base.specs.declared.fault.Fault.TheVariants as Fault;
ghost use Rattle.binlog_cells.specs.LentCells.{lent_cell};
ghost use Rattle.row_json.specs.declared.row.Part.TheVariants as parts;
ghost use Rattle.row_json.specs.Charsets.{latin1_text, text_in};
ghost use Rattle.row_json.specs.Faults.{HasNone, IsFaultOfCell, IsFaultOfPart, IsFaultOfImage, IsFaultOfPair};
ghost use Rattle.row_json.specs.LongLines.{characters, line_bytes};
ghost use Rattle.row_json.specs.Columns.{set_from};
ghost use Rattle.row_json.specs.Rows.{IsMember, AreMembers, IsRowJson, IsImageJson, AreImages, IsPairJson, IsLine};
ghost use Rattle.row_json.specs.Workings.Drafts.{has_parts, closing, Holds, Goes, GoesOne, GoesMembers};
ghost use Rattle.row_json.specs.Wrote.{Named, object_end};

use crate::charset::{Charset, latin1_character, str_in};
use crate::images::Row;
use crate::kind::Kind;
use crate::line::LineRoom;
use crate::members::Members;
use crate::pair::{begin_pair, present_in, write_diffs_of};
use crate::present::ImageColumns;
use crate::row::{Part, write_member_of};
use crate::table::{ColumnJson, TableJson};
use binlog_base::bits::BitView;
use binlog_base::fault::Fault;
use json_line::{Writer, escape_letter, hex_digit};
use mysql_binlog_rows::row::LentRow;
use mysql_binlog_rows::rows_event::{LentPair, RowsEvent};
use mysql_binlog_rows::value::LentCell;
use std::alloc::{AllocError, Global};
use std::marker::Model;
use std::mem;

/// From how many bytes on a text stands apart from its line.
const LONG: usize = 512;

/// How many bytes of a text are escaped at a time.
const STEP: usize = 1024;

/// How many bytes they take at most: a byte of latin1 has up to four bytes in UTF-8, and each of
/// these takes up to six.
const ROOM: usize = 24 * STEP;

/// Room in which pieces of texts are escaped.
#[derive(Drop)]
pub struct EscapeRoom {
    bytes: Vec<u8>,
}

impl Model for EscapeRoom {
    ghost use Rattle.std.specs.Prelude.{◌≤◌, ◌*◌, List, ℕ, vec_capacity};

    ghost Value = { List ℕ };

    ghost view = { λ r. r.bytes.items };

    ghost invariant = { λ r. 24 * 1024 ≤ vec_capacity r.bytes };
}

impl EscapeRoom {
    /// Makes the room, of 24 KiB. Fails if memory is refused.
    pub fn new(alloc: Global) -> Result<EscapeRoom, AllocError> {
        Ok(EscapeRoom {
            bytes: Vec::with_capacity(alloc, ROOM)?,
        })
    }
}

/// The bytes of a cell that are text of a character set.
#[derive(Clone, Copy, Debug)]
pub struct LongText<'a> {
    charset: Charset,
    bytes: &'a [u8],
}

// Appends a byte as it stands in a string of JSON.
#[tactic(auto, unfolding(json::specs::Print::escape_byte))]
fn push_escaped(out: &mut Vec<u8>, byte: u8)
    requires { vec_len out.old + 6 ≤ vec_capacity out.old }
    ensures bytes { out.new.items ≡ out.old.items ++ escape_byte byte }
    ensures few { vec_len out.new ≤ vec_len out.old + 6 }
    ensures capacity { vec_capacity out.old ≤ vec_capacity out.new }
{
    let letter = escape_letter(byte);
    let pushed = if letter > 0 {
        out.extend_from_slice(&[b'\\', letter])
    } else if byte < 0x20 {
        out.extend_from_slice(&[
            b'\\',
            b'u',
            b'0',
            b'0',
            hex_digit(byte / 16),
            hex_digit(byte % 16),
        ])
    } else {
        out.extend_from_slice(&[byte])
    };
    if pushed.is_err() {
        unreachable!()
    }
}

// Appends bytes of UTF-8 as they stand in a string of JSON.
fn push_utf8(out: &mut Vec<u8>, bytes: &[u8])
    requires { vec_len out.old + 6 * length bytes.now ≤ vec_capacity out.old }
    ensures bytes { out.new.items ≡ out.old.items ++ escape bytes.now }
    ensures few { vec_len out.new ≤ vec_len out.old + 6 * length bytes.now }
    ensures capacity { vec_capacity out.old ≤ vec_capacity out.new }
{
    for byte in bytes {
        push_escaped(out, *byte);
    }
}

// Appends bytes of latin1 as they stand in a string of JSON.
fn push_latin1(out: &mut Vec<u8>, bytes: &[u8])
    requires { vec_len out.old + 24 * length bytes.now ≤ vec_capacity out.old }
    ensures bytes { out.new.items ≡ out.old.items ++ escape (latin1_text bytes.now) }
    ensures few { vec_len out.new ≤ vec_len out.old + 24 * length bytes.now }
    ensures capacity { vec_capacity out.old ≤ vec_capacity out.new }
{
    for byte in bytes {
        let mut room = [0; 4];
        push_utf8(
            out,
            latin1_character(*byte).encode_utf8(&mut room).as_bytes(),
        );
    }
}

impl<'a> LongText<'a> {
    /// Returns whether no characters are left.
    pub fn is_empty(&self) -> bool
        ensures { IsTrue result ↔ (length self.now.bytes.now ≡ 0) }
    {
        self.bytes.is_empty()
    }

    /// Takes some characters off the front, and returns them as they stand in a string of JSON. This
    /// takes no memory but the room.
    pub fn take_escaped<'r>(&mut self, room: &'r mut EscapeRoom) -> &'r [u8]
        ensures text { escape (characters self.old) ≡ result.now ++ escape (characters self.new) }
        ensures fewer { 0 < length self.old.bytes.now
            → length self.new.bytes.now < length self.old.bytes.now }
    {
        let (first, rest) = self.bytes.split_at(self.bytes.len().min(STEP));
        self.bytes = rest;
        room.bytes.clear();
        match self.charset {
            Charset::Latin1 => push_latin1(&mut room.bytes, first),
            _ => push_utf8(&mut room.bytes, first),
        }
        room.bytes.as_slice()
    }
}

/// A text that stands apart from its line, and what stands before it.
#[derive(Debug, Drop)]
pub struct LinePart<'a> {
    before: Vec<u8>,
    text: LongText<'a>,
}

impl<'a> Model for LinePart<'a> {
    ghost use Rattle.row_json.specs.LongLines as Spec;

    ghost Value = { Spec.LinePart };

    ghost view = { λ p. record { before = p.before.items; text = p.text } };
}

impl<'a> LinePart<'a> {
    /// Returns what stands before the text, and after the text before it.
    pub fn before(&self) -> &[u8]
        ensures { result.now ≡ self.now.before }
    {
        &self.before
    }

    /// Returns the text.
    pub fn text(&self) -> LongText<'a>
        ensures { result ≡ self.now.text }
    {
        self.text
    }
}

/// A line whose long texts stand apart, so that their characters aren't in memory once more.
#[derive(Debug, Drop)]
pub struct LongLine<'a> {
    parts: Vec<LinePart<'a>>,
    rest: Vec<u8>,
}

impl<'a> Model for LongLine<'a> {
    ghost use Rattle.row_json.specs.LongLines as Spec;

    ghost Value = { Spec.LongLine };

    ghost view = { λ l. record { parts = l.parts.items; rest = l.rest.items } };
}

impl<'a> LongLine<'a> {
    /// Returns the long texts, in order, each with what stands before it.
    pub fn parts(&self) -> &[LinePart<'a>]
        ensures { result.now ≡ self.now.parts }
    {
        &self.parts
    }

    /// Returns what stands after the last long text; the whole line if there is none.
    pub fn rest(&self) -> &[u8]
        ensures { result.now ≡ self.now.rest }
    {
        &self.rest
    }
}

// Removes the first byte, if there is one.
fn remove_first(text: &mut Vec<u8>)
    ensures { text.new.items ≡ drop 1 text.old.items }
{
    if !text.is_empty() {
        text.remove(0);
    }
}

// A line while it is made: what stands before the texts that stand apart, and what was written after the
// last of them.
#[derive(Drop)]
struct Draft<'a> {
    parts: Vec<LinePart<'a>>,
    out: Writer,
}

impl<'a> Draft<'a> {
    // Returns a draft of nothing.
    fn new(alloc: Global) -> Draft<'a>
        ensures { Holds result.parts.items result.out [] }
    {
        Draft {
            parts: Vec::new(alloc),
            out: Writer::new(Vec::new(alloc)),
        }
    }

    // Takes what was written since the last text, from its closing quote on.
    fn take_written(&mut self, alloc: Global) -> Vec<u8>
        ensures bytes { (ts : List Token) → (h : Holds self.old.parts.items self.old.out ts)
            → result.items ≡ closing self.old.parts.items
            ++ print_from (has_parts self.old.parts.items) h.last }
        ensures printable { (ts : List Token) → (h : Holds self.old.parts.items self.old.out ts)
            → ArePrintableOrBad h.last }
        ensures parts { self.new.parts ≡ self.old.parts }
        ensures before { self.new.out.before ≡ [] }
        ensures tokens { self.new.out.tokens ≡ [] }
    {
        let out = mem::replace(&mut self.out, Writer::new(Vec::new(alloc)));
        let mut written = out.into_inner();
        if !self.parts.is_empty() {
            remove_first(&mut written);
        }
        written
    }

    // Writes a text as a string. Its characters stand apart: what is written has an empty string in their
    // place, which is cut between its quotes.
    fn write_apart(&mut self, alloc: Global, text: LongText<'a>) -> Result<(), AllocError>
        ensures { OnOk result (Goes self.old.parts.items self.old.out self.new.parts.items self.new.out
            (token.string (characters text.entry) ∷ [])) }
    {
        self.out.string("")?;
        let mut before = self.take_written(alloc);
        before.pop();
        self.parts.push(LinePart { before, text })?;
        self.out.string("")
    }

    // Returns the line, and a line's end.
    fn into_line(mut self, alloc: Global) -> Result<LongLine<'a>, AllocError>
        ensures bytes { IfOk result (λ l. (ts : List Token) → Holds self.entry.parts.items self.entry.out ts
            → line_bytes l ≡ print ts ++ codes "\n") }
        ensures printable { OnOk result ((ts : List Token) → Holds self.entry.parts.items self.entry.out ts
            → ArePrintableOrBad ts) }
    {
        let mut rest = self.take_written(alloc);
        rest.push(b'\n')?;
        Ok(LongLine {
            parts: self.parts,
            rest,
        })
    }
}

// Returns whether a text is much longer where its characters are escaped: whether more than an eighth of
// its bytes are control characters, which take six bytes each.
fn grows(bytes: &[u8]) -> bool {
    bytes.iter().filter(|byte| **byte < 0x20).count() > bytes.len() / 8
}

// Returns the text of bytes of a character set if it is to stand apart: if it is long, and longer in its
// line.
fn text_apart(charset: Charset, bytes: &[u8]) -> Option<LongText<'_>>
    ensures { IfSome result (λ t. text_in charset bytes.now ≡ Some (characters t)) }
{
    if bytes.len() < LONG {
        return None;
    }
    if let Charset::Latin1 = charset {
        return Some(LongText { charset, bytes });
    }
    match str_in(charset, bytes) {
        Some(text) if grows(bytes) => Some(LongText {
            charset: Charset::Utf8mb4,
            bytes: text.as_bytes(),
        }),
        _ => None,
    }
}

// Returns the text of a cell if it is to stand apart.
fn cell_apart<'a>(column: &ColumnJson, cell: Option<&LentCell<'a>>) -> Option<LongText<'a>>
    ensures member { IfSome result (λ t. IsMember column.now
        (option_map (λ v. lent_cell v.now) cell.entry)
        ((column.now.name, string (characters t)) ∷ [])) }
    ensures sound { IfSome result (λ _. HasNone
        (IsFaultOfCell parts.Row (option_map (λ v. lent_cell v.now) cell.entry))) }
{
    match (cell, column.kind()) {
        (Some(LentCell::Bytes(bytes)), Kind::Text(charset)) => text_apart(charset, bytes),
        _ => None,
    }
}

// Writes the member of a cell in its row.
fn write_member<'a>(
    alloc: Global,
    text: &mut String,
    draft: &mut Draft<'a>,
    column: &ColumnJson,
    cell: Option<&LentCell<'a>>,
) -> Result<(), Fault>
    ensures written { OnOk result (GoesMembers
        (IsMember column.now (option_map (λ v. lent_cell v.now) cell.entry)) draft.old.parts.items
        draft.old.out draft.new.parts.items draft.new.out) }
    ensures err { IfErr result (λ e. e ≢ Fault.Memory
        → IsFaultOfCell parts.Row (option_map (λ v. lent_cell v.now) cell.entry) e) }
    ensures sound { OnOk result
        (HasNone (IsFaultOfCell parts.Row (option_map (λ v. lent_cell v.now) cell.entry))) }
{
    match cell_apart(column, cell) {
        Some(apart) => {
            column.write_key(&mut draft.out)?;
            draft.write_apart(alloc, apart)?;
            Ok(())
        }
        None => { write_member_of::<true>(alloc, text, &mut draft.out, Part::Row, column, cell) }
    }
}

// Writes the members of the columns that are in the image.
fn write_members<'a>(
    alloc: Global,
    text: &mut String,
    draft: &mut Draft<'a>,
    columns: &[ColumnJson],
    present: &BitView<'_>,
    places: &[usize],
    row: &LentRow<'a>,
) -> Result<(), Fault>
    requires { places.now ≡ set_from 0 present.now }
    ensures written { OnOk result (GoesMembers
        (AreMembers parts.Row columns.now present.now 0 row.now.values) draft.old.parts.items
        draft.old.out draft.new.parts.items draft.new.out) }
    ensures err { IfErr result (λ e. e ≢ Fault.Memory
        → IsFaultOfPart parts.Row columns.now present.now row.now e) }
    ensures sound { OnOk result (HasNone (IsFaultOfPart parts.Row columns.now present.now row.now)) }
{
    for place in 0..places.len() {
        let index = places[place];
        if index >= columns.len() {
            return Ok(());
        }
        write_member(alloc, text, draft, &columns[index], row.as_ref(place))?;
    }
    Ok(())
}

// Writes an image; null if it isn't there.
fn write_image<'a>(
    alloc: Global,
    text: &mut String,
    draft: &mut Draft<'a>,
    table: &TableJson,
    present: &BitView<'_>,
    places: &[usize],
    image: Option<&LentRow<'a>>,
) -> Result<(), Fault>
    requires { places.now ≡ set_from 0 present.now }
    ensures written { OnOk result (GoesOne (IsImageJson table.now present.now
        (option_map (λ r. r.now) image.entry)) draft.old.parts.items
        draft.old.out draft.new.parts.items draft.new.out) }
    ensures err { IfErr result (λ e. e ≢ Fault.Memory → IsFaultOfImage parts.Row table.now present.now
        (option_map (λ r. r.now) image.entry) e) }
    ensures sound { OnOk result (HasNone (IsFaultOfImage parts.Row table.now present.now
        (option_map (λ r. r.now) image.entry))) }
{
    match image {
        None => Ok(draft.out.null()?),
        Some(row) => {
            draft.out.begin_object()?;
            write_members(alloc, text, draft, table.columns(), present, places, row)?;
            draft.out.end_object()?;
            Ok(())
        }
    }
}

// Writes the images and the diffs of a pair, and ends its object.
fn end_pair<'a>(
    alloc: Global,
    text: &mut String,
    columns: &mut ImageColumns,
    draft: &mut Draft<'a>,
    table: &TableJson,
    event: &RowsEvent<'_>,
    pair: &LentPair<'a>,
) -> Result<(), Fault>
    ensures written { OnOk result ((ms : List Named)
        × AreImages table.now event.now pair.now ms × Goes draft.old.parts.items draft.old.out
        draft.new.parts.items draft.new.out (object_end ms)) }
    ensures err { IfErr result (λ e. e ≢ Fault.Memory → IsFaultOfPair table.now event.now pair.now e) }
    ensures sound { OnOk result (HasNone (IsFaultOfPair table.now event.now pair.now)) }
{
    let before = present_in(event.columns_before_image());
    let after = present_in(event.columns_after_image());
    columns.keep(alloc, event, &before, &after)?;
    draft.out.key("before")?;
    write_image(
        alloc,
        text,
        draft,
        table,
        &before,
        columns.places_before(&before),
        pair.before(),
    )?;
    draft.out.key("after")?;
    write_image(
        alloc,
        text,
        draft,
        table,
        &after,
        columns.places_after(&after),
        pair.after(),
    )?;
    write_diffs_of(
        alloc,
        text,
        &mut draft.out,
        table,
        &after,
        columns.places_after(&after),
        pair.after(),
    )?;
    draft.out.end_object()?;
    Ok(())
}

/// Makes the line that `write_line_with` adds, as a line of its own. Texts of 512 bytes and more that
/// would be much longer in it stand apart: those of latin1, and those with many control characters.
///
/// The error is the fault of the first document of JSON that has one, in the order of `write_pair`, or
/// `Memory`.
pub fn long_line_with<'a, M: Members>(
    alloc: Global,
    room: &mut LineRoom,
    table: &TableJson,
    event: &RowsEvent<'_>,
    pair: &LentPair<'a>,
    members: &M,
) -> Result<LongLine<'a>, Fault>
    ensures written { IfOk result (λ l. IsLine table.now event.now (M.members members.now) pair.now
        (line_bytes l)) }
    ensures err { IfErr result (λ e. e ≢ Fault.Memory → IsFaultOfPair table.now event.now pair.now e) }
    ensures sound { OnOk result (HasNone (IsFaultOfPair table.now event.now pair.now)) }
{
    let (text, columns) = room.parts();
    let mut draft = Draft::new(alloc);
    begin_pair(&mut draft.out, pair)?;
    members.write(&mut draft.out)?;
    end_pair(alloc, text, columns, &mut draft, table, event, pair)?;
    Ok(draft.into_line(alloc)?)
}
