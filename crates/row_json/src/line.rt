//! Pairs of rows as lines.

ghost use Rattle.std.specs.Prelude.{◌≡◌, ◌≢◌, ◌≤◌, ◌+◌, ◌*◌, ◌++◌, ℕ, List, [], length, vec_capacity, IfErr, OnOk, OnErr, codes};
ghost use Rattle.json.specs.Lex.{tokens};
ghost use Rattle.json.specs.Print.{print};
ghost use Rattle.binlog_base.specs.declared.fault.Fault.TheVariants as Fault;
ghost use Rattle.row_json.specs.Rows.{IsLine};
ghost use Rattle.row_json.specs.Faults.{HasNone, IsFaultOfPair};

use crate::images::Images;
use crate::members::{Members, NoMembers};
use crate::pair::write_images;
use crate::present::ImageColumns;
use crate::table::TableJson;
use binlog_base::fault::Fault;
use json_line::Writer;
use mysql_binlog_rows::rows_event::{LentPair, RowPair, RowsEvent};
use std::alloc::{AllocError, Global};
use std::mem;

/// From how many bytes on a line isn't copied, if it is no shorter than the lines before it.
const LONG: usize = 64 * 1024;

/// Room in which lines are made, kept from line to line. It takes no memory until it is used, and
/// grows to the longest line. A line of 64 KiB or more goes to the lines with its memory, and the room
/// keeps that of the lines before it.
#[derive(Drop)]
pub struct LineRoom {
    /// Room for the texts of values.
    text: String,
    /// The columns of the images of the last line.
    columns: ImageColumns,
    /// The line.
    out: Writer,
}

impl LineRoom {
    /// Makes an empty room.
    pub fn new(alloc: Global) -> LineRoom {
        LineRoom {
            text: String::new(alloc),
            columns: ImageColumns::new(alloc),
            out: Writer::new(Vec::new(alloc)),
        }
    }

    /// Returns the room for the texts of values, and the columns of the images of the last line.
    pub(crate) fn parts(&mut self) -> (&mut String, &mut ImageColumns) {
        (&mut self.text, &mut self.columns)
    }
}

// Adds the line that was written and a line's end to the lines, without a copy of the line: the lines are
// put behind it and turned to its front, and the buffers change places.
#[cold]
#[inline(never)]
fn add_long(alloc: Global, out: &mut Writer, lines: &mut Vec<u8>) -> Result<(), AllocError>
    ensures added { OnOk result (lines.new.items
        ≡ lines.old.items ++ ((out.old.before ++ print out.old.tokens) ++ codes "\n")) }
    ensures kept { OnErr result (lines.new.items ≡ lines.old.items) }
    ensures given { OnOk result (out.new.capacity ≡ vec_capacity lines.old) }
{
    let mut line = mem::replace(out, Writer::new(Vec::new(alloc))).into_inner();
    line.push(b'\n')?;
    let len = line.len();
    line.extend_from_slice(lines)?;
    line.rotate_left(len);
    mem::swap(lines, &mut line);
    line.clear();
    *out = Writer::new(line);
    Ok(())
}

// Adds the line that was written and a line's end to the lines. A long line isn't copied, if the lines
// before it are no longer: the buffers change places.
fn add_to(alloc: Global, out: &mut Writer, lines: &mut Vec<u8>) -> Result<(), AllocError>
    ensures added { OnOk result (lines.new.items
        ≡ lines.old.items ++ ((out.old.before ++ print out.old.tokens) ++ codes "\n")) }
    ensures kept { OnErr result (lines.new.items ≡ lines.old.items) }
    ensures given { OnOk result (64 * 1024 ≤ length (out.old.before ++ print out.old.tokens) + 1
        → length lines.old.items ≤ length (out.old.before ++ print out.old.tokens) + 1
        → out.new.capacity ≡ vec_capacity lines.old) }
    ensures reads_back { tokens (print out.old.tokens) ≡ out.old.tokens }
{
    let line = out.as_bytes();
    let len = line.len() + 1;
    let before = lines.len();
    if len >= LONG && len >= before {
        return add_long(alloc, out, lines);
    }
    lines.extend_from_slice(line)?;
    if lines.push(b'\n').is_err() {
        lines.truncate(before);
        return Err(AllocError);
    }
    Ok(())
}

// Adds the line of a pair of rows of either kind, with the members of a caller.
fn add_line<P: Images, M: Members>(
    alloc: Global,
    room: &mut LineRoom,
    lines: &mut Vec<u8>,
    table: &TableJson,
    event: &RowsEvent<'_>,
    pair: &P,
    members: &M,
) -> Result<(), Fault>
    ensures written { OnOk result ((line : List ℕ)
        × IsLine table.now event.now (M.members members.now) (P.pair pair.now) line
        × (lines.new.items ≡ lines.old.items ++ line)) }
    ensures kept { OnErr result (lines.new.items ≡ lines.old.items) }
    ensures err { IfErr result (λ e. e ≢ Fault.Memory
        → IsFaultOfPair table.now event.now (P.pair pair.now) e) }
    ensures sound { OnOk result (HasNone (IsFaultOfPair table.now event.now (P.pair pair.now))) }
{
    let LineRoom { text, columns, out } = room;
    out.restart();
    write_images(alloc, text, columns, out, table, event, pair, members)?;
    add_to(alloc, out, lines)?;
    Ok(())
}

/// Adds a pair of rows to the end of `lines`, as a line: the object that `write_pair` writes, and a
/// line's end.
///
/// `room` is kept from call to call: once it and `lines` have grown, a line takes memory only for
/// documents of JSON and for diffs. A line of 64 KiB or more, if the lines before it are no longer,
/// isn't copied: `lines` is then another buffer, and `room` keeps the one that it was.
///
/// The error is the fault of the first document of JSON that has one, in the order of `write_pair`, or
/// `Memory`. Then `lines` holds what it held.
pub fn write_line(
    alloc: Global,
    room: &mut LineRoom,
    lines: &mut Vec<u8>,
    table: &TableJson,
    event: &RowsEvent<'_>,
    pair: &LentPair<'_>,
) -> Result<(), Fault>
    ensures written { OnOk result ((line : List ℕ)
        × IsLine table.now event.now [] pair.now line
        × (lines.new.items ≡ lines.old.items ++ line)) }
    ensures kept { OnErr result (lines.new.items ≡ lines.old.items) }
    ensures err { IfErr result (λ e. e ≢ Fault.Memory → IsFaultOfPair table.now event.now pair.now e) }
    ensures sound { OnOk result (HasNone (IsFaultOfPair table.now event.now pair.now)) }
{
    write_line_with(alloc, room, lines, table, event, pair, &NoMembers)
}

/// Adds a pair of rows to the end of `lines`, as `write_line` does, with the members of the caller's
/// between `op` and `before`.
pub fn write_line_with<M: Members>(
    alloc: Global,
    room: &mut LineRoom,
    lines: &mut Vec<u8>,
    table: &TableJson,
    event: &RowsEvent<'_>,
    pair: &LentPair<'_>,
    members: &M,
) -> Result<(), Fault>
    ensures written { OnOk result ((line : List ℕ)
        × IsLine table.now event.now (M.members members.now) pair.now line
        × (lines.new.items ≡ lines.old.items ++ line)) }
    ensures kept { OnErr result (lines.new.items ≡ lines.old.items) }
    ensures err { IfErr result (λ e. e ≢ Fault.Memory → IsFaultOfPair table.now event.now pair.now e) }
    ensures sound { OnOk result (HasNone (IsFaultOfPair table.now event.now pair.now)) }
{
    add_line(alloc, room, lines, table, event, pair, members)
}

/// Adds a pair of rows that own their values to the end of `lines`, as `write_line` adds one whose
/// cells are lent.
///
/// The error is the fault of the first document of JSON that has one, in the order of `write_pair`, or
/// `Memory`. Then `lines` holds what it held.
pub fn write_owned_line(
    alloc: Global,
    room: &mut LineRoom,
    lines: &mut Vec<u8>,
    table: &TableJson,
    event: &RowsEvent<'_>,
    pair: &RowPair,
) -> Result<(), Fault>
    ensures written { OnOk result ((line : List ℕ)
        × IsLine table.now event.now [] pair.now line
        × (lines.new.items ≡ lines.old.items ++ line)) }
    ensures kept { OnErr result (lines.new.items ≡ lines.old.items) }
    ensures err { IfErr result (λ e. e ≢ Fault.Memory → IsFaultOfPair table.now event.now pair.now e) }
    ensures sound { OnOk result (HasNone (IsFaultOfPair table.now event.now pair.now)) }
{
    add_line(alloc, room, lines, table, event, pair, &NoMembers)
}
