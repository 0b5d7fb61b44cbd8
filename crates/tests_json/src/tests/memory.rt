//! What calls answer if memory is refused.
//!
//! scripts/memory.sh refuses each request for memory of these tests in turn. A test ends with the
//! error of the call that was refused memory; if none was, it asserts the answer. The tests whose
//! names begin with `nothing` ask for no more memory than the test program itself does.

ghost use Rattle.std.specs.Prelude.{◌≤◌};

use super::long::{self, CASES};
use super::trees::{self, OBJECT};
use super::{Case, DOCUMENTS, NAMES, PARTIAL, TEXTS, TIMES, are_json, are_pairs, read};
use binlog_base::below::ParseBuf;
use binlog_base::fault::Fault;
use binlog_consts::consts::EventType;
use binlog_table::table_map::TableMapEvent;
use binlog_values::jsonb::{JsonDom, Value};
use json_line::{Piece, Writer};
use mysql_binlog_rows::rows_event::{LentPair, RowsEvent};
use row_json::{LineRoom, TableJson, write_line};
use std::alloc::{AllocError, Global};
use std::test::Fail;

#[test]
fn nothing_for_rooms(rt: HostRuntime) {
    let _room = LineRoom::new(rt.alloc());
}

#[test]
fn value_names(rt: HostRuntime) -> Result<(), Fail> {
    assert!(rt; are_json(rt.alloc(), NAMES)?);
    Ok(())
}

#[test]
fn texts(rt: HostRuntime) -> Result<(), Fail> {
    assert!(rt; are_json(rt.alloc(), TEXTS)?);
    Ok(())
}

#[test]
fn documents(rt: HostRuntime) -> Result<(), Fail> {
    assert!(rt; are_json(rt.alloc(), DOCUMENTS)?);
    Ok(())
}

#[test]
fn diffs(rt: HostRuntime) -> Result<(), Fail> {
    assert!(rt; are_pairs(rt.alloc(), PARTIAL, EventType::PARTIAL_UPDATE_ROWS_EVENT)?);
    Ok(())
}

/// Returns whether the first pair of an event is written, so many times over, each time to emptied
/// lines.
fn writes_first(
    alloc: Global,
    table: &TableMapEvent<'_>,
    event: &RowsEvent<'_>,
    times: usize,
) -> Result<bool, Fault> {
    let columns = TableJson::new(alloc, table)?;
    let mut rows = event.rows(alloc, table);
    let mut pair = LentPair::new(alloc);
    match rows.next_lent(&mut pair) {
        None => return Ok(false),
        Some(read) => read?,
    }
    let mut room = LineRoom::new(alloc);
    let mut lines = Vec::new(alloc);
    for _ in 0..times {
        lines.clear();
        write_line(alloc, &mut room, &mut lines, &columns, event, &pair)?;
    }
    Ok(!lines.is_empty())
}

/// Returns whether the first pair of a case is written, so many times over.
fn is_written(alloc: Global, case: Case, times: usize) -> Result<bool, Fault> {
    let table: TableMapEvent<'_> = ParseBuf(case.0).parse(8)?;
    let event = read(case.1, EventType::WRITE_ROWS_EVENT)?;
    writes_first(alloc, &table, &event, times)
}

#[test]
fn line(rt: HostRuntime) -> Result<(), Fail> {
    assert!(rt; is_written(rt.alloc(), TIMES[2], 1)?);
    Ok(())
}

#[test]
fn three_lines(rt: HostRuntime) -> Result<(), Fail> {
    assert!(rt; is_written(rt.alloc(), TIMES[2], 3)?);
    Ok(())
}

#[test]
fn long_texts(rt: HostRuntime) -> Result<(), Fail> {
    assert!(rt; long::is_right(rt.alloc(), &CASES[0])?);
    Ok(())
}

/// Returns whether a key that needs escapes is written by a piece of it.
fn is_key_written(alloc: Global) -> Result<bool, AllocError> {
    let key = Piece::of_key(alloc, "a\"\n")?;
    let mut out = Writer::new(Vec::new(alloc));
    out.begin_object()?;
    out.append(&key)?;
    out.null()?;
    out.end_object()?;
    Ok(out.as_bytes() == b"{\"a\\\"\\n\":null}".as_slice())
}

#[test]
fn pieces(rt: HostRuntime) -> Result<(), Fail> {
    assert!(rt; is_key_written(rt.alloc())?);
    Ok(())
}

/// Returns whether the bytes are refused as a tree with this fault.
fn has_no_tree(alloc: Global, bytes: &[u8], fault: Fault) -> Result<bool, Fault> {
    let value: Value<'_> = ParseBuf(bytes).parse(())?;
    match value.parse(alloc) {
        Ok(_) => Ok(false),
        Err(Fault::Memory) => Err(Fault::Memory),
        Err(other) => Ok(other == fault),
    }
}

/// Returns whether the bytes are a tree of `count` values.
fn has_tree(alloc: Global, bytes: &[u8], count: u64) -> Result<bool, Fault> {
    let value: Value<'_> = ParseBuf(bytes).parse(())?;
    let (dom, read) = value.parse_counted(alloc);
    let dom = dom?;
    Ok(matches!(dom, JsonDom::Container(_)) && read == count)
}

/// Returns whether nested arrays are a tree of `count` values.
fn nest(alloc: Global, depth: u16, entries: u8, count: u64) -> Result<bool, Fault>
    requires some { 1 ≤ depth }
    requires depth { depth ≤ 200 }
    requires entries { entries ≤ 2 }
{
    has_tree(alloc, &trees::nested(alloc, depth, entries)?, count)
}

/// Returns whether nested arrays are refused as a tree with this fault.
fn nest_too_much(alloc: Global, depth: u16, entries: u8, fault: Fault) -> Result<bool, Fault>
    requires some { 1 ≤ depth }
    requires depth { depth ≤ 200 }
    requires entries { entries ≤ 2 }
{
    has_no_tree(alloc, &trees::nested(alloc, depth, entries)?, fault)
}

#[test]
fn trees_of_documents(rt: HostRuntime) -> Result<(), Fail> {
    let alloc = rt.alloc();
    assert!(rt;
        has_tree(alloc, trees::OVERLAPPING, 2)?
            && nest(alloc, 3, 2, 6)?
            && nest_too_much(alloc, 4, 2, Fault::TooManyValues)?
    );
    Ok(())
}

#[test]
fn deep_trees(rt: HostRuntime) -> Result<(), Fail> {
    let alloc = rt.alloc();
    assert!(rt; nest(alloc, 100, 1, 99)? && nest_too_much(alloc, 101, 1, Fault::NestingTooDeep)?);
    Ok(())
}

/// Returns whether a tree has an equal copy.
fn has_tree_copy(alloc: Global, dom: &JsonDom) -> Result<bool, AllocError> {
    Ok(dom.clone(alloc)? == *dom)
}

#[test]
fn copies_of_trees(rt: HostRuntime) -> Result<(), Fail> {
    for bytes in [trees::OVERLAPPING, OBJECT] {
        let value: Value<'_> = ParseBuf(bytes).parse(())?;
        assert!(rt; has_tree_copy(rt.alloc(), &value.parse(rt.alloc())?)?);
    }
    Ok(())
}
