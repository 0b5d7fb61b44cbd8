//! Documents of binary JSON, and their diffs, as JSON.
#![tactic(auto, using(crate::proofs::Steps::stays))]

ghost use Rattle.std.specs.Prelude.{◌≡◌, ◌≢◌, true, false, List, [], OnOk, IfOk, IfErr, ◌++◌};
ghost use Rattle.std.specs.String.{string_bytes};
ghost use Rattle.std.specs.List.{flat_map};
ghost use Rattle.std.specs.Option.{option_map};
ghost use Rattle.binlog_base.specs.Items.{result_map};
ghost use Rattle.binlog_values.specs.JsonbElements.{elem_in};
ghost use Rattle.std.specs.Str.Lossy.{utf8_lossy};
ghost use Rattle.json.specs.Json.{string as json_string};
ghost use Rattle.json.specs.Tree.{json_tokens};
ghost use Rattle.binlog_base.specs.declared.fault.Fault.TheVariants as Fault;
ghost use Rattle.binlog_values.specs.JsonbContainers.{IsScalar};
ghost use Rattle.binlog_values.specs.JsonbDoms.{number_view, scalar_view, dom_view};
ghost use Rattle.binlog_values.specs.JsonbTrees.{TreeScalar, plain, node, no_members, merged_into};
ghost use Rattle.binlog_values.specs.JsonbViews.{view_of};
ghost use Rattle.row_json.specs.Faults.{HasNone, IsFaultOf, IsFaultOfValue, IsFaultOfDiffs};
ghost use Rattle.row_json.specs.Wrote.{Wrote, Adds, Named, named_tokens, AddsSome};
ghost use Rattle.row_json.specs.Workings.Walked.{OfValue, OfElement, OfEntries, OfKey, OfIndexed, Indexes, AreIndexed, WroteTree, WroteItems, WroteIndexed, IsMemory};
ghost use Rattle.row_json.specs.Documents.{decimals_of, moment_text, IsScalarJson, IsDocumentJson, operation_name, place_tokens, IsDiffValue, IsDiffJson, IsDiffsJson};

use crate::float::write_double;
use crate::text::write_number_or_string;
use crate::time::{Clock, Day, TimeText};
use binlog_base::fault::Fault;
use binlog_values::jsonb::{JsonDom, JsonNumber, JsonScalar, JsonbString, ObjectKey, Value};
use binlog_values::jsondiff::{JsonDiff, JsonDiffOperation};
use binlog_values::time::{MysqlTime, MysqlTimestampType};
use json_line::Writer;
use mysql_binlog_rows::value::{LentDiffs, LentJson};
use std::alloc::{AllocError, Global};
use std::collections::BTreeMap;
use std::fmt::Write;

fn write_number(text: &mut String, out: &mut Writer, number: &JsonNumber) -> Result<(), AllocError>
    ensures written { OnOk result (Wrote (IsScalarJson (number_view number.now)) out.old out.new) }
    ensures stays { AddsSome out.old out.new }
{
    match number {
        JsonNumber::Decimal(decimal) => {
            text.clear();
            match write!(text, "{decimal}") {
                Ok(()) => write_number_or_string(out, text.as_str()),
                Err(_) => Err(AllocError),
            }
        }
        JsonNumber::Double(bits) => write_double(out, *bits),
        JsonNumber::Int(number) => out.i64(*number),
        JsonNumber::Uint(number) => out.u64(*number),
    }
}

// Returns how many decimals a time has: six if it has a fraction, else none.
fn decimals_of(time: &MysqlTime) -> u8
    ensures { result ≡ decimals_of time.now }
{
    if time.second_part == 0 { 0 } else { 6 }
}

// Makes the text of a date or time.
fn push_moment(text: &mut TimeText, time: &MysqlTime)
    requires { text.old ≡ [] }
    ensures { text.new ≡ moment_text time.now.time_type time.now }
{
    let day = Day {
        year: time.year,
        month: time.month,
        day: time.day,
    };
    let clock = Clock {
        hours: u64::from(time.hour),
        minutes: time.minute,
        seconds: time.second,
        microseconds: time.second_part,
    };
    let decimals = decimals_of(time);
    match time.time_type {
        MysqlTimestampType::MYSQL_TIMESTAMP_DATE => text.push_date(day),
        MysqlTimestampType::MYSQL_TIMESTAMP_DATETIME => {
            text.push_datetime(decimals, day, b' ', clock);
        }
        MysqlTimestampType::MYSQL_TIMESTAMP_TIME => text.push_time(decimals, time.neg, clock),
        _ => {}
    }
}

// Writes a date or time. Not inlined, so that other values need no room for its text.
#[inline(never)]
fn write_moment(out: &mut Writer, time: &MysqlTime) -> Result<(), AllocError>
    ensures written { OnOk result (Adds out.old out.new
        (json_tokens (json_string (moment_text time.now.time_type time.now)))) }
    ensures stays { AddsSome out.old out.new }
{
    let mut text = TimeText::new();
    push_moment(&mut text, time);
    out.string(text.as_str())
}

fn write_scalar(text: &mut String, out: &mut Writer, scalar: &JsonScalar) -> Result<(), AllocError>
    ensures written { OnOk result (Wrote (IsScalarJson (scalar_view scalar.now)) out.old out.new) }
    ensures stays { AddsSome out.old out.new }
{
    match scalar {
        JsonScalar::Null => out.null(),
        JsonScalar::Boolean(value) => out.boolean(*value),
        JsonScalar::Number(number) => write_number(text, out, number),
        JsonScalar::String(string) => out.string(string.as_str()),
        JsonScalar::DateTime(time) => write_moment(out, time),
        JsonScalar::Opaque(value) => {
            text.clear();
            value.write_text(text)?;
            out.string(text.as_str())
        }
    }
}

// Writes a string, with `U+FFFD` in place of what isn't UTF-8.
fn write_string(alloc: Global, out: &mut Writer, string: &JsonbString<'_>) -> Result<(), AllocError>
    ensures written { OnOk result (Wrote (λ j. j ≡ json_string (utf8_lossy string.now))
        out.old out.new) }
    ensures stays { AddsSome out.old out.new }
{
    let string = string.str(alloc)?;
    out.string(string.as_str())
}

// Writes the tree of a scalar.
fn write_leaf(text: &mut String, out: &mut Writer, tree: &JsonDom) -> Result<(), AllocError>
    ensures written { OnOk result ((s : TreeScalar) → dom_view tree.now ≡ plain s
        → Wrote (IsScalarJson s) out.old out.new) }
    ensures stays { AddsSome out.old out.new }
{
    match tree {
        JsonDom::Scalar(scalar) => write_scalar(text, out, scalar),
        JsonDom::Container(_) => Ok(()),
    }
}

// Writes an opaque value by its tree.
fn write_opaque(
    alloc: Global,
    text: &mut String,
    out: &mut Writer,
    value: &Value<'_>,
) -> Result<(), Fault>
    requires { IsScalar (view_of value.now) }
    ensures written { OnOk result (OfValue (view_of value.now) (WroteTree out.old out.new)) }
    ensures memory { IfErr result (λ f. OfValue (view_of value.now) (λ t. IsMemory f)) }
    ensures stays { AddsSome out.old out.new }
{
    let tree = value.lent().parse(alloc)?;
    Ok(write_leaf(text, out, &tree)?)
}

// Writes a value that is no container. Most are literals, numbers and strings, which need no tree.
fn write_single(
    alloc: Global,
    text: &mut String,
    out: &mut Writer,
    value: &Value<'_>,
) -> Result<(), Fault>
    requires { IsScalar (view_of value.now) }
    ensures written { OnOk result (OfValue (view_of value.now) (WroteTree out.old out.new)) }
    ensures memory { IfErr result (λ f. OfValue (view_of value.now) (λ t. IsMemory f)) }
    ensures stays { AddsSome out.old out.new }
{
    match value {
        Value::Null => Ok(out.null()?),
        Value::Bool(value) => Ok(out.boolean(*value)?),
        Value::I16(number) => Ok(out.i64(i64::from(*number))?),
        Value::U16(number) => Ok(out.u64(u64::from(*number))?),
        Value::I32(number) => Ok(out.i64(i64::from(*number))?),
        Value::U32(number) => Ok(out.u64(u64::from(*number))?),
        Value::I64(number) => Ok(out.i64(*number)?),
        Value::U64(number) => Ok(out.u64(*number)?),
        Value::F64(bits) => Ok(write_double(out, *bits)?),
        Value::String(string) => Ok(write_string(alloc, out, string)?),
        _ => write_opaque(alloc, text, out, value),
    }
}

// Writes a value. Where it denotes no tree, nothing is promised.
#[cycle(write_value)]
fn write_value(
    alloc: Global,
    text: &mut String,
    out: &mut Writer,
    value: &Value<'_>,
) -> Result<(), Fault>
    ensures written { OnOk result (OfValue (view_of value.now) (WroteTree out.old out.new)) }
    ensures memory { IfErr result (λ f. OfValue (view_of value.now) (λ t. IsMemory f)) }
    ensures stays { AddsSome out.old out.new }
{
    match value.element_count() {
        None => write_single(alloc, text, out, value),
        Some(count) => {
            if value.is_array() {
                write_array(alloc, text, out, value, count)
            } else {
                write_object(alloc, text, out, value, count)
            }
        }
    }
}

#[cycle(write_value)]
fn write_array(
    alloc: Global,
    text: &mut String,
    out: &mut Writer,
    array: &Value<'_>,
    count: u32,
) -> Result<(), Fault>
    ensures written { OnOk result (OfEntries (view_of array.now) count
        (λ c bs. c.is_array ≡ true → WroteTree out.old out.new (node true bs))) }
    ensures memory { IfErr result (λ f. OfEntries (view_of array.now) count (λ c bs. IsMemory f)) }
    ensures stays { AddsSome out.old out.new }
{
    out.begin_array()?;
    write_items(alloc, text, out, array, count)?;
    Ok(out.end_array()?)
}

#[cycle(write_value)]
fn write_items(
    alloc: Global,
    text: &mut String,
    out: &mut Writer,
    array: &Value<'_>,
    count: u32,
) -> Result<(), Fault>
    ensures written { OnOk result (OfEntries (view_of array.now) count
        (λ c bs. WroteItems out.old out.new bs)) }
    ensures memory { IfErr result (λ f. OfEntries (view_of array.now) count (λ c bs. IsMemory f)) }
    ensures stays { AddsSome out.old out.new }
{
    let mut pos = 0;
    while pos < count {
        write_element(alloc, text, out, array, pos)?;
        pos += 1;
    }
    Ok(())
}

// Keeps an index under a key.
fn keep(
    alloc: Global,
    members: &mut BTreeMap<String, u32>,
    key: &ObjectKey<'_>,
    pos: u32,
) -> Result<(), Fault>
    ensures kept { OnOk result (Indexes members.old.entries members.new.entries pos key.now) }
    ensures memory { IfErr result IsMemory }
{
    let text = key.value(alloc)?;
    let name = text.into_owned(alloc)?;
    drop(members.insert(name, pos)?);
    Ok(())
}

// Keeps the index of an entry under its key.
fn keep_entry(
    alloc: Global,
    members: &mut BTreeMap<String, u32>,
    object: &Value<'_>,
    pos: u32,
) -> Result<(), Fault>
    ensures kept { OnOk result (OfKey (view_of object.now) pos
        (Indexes members.old.entries members.new.entries pos)) }
    ensures memory { IfErr result (λ f. OfKey (view_of object.now) pos (λ key. IsMemory f)) }
{
    match LentJson::of(object).key_at(pos)? {
        Some(key) => keep(alloc, members, &key, pos),
        None => Ok(()),
    }
}

// Returns the members of an object: for each key the index of its value, of equal keys the last one.
fn members_of(alloc: Global, object: &Value<'_>, count: u32) -> Result<BTreeMap<String, u32>, Fault>
    ensures kept { IfOk result (λ members. OfEntries (view_of object.now) count
        (λ c bs. c.is_array ≡ false → AreIndexed c members.entries (merged_into no_members bs))) }
    ensures memory { IfErr result (λ f. OfEntries (view_of object.now) count
        (λ c bs. c.is_array ≡ false → IsMemory f)) }
{
    let mut members = BTreeMap::new(alloc);
    let mut pos = 0;
    while pos < count {
        keep_entry(alloc, &mut members, object, pos)?;
        pos += 1;
    }
    Ok(members)
}

#[cycle(write_value)]
fn write_object(
    alloc: Global,
    text: &mut String,
    out: &mut Writer,
    object: &Value<'_>,
    count: u32,
) -> Result<(), Fault>
    ensures written { OnOk result (OfEntries (view_of object.now) count
        (λ c bs. c.is_array ≡ false → WroteTree out.old out.new (node false bs))) }
    ensures memory { IfErr result (λ f. OfEntries (view_of object.now) count
        (λ c bs. c.is_array ≡ false → IsMemory f)) }
    ensures stays { AddsSome out.old out.new }
{
    let members = members_of(alloc, object, count)?;
    out.begin_object()?;
    write_members(alloc, text, out, object, &members)?;
    Ok(out.end_object()?)
}

#[cycle(write_value)]
fn write_members(
    alloc: Global,
    text: &mut String,
    out: &mut Writer,
    object: &Value<'_>,
    members: &BTreeMap<String, u32>,
) -> Result<(), Fault>
    ensures written { OnOk result (OfIndexed (view_of object.now) members.now.entries
        (WroteIndexed out.old out.new)) }
    ensures memory { IfErr result (λ f. OfIndexed (view_of object.now) members.now.entries
        (λ ms. IsMemory f)) }
    ensures stays { AddsSome out.old out.new }
{
    for (name, pos) in members.iter() {
        out.key(name.as_str())?;
        write_element(alloc, text, out, object, *pos)?;
    }
    Ok(())
}

// Returns an element of a container; `None` where there is none.
fn element_of<'a>(container: &'a Value<'_>, pos: u32) -> Result<Option<Value<'a>>, Fault>
    ensures { result_map (option_map view_of) result ≡ elem_in (view_of container.now) pos }
{
    match container {
        Value::SmallArray(array) => array.elem_at(pos),
        Value::LargeArray(array) => array.elem_at(pos),
        Value::SmallObject(object) => object.elem_at(pos),
        Value::LargeObject(object) => object.elem_at(pos),
        _ => Ok(None),
    }
}

// Writes an element of a container; nothing, if there is none.
#[cycle(write_value)]
fn write_element(
    alloc: Global,
    text: &mut String,
    out: &mut Writer,
    container: &Value<'_>,
    pos: u32,
) -> Result<(), Fault>
    ensures written { OnOk result (OfElement (view_of container.now) pos
        (WroteTree out.old out.new)) }
    ensures memory { IfErr result (λ f. OfElement (view_of container.now) pos (λ t. IsMemory f)) }
    ensures stays { AddsSome out.old out.new }
{
    match element_of(container, pos)? {
        Some(element) => write_value(alloc, text, out, &element),
        None => Ok(()),
    }
}

/// Checks a document, and then writes it from its bytes. In memory are the keys of the objects around
/// the place that is written, each with an index, and one scalar.
pub(crate) fn write_document(
    alloc: Global,
    text: &mut String,
    out: &mut Writer,
    document: &Value<'_>,
) -> Result<(), Fault>
    ensures written { OnOk result (Wrote (IsDocumentJson (view_of document.now)) out.old out.new) }
    ensures err { IfErr result (λ e. e ≢ Fault.Memory → IsFaultOf (view_of document.now) e) }
    ensures sound { OnOk result (HasNone (IsFaultOf (view_of document.now))) }
    ensures stays { AddsSome out.old out.new }
{
    document.check(alloc)?;
    write_value(alloc, text, out, document)
}

fn operation_name(operation: JsonDiffOperation) -> &'static str
    ensures { result.now ≡ operation_name operation }
{
    match operation {
        JsonDiffOperation::REPLACE => "replace",
        JsonDiffOperation::INSERT => "insert",
        JsonDiffOperation::REMOVE => "remove",
    }
}

// Writes the members `op` and `path`.
fn write_place(alloc: Global, out: &mut Writer, diff: &JsonDiff<'_>) -> Result<(), AllocError>
    ensures written { OnOk result (Adds out.old out.new (place_tokens diff.now)) }
    ensures stays { AddsSome out.old out.new }
{
    out.key("op")?;
    out.string(operation_name(diff.operation()))?;
    out.key("path")?;
    let path = diff.path_str(alloc)?;
    out.string(path.as_str())?;
    Ok(())
}

// Writes the member `value`, if there is a value.
fn write_diff_value(
    alloc: Global,
    text: &mut String,
    out: &mut Writer,
    diff: &JsonDiff<'_>,
) -> Result<(), Fault>
    ensures written { OnOk result ((ms : List Named) × IsDiffValue diff.now.value ms
        × Adds out.old out.new (flat_map named_tokens ms)) }
    ensures err { IfErr result (λ e. e ≢ Fault.Memory → IsFaultOfValue diff.now.value e) }
    ensures sound { OnOk result (HasNone (IsFaultOfValue diff.now.value)) }
    ensures stays { AddsSome out.old out.new }
{
    match diff.value() {
        None => Ok(()),
        Some(value) => {
            out.key("value")?;
            write_document(alloc, text, out, value)?;
            Ok(())
        }
    }
}

fn write_diff(
    alloc: Global,
    text: &mut String,
    out: &mut Writer,
    diff: &JsonDiff<'_>,
) -> Result<(), Fault>
    ensures written { OnOk result (Wrote (IsDiffJson diff.now) out.old out.new) }
    ensures err { IfErr result (λ e. e ≢ Fault.Memory → IsFaultOfValue diff.now.value e) }
    ensures sound { OnOk result (HasNone (IsFaultOfValue diff.now.value)) }
    ensures stays { AddsSome out.old out.new }
{
    out.begin_object()?;
    write_place(alloc, out, diff)?;
    write_diff_value(alloc, text, out, diff)?;
    out.end_object()?;
    Ok(())
}

// Writes the diffs of a document as an array.
fn write_diffs(
    alloc: Global,
    text: &mut String,
    out: &mut Writer,
    diffs: &[JsonDiff<'_>],
) -> Result<(), Fault>
    ensures written { OnOk result (Wrote (IsDiffsJson diffs.now) out.old out.new) }
    ensures err { IfErr result (λ e. e ≢ Fault.Memory → IsFaultOfDiffs diffs.now e) }
    ensures sound { OnOk result (HasNone (IsFaultOfDiffs diffs.now)) }
    ensures stays { AddsSome out.old out.new }
{
    out.begin_array()?;
    for diff in diffs {
        write_diff(alloc, text, out, diff)?;
    }
    out.end_array()?;
    Ok(())
}

/// Writes the diffs of a document as an array.
pub(crate) fn write_lent_diffs(
    alloc: Global,
    text: &mut String,
    out: &mut Writer,
    diffs: &LentDiffs<'_>,
) -> Result<(), Fault>
    ensures written { OnOk result (Wrote (IsDiffsJson diffs.now) out.old out.new) }
    ensures err { IfErr result (λ e. e ≢ Fault.Memory → IsFaultOfDiffs diffs.now e) }
    ensures sound { OnOk result (HasNone (IsFaultOfDiffs diffs.now)) }
    ensures stays { AddsSome out.old out.new }
{
    let diffs = diffs.list(alloc)?;
    write_diffs(alloc, text, out, &diffs)
}
