//! Tests of names as text.

use row_lines::laws::{quoted_names_tell_names, shown_names_tell_names};
use row_lines::name::{quoted_name, quoted_table, shown_name, shown_table};
use std::alloc::{AllocError, Global};
use std::test::Fail;

/// Names, each with its text without backquotes and with them.
const NAMES: [(&[u8], &str, &str); 30] = [
    // What stands as it is, and what only needs backquotes.
    (b"", "", ""),
    (b"items_2$@Z", "items_2$@Z", "items_2$@Z"),
    (b"a b", "a b", "`a b`"),
    (b"a.b", "a.b", "`a.b`"),
    (b"a=1, b", "a=1, b", "`a=1, b`"),
    (b"~", "~", "`~`"),
    (b"a`b``", "a`b``", "`a``b`````"),
    // Escapes with a letter.
    (b"a\tb", "a\\tb", "`a\\tb`"),
    (b"a\nb", "a\\nb", "`a\\nb`"),
    (b"a\rb", "a\\rb", "`a\\rb`"),
    (b"a\\nb", "a\\\\nb", "`a\\\\nb`"),
    // C0, DEL and C1, their neighbours too.
    (b"\x00", "\\x00", "`\\x00`"),
    (
        b"\x08\x0b\x0c\x0e",
        "\\x08\\x0b\\x0c\\x0e",
        "`\\x08\\x0b\\x0c\\x0e`",
    ),
    (b"\x1b[2J\x1f ", "\\x1b[2J\\x1f ", "`\\x1b[2J\\x1f `"),
    (b"~\x7f", "~\\x7f", "`~\\x7f`"),
    (b"\xc2\x80", "\\x80", "\\x80"),
    (b"\xc2\x85\xc2\x9f", "\\x85\\x9f", "\\x85\\x9f"),
    (b"\xc2\xa0", "\u{a0}", "\u{a0}"),
    // The separators, and what changes the direction of writing, with their neighbours.
    (b"\xe2\x80\xa7", "\u{2027}", "\u{2027}"),
    (
        b"\xe2\x80\xa8\xe2\x80\xa9",
        "\\u2028\\u2029",
        "\\u2028\\u2029",
    ),
    (
        b"\xe2\x80\xaa\xe2\x80\xab",
        "\\u202a\\u202b",
        "\\u202a\\u202b",
    ),
    (
        b"\xe2\x80\xac\xe2\x80\xad",
        "\\u202c\\u202d",
        "\\u202c\\u202d",
    ),
    (
        b"\xe2\x80\xae\xe2\x80\xaf",
        "\\u202e\u{202f}",
        "\\u202e\u{202f}",
    ),
    (
        b"\xe2\x81\xa5\xe2\x81\xa6",
        "\u{2065}\\u2066",
        "\u{2065}\\u2066",
    ),
    (
        b"\xe2\x81\xa7\xe2\x81\xa8",
        "\\u2067\\u2068",
        "\\u2067\\u2068",
    ),
    (
        b"\xe2\x81\xa9\xe2\x81\xaa",
        "\\u2069\u{206a}",
        "\\u2069\u{206a}",
    ),
    // Other letters, and what isn't UTF-8.
    (b"na\xc3\xafve", "na\u{ef}ve", "na\u{ef}ve"),
    (
        b"\xe8\xa1\xa8 \xf0\x9f\x8d\x8e",
        "\u{8868} \u{1f34e}",
        "`\u{8868} \u{1f34e}`",
    ),
    (b"a\xffb", "a\u{fffd}b", "a\u{fffd}b"),
    (
        b"\xe2\x80 \xed\xa0\x80",
        "\u{fffd} \u{fffd}\u{fffd}\u{fffd}",
        "`\u{fffd} \u{fffd}\u{fffd}\u{fffd}`",
    ),
];

/// Returns whether a name has these texts, alone and as that of a table of the database `d`.
fn has_texts(alloc: Global, name: &[u8], shown: &str, quoted: &str) -> Result<bool, AllocError> {
    let shown_in_d = format!(in alloc; "d.{shown}")?;
    let quoted_in_d = format!(in alloc; "d.{quoted}")?;
    Ok(
        shown_name(alloc, name)?.as_str() == shown
            && quoted_name(alloc, name)?.as_str() == quoted
            && shown_table(alloc, b"d", name)? == shown_in_d
            && quoted_table(alloc, b"d", name)? == quoted_in_d,
    )
}

#[test]
fn names(rt: HostRuntime) -> Result<(), Fail> {
    for (name, shown, quoted) in NAMES.iter() {
        assert!(rt; has_texts(rt.alloc(), name, shown, quoted)?, "{shown}");
    }
    shown_names_tell_names();
    quoted_names_tell_names();
    Ok(())
}
