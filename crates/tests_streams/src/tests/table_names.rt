//! Tests of patterns of names, and of which tables are wanted by them.

use super::all;
use changed_rows::pattern::{Case, has_point, matches, matches_table};
use changed_rows::table_names::TableNames;

/// Patterns, names, and whether these match.
const NAMES: &[(&str, &[u8], bool)] = &[
    ("", b"", true),
    ("", b"a", false),
    ("shop", b"shop", true),
    ("shop", b"Shop", false),
    ("shop", b"shops", false),
    ("shop", b"sho", false),
    ("*", b"", true),
    ("*", b"shop", true),
    ("**", b"shop", true),
    ("sh*", b"shop", true),
    ("sh*", b"sh", true),
    ("sh*", b"hs", false),
    ("*op", b"shop", true),
    ("*op", b"opop", true),
    ("*op", b"ops", false),
    ("s*p", b"shop", true),
    ("s*p", b"shops", false),
    ("s*p", b"s", false),
    ("*a*b*", b"xaybz", true),
    ("*a*b*", b"xbyaz", false),
    ("*ab*ac", b"abacab", false),
    ("*ab*ac", b"aabbacac", true),
    ("*aab", b"aaaab", true),
    ("a*a", b"a", false),
    ("a*a", b"aa", true),
    ("?", b"a", true),
    ("?", b"", false),
    ("?", b"ab", false),
    ("sho?", b"shop", true),
    ("?hop", b"shop", true),
    ("s??p", b"shop", true),
    ("s?p", b"shop", false),
    ("*?", b"", false),
    ("?*", b"shop", true),
    ("*?p", b"p", false),
    // Characters of one to four bytes.
    ("?", b"\xc3\xa9", true),
    ("?", b"\xe2\x82\xac", true),
    ("?", b"\xf0\x9d\x84\x9e", true),
    ("??", b"\xc3\xa9", false),
    ("*??", b"\xc3\xa9", false),
    ("?*?", b"\xc3\xa9", false),
    ("?*?", b"\xc3\xa9\xc3\xa9", true),
    ("caf?s", b"caf\xc3\xa9s", true),
    ("caf??s", b"caf\xc3\xa9s", false),
    ("é*", b"\xc3\xa9cole", true),
    ("*é", b"caf\xc3\xa9", true),
    // What isn't UTF-8: a byte, and up to three that go on.
    ("?", b"\xff", true),
    ("?", b"\xff\x80\x80\x80", true),
    ("?", b"\xff\x80\x80\x80\x80", false),
    ("??", b"\xff\x80\x80\x80\x80", true),
    ("?", b"\x80\x80", true),
    ("?", b"\xff\xff", false),
    // What a `\` takes.
    ("\\*", b"*", true),
    ("\\*", b"a", false),
    ("\\*", b"\\*", false),
    ("\\?", b"?", true),
    ("\\?", b"a", false),
    ("\\\\", b"\\", true),
    ("\\\\*", b"\\ab", true),
    ("\\a", b"a", true),
    ("\\a", b"\\a", false),
    ("a\\", b"a\\", true),
    ("a\\", b"a", false),
    ("*\\*", b"ab*", true),
    ("*\\*", b"ab", false),
];

/// The same where the case of ASCII letters doesn't count.
const NAMES_IN_ANY_CASE: &[(&str, &[u8], bool)] = &[
    ("shop", b"SHOP", true),
    ("SHOP", b"shop", true),
    ("S*p", b"sHOP", true),
    ("*\\P", b"shop", true),
    ("shop", b"shot", false),
    ("[", b"{", false),
    ("É", b"\xc3\xa9", false),
];

/// Patterns of tables, databases, tables, and whether these match.
const TABLES: &[(&str, &[u8], &[u8], bool)] = &[
    ("shop.items", b"shop", b"items", true),
    ("shop.items", b"shop", b"item", false),
    ("shop.items", b"shop.items", b"", false),
    ("shop.", b"shop", b"", true),
    (".", b"", b"", true),
    (".items", b"", b"items", true),
    ("shopitems", b"shop", b"items", false),
    ("", b"", b"", false),
    // Each of the points may divide.
    ("a.b.c", b"a", b"b.c", true),
    ("a.b.c", b"a.b", b"c", true),
    ("a.b.c", b"a.b.c", b"", false),
    ("a..c", b"a", b".c", true),
    ("a..c", b"a.", b"c", true),
    ("shop.*", b"shop", b"items", true),
    ("shop.*", b"shop", b"", true),
    ("shop.*", b"shops", b"items", false),
    ("*.items", b"shop", b"items", true),
    ("*.*", b"a.b", b"c.d", true),
    ("*.b", b"a", b"a.b", false),
    ("*.a.b", b"a", b"a.b", true),
    ("s?op.item?", b"shop", b"items", true),
    // A `*` and a `?` are never the point that divides.
    ("*", b"shop", b"items", false),
    ("shop?items", b"shop", b"items", false),
    // A point that is taken doesn't divide.
    ("shop\\.items", b"shop", b"items", false),
    ("a\\.b.c", b"a.b", b"c", true),
    ("a\\.b.c", b"a", b"b.c", false),
    ("a\\\\.c", b"a\\", b"c", true),
    ("a.\\*", b"a", b"*", true),
    ("a.\\*", b"a", b"b", false),
];

/// Patterns that have a point that divides, and some that haven't.
const POINTS: &[(&str, bool)] = &[
    ("", false),
    (".", true),
    ("shop", false),
    ("shop.items", true),
    ("shop\\.items", false),
    ("shop\\\\.items", true),
    ("\\..", true),
    ("*", false),
    ("a,b", false),
];

fn are_matched(names: &[(&str, &[u8], bool)], case: Case) -> bool {
    names.iter().all(|(pattern, name, is_match)| {
        matches(pattern.as_bytes(), name, case) == *is_match
    })
}

#[test]
fn names_match_patterns(rt: HostRuntime) {
    assert!(rt; are_matched(NAMES, Case::Exact));
    assert!(rt; are_matched(NAMES_IN_ANY_CASE, Case::Ignored));
}

#[test]
fn tables_match_patterns(rt: HostRuntime) {
    assert!(rt;
        TABLES.iter().all(|(pattern, database, table, is_match)| {
            matches_table(pattern.as_bytes(), database, table, Case::Exact) == *is_match
        })
    );
}

#[test]
fn patterns_of_tables_have_points(rt: HostRuntime) {
    assert!(rt;
        POINTS
            .iter()
            .all(|(pattern, has)| has_point(pattern.as_bytes()) == *has)
    );
}

/// A pattern and a name for which trying all places for each `*` would not end in a lifetime.
#[test]
fn many_stars_take_little_time(rt: HostRuntime) {
    let pattern = b"*a*a*a*a*a*a*a*a*a*a*a*a*a*a*a*a*a*a*a*a*a*a*a*a*a*a*a*a*a*a*a*a*b";
    let name = [b'a'; 255];
    assert!(rt; !matches(pattern, &name, Case::Exact));
}

#[test]
fn tables_are_wanted_by_names(rt: HostRuntime) {
    let none: &[&str] = &[];
    let everything = TableNames::new(none, none, none, none);
    let named = TableNames::new(&["shop"], &["log.ev*"], none, none);
    let excluded = TableNames::new(none, none, &["mysql"], &["shop.tmp?"]);
    let both = TableNames::new(&["shop"], &["mysql.user"], &["mysql"], &["shop.items"]);
    assert!(rt;
        all(&[
            everything.contains(b"shop", b"items"),
            named.contains(b"shop", b"items"),
            named.contains(b"log", b"events"),
            !named.contains(b"log", b"errors"),
            !named.contains(b"Shop", b"items"),
            excluded.contains(b"shop", b"items"),
            !excluded.contains(b"shop", b"tmp1"),
            excluded.contains(b"shop", b"tmp12"),
            !excluded.contains(b"mysql", b"user"),
            both.contains(b"shop", b"orders"),
            !both.contains(b"shop", b"items"),
            !both.contains(b"mysql", b"user"),
            !both.contains(b"log", b"events"),
        ])
    );
}
