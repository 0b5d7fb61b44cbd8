//! Patterns of names: `*` is any text, `?` is one character, and `\` takes the next byte as it is.

ghost use Rattle.std.specs.Prelude.{◌≡◌, ◌<◌, ◌≤◌, ◌==◌, ◌&&◌, ◌∷◌, not, length};
ghost use Rattle.std.specs.Option.{option_map};
ghost use Rattle.changed_rows.specs.Patterns.{is_continuation, past_continuation, is_same, behind, parts_of};
ghost use Rattle.changed_rows.specs.Patterns.{matches, matches_parts, divides, matches_table, has_point};
ghost use Rattle.changed_rows.specs.Workings.Walks.{places_left, IsFirst, is_match, IsFirstPlace, is_found};
ghost use Rattle.changed_rows.specs.declared.pattern.Part.TheVariants as part;

/// Whether the case of ASCII letters counts.
#[derive(Clone, Copy, Debug, PartialEq, Eq)]
pub enum Case {
    /// It does.
    Exact,
    /// It doesn't.
    Ignored,
}

// What a pattern asks of one place of a name.
#[derive(Clone, Copy)]
enum Single {
    // Any character.
    Character,
    // This byte.
    Byte(u8),
}

// What a part of a pattern stands for.
#[derive(Clone, Copy)]
enum Part {
    // Any text.
    Any,
    // One place.
    Single(Single),
}

// How far a name goes along a pattern, up to the next `*`.
#[derive(Clone, Copy)]
enum Walk<'p, 'n> {
    // As far as a `*`. What stands behind it, and what is left of the name.
    Any(&'p [u8], &'n [u8]),
    // As far as the pattern's end. What is left of the name.
    End(&'n [u8]),
    // Not so far.
    Apart,
}

// Returns whether a character goes on with a byte, in UTF-8.
fn is_continuation(byte: u8) -> bool
    ensures { result ≡ is_continuation byte }
{
    128 <= byte && byte < 192
}

// Returns a text without the continuation byte with which it begins, if it does.
fn past_continuation(text: &[u8]) -> &[u8]
    ensures { result.now ≡ past_continuation text.now }
{
    match text {
        [byte, rest @ ..] if is_continuation(*byte) => rest,
        _ => text,
    }
}

// Returns whether two bytes are the same.
fn is_same(byte: u8, other: u8, case: Case) -> bool
    ensures { result ≡ is_same case byte other }
{
    match case {
        Case::Exact => byte == other,
        Case::Ignored => byte.eq_ignore_ascii_case(&other),
    }
}

// Returns what is left of a name behind one place; nothing if the name doesn't begin with what is asked.
fn behind(single: Single, name: &[u8], case: Case) -> Option<&[u8]>
    ensures { option_map (λ rest. rest.now) result ≡ behind case single name.now }
{
    let (first, rest) = name.split_first()?;
    match single {
        Single::Character => Some(past_continuation(past_continuation(past_continuation(rest)))),
        Single::Byte(byte) if is_same(byte, *first, case) => Some(rest),
        Single::Byte(_) => None,
    }
}

// Returns the first part of a pattern and what stands behind it.
fn first_part(pattern: &[u8]) -> Option<(Part, &[u8])>
    ensures { IsFirst pattern.now result }
{
    match pattern {
        [] => None,
        [b'*', rest @ ..] => Some((Part::Any, rest)),
        [b'?', rest @ ..] => Some((Part::Single(Single::Character), rest)),
        [b'\\', byte, rest @ ..] => Some((Part::Single(Single::Byte(*byte)), rest)),
        [byte, rest @ ..] => Some((Part::Single(Single::Byte(*byte)), rest)),
    }
}

impl<'p, 'n> Walk<'p, 'n> {
    // Returns whether a `*` was reached, or the ends of pattern and name together.
    fn is_found(&self) -> bool
        ensures { result ≡ is_found self.now }
    {
        match self {
            Walk::Any(_, _) => true,
            Walk::End(left) => left.is_empty(),
            Walk::Apart => false,
        }
    }
}

// Goes along a pattern with a name, up to the next `*`.
fn walk_along<'p, 'n>(pattern: &'p [u8], name: &'n [u8], case: Case) -> Walk<'p, 'n>
    ensures same { is_match case result ≡ matches case pattern.now name.now }
    ensures first { IsFirstPlace case pattern.now name.now result }
    ensures shorter { places_left result ≤ length pattern.now }
{
    let mut ahead = pattern;
    let mut left = name;
    while let Some((part, rest)) = first_part(ahead) {
        let Part::Single(single) = part else {
            return Walk::Any(rest, left);
        };
        let Some(more) = behind(single, left, case) else {
            return Walk::Apart;
        };
        ahead = rest;
        left = more;
    }
    Walk::End(left)
}

// Goes along a pattern that stands behind a `*`, from the first place of a name from which that leads to
// the next `*`, or to the ends of both.
fn find<'p, 'n>(pattern: &'p [u8], name: &'n [u8], case: Case) -> Walk<'p, 'n>
    ensures same { is_match case result
        ≡ matches_parts case (part.Any ∷ parts_of pattern.now) name.now }
    ensures shorter { places_left result ≤ length pattern.now }
{
    let mut left = name;
    loop {
        let walked = walk_along(pattern, left, case);
        if walked.is_found() {
            return walked;
        }
        let Some((_, rest)) = left.split_first() else {
            return Walk::Apart;
        };
        left = rest;
    }
}

/// Returns whether a name matches a pattern. A character is a byte and up to three bytes behind it with
/// which a character goes on in UTF-8; a `\` at the end is itself. Takes time of the pattern times the name.
pub fn matches(pattern: &[u8], name: &[u8], case: Case) -> bool
    ensures { result ≡ matches case pattern.now name.now }
{
    let mut walked = walk_along(pattern, name, case);
    while let Walk::Any(rest, left) = walked {
        walked = find(rest, left, case);
    }
    walked.is_found()
}

// Returns whether what stands before an index matches a database, and what stands after it a table.
fn divides(pattern: &[u8], index: usize, database: &[u8], table: &[u8], case: Case) -> bool
    requires { index < length pattern.now }
    ensures { result ≡ divides case pattern.now database.now table.now index }
{
    matches(&pattern[..index], database, case) && matches(&pattern[index + 1..], table, case)
}

// Returns whether a byte is a `\` that takes the next byte, and isn't taken itself.
fn takes_next(byte: u8, is_taken: bool) -> bool
    ensures { result ≡ (byte == 92 && not is_taken) }
{
    byte == b'\\' && !is_taken
}

// Returns whether a byte is a point that isn't taken.
fn is_point(byte: u8, is_taken: bool) -> bool
    ensures { result ≡ (byte == 46 && not is_taken) }
{
    byte == b'.' && !is_taken
}

/// Returns whether a table of a database matches a pattern: one of the pattern's points, before which no `\`
/// stands that takes it, divides it into one that matches the database and one that matches the table. Takes
/// time of the pattern times the names for each of these points.
pub fn matches_table(pattern: &[u8], database: &[u8], table: &[u8], case: Case) -> bool
    ensures { result ≡ matches_table case pattern.now database.now table.now }
{
    let mut is_taken = false;
    for (index, byte) in pattern.iter().enumerate() {
        if is_point(*byte, is_taken) && divides(pattern, index, database, table, case) {
            return true;
        }
        is_taken = takes_next(*byte, is_taken);
    }
    false
}

/// Returns whether a pattern has a point that no `\` takes. Only such a pattern can match tables.
pub fn has_point(pattern: &[u8]) -> bool
    ensures { result ≡ has_point pattern.now }
{
    let mut is_taken = false;
    for byte in pattern {
        if is_point(*byte, is_taken) {
            return true;
        }
        is_taken = takes_next(*byte, is_taken);
    }
    false
}
