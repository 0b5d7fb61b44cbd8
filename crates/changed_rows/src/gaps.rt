//! What a file says of changes that its rows don't show.

ghost use Rattle.std.specs.Prelude.{◌≡◌, Some, drop};
ghost use Rattle.changed_rows.specs.Gaps.{after_blanks, statement_in, begins_with, after_end, after_line, after_digits, after_comment, after_comments, is_control, rolls_back};
ghost use Rattle.changed_rows.specs.Gaps.{is_of_word, begins_with_whole, has_word, gap_of_definition, gap_of_words, gap_of_statement, gap_of, gap_of_rows, with_gap, no_gaps};

use binlog_file::lent_changes::OtherEvent;
use binlog_file::types::{COMPRESSED_QUERY, EXECUTE_LOAD_QUERY, INCIDENT, QUERY, XA_PREPARE};
use byteorder::{ByteOrder, LittleEndian};

/// What an event says of changes that no rows show.
#[derive(Clone, Copy, Debug, PartialEq, Eq)]
pub enum Gap {
    /// A statement in a transaction that is none of its own parts and makes or drops nothing, or one that loads
    /// a file: its rows are logged as text.
    Statement,
    /// A statement out of a transaction that makes something and has the word SELECT: it may have made a table
    /// with rows, which are logged as text.
    Creation,
    /// A statement that is compressed: its rows may be logged as text.
    Compressed,
    /// A statement that begins with TRUNCATE, after comments.
    Truncation,
    /// A statement that begins with ROLLBACK or XA ROLLBACK: what it rolls back may have rows in the file,
    /// or in an earlier one.
    Rollback,
    /// A transaction whose rows are in the file, and that XA prepared, to be committed or rolled back
    /// later.
    Prepared,
    /// The server says that changes are missing.
    Incident,
    /// A rows event that has no row: of inserts of defaults alone, where the server logs no columns that
    /// weren't given.
    NoRows,
}

/// How often a file says something of changes that its rows don't show: a number for each [`Gap`].
#[derive(Clone, Copy, Debug, PartialEq, Eq)]
pub struct Gaps {
    /// How often [`Gap::Statement`].
    pub statements: u64,
    /// How often [`Gap::Creation`].
    pub creations: u64,
    /// How often [`Gap::Compressed`].
    pub compressed: u64,
    /// How often [`Gap::Truncation`].
    pub truncations: u64,
    /// How often [`Gap::Rollback`].
    pub rollbacks: u64,
    /// How often [`Gap::Prepared`].
    pub prepared: u64,
    /// How often [`Gap::Incident`].
    pub incidents: u64,
    /// How often [`Gap::NoRows`].
    pub without_rows: u64,
}

// Returns what is left of a text after the blanks with which it begins.
fn after_blanks(text: &[u8]) -> &[u8]
    ensures { result.now ≡ after_blanks text.now }
{
    text.trim_ascii_start()
}

// Returns the bytes from a place on.
fn bytes_from(bytes: &[u8], at: usize) -> &[u8]
    ensures { result.now ≡ drop at bytes.now }
{
    match bytes.split_at_checked(at) {
        Some((_, rest)) => rest,
        None => &[],
    }
}

// Returns the statement in the body of an event: a thread (4 bytes), seconds (4), the length of the
// database (1), an error (2), the length of status variables (2), these, the database, a zero, and the
// statement. Nothing if the body is too short. Blanks before it are left out.
pub(crate) fn statement_in(body: &[u8]) -> &[u8]
    ensures { result.now ≡ statement_in body.now }
{
    if body.len() < 13 {
        return &[];
    }
    let database = usize::from(body[8]);
    let variables = usize::from(LittleEndian::read_u16(&body[11..13]));
    after_blanks(bytes_from(body, 13 + variables + database + 1))
}

// Returns whether a statement begins with a word, in either case.
pub(crate) fn begins_with(statement: &[u8], word: &[u8]) -> bool
    ensures { result ≡ begins_with statement.now word.now }
{
    match statement.split_at_checked(word.len()) {
        Some((front, _)) => front.eq_ignore_ascii_case(word),
        None => false,
    }
}

// Returns whether a statement is a part of a transaction that changes nothing by itself.
fn is_control(statement: &[u8]) -> bool
    ensures { result ≡ is_control statement.now }
{
    begins_with(statement, b"BEGIN")
        || begins_with(statement, b"COMMIT")
        || begins_with(statement, b"SAVEPOINT")
        || begins_with(statement, b"XA ")
}

// Returns what follows the end of a comment, or nothing.
#[tactic(auto, unfolding(crate::specs::Gaps::after_end))]
fn after_end(text: &[u8]) -> &[u8]
    ensures { result.now ≡ after_end text.now }
{
    let mut rest = text;
    while let Some((first, more)) = rest.split_first() {
        if *first == b'*' && more.first() == Some(&b'/') {
            return bytes_from(more, 1);
        }
        rest = more;
    }
    rest
}

// Returns what follows the end of a line, or nothing.
#[tactic(auto, unfolding(crate::specs::Gaps::after_line))]
fn after_line(text: &[u8]) -> &[u8]
    ensures { result.now ≡ after_line text.now }
{
    let mut rest = text;
    while let Some((first, more)) = rest.split_first() {
        if *first == b'\n' {
            return more;
        }
        rest = more;
    }
    rest
}

// Returns what is left of a text after the digits with which it begins.
#[tactic(auto, unfolding(crate::specs::Gaps::after_digits))]
fn after_digits(text: &[u8]) -> &[u8]
    ensures { result.now ≡ after_digits text.now }
{
    let mut rest = text;
    while let Some((first, more)) = rest.split_first() {
        if *first < b'0' || *first > b'9' {
            return rest;
        }
        rest = more;
    }
    rest
}

// Returns what is left of a statement after the comment with which it begins, if it begins with one. Of a
// comment that a server executes only its mark is left out.
fn after_comment(statement: &[u8]) -> &[u8]
    ensures { result.now ≡ after_comment statement.now }
{
    if begins_with(statement, b"/*!") {
        after_digits(bytes_from(statement, 3))
    } else if begins_with(statement, b"/*M!") {
        after_digits(bytes_from(statement, 4))
    } else if begins_with(statement, b"/*") {
        after_end(bytes_from(statement, 2))
    } else if begins_with(statement, b"#") || begins_with(statement, b"-- ") {
        after_line(statement)
    } else {
        statement
    }
}

// Returns what is left of a statement after up to so many comments, and blanks, with which it begins.
#[tactic(auto, unfolding(crate::specs::Gaps::after_comments))]
fn after_comments(count: u8, statement: &[u8]) -> &[u8]
    ensures { result.now ≡ after_comments count statement.now }
{
    if count == 0 {
        return statement;
    }
    after_comments(count - 1, after_blanks(after_comment(statement)))
}

// Returns whether a byte is one of those of words: a letter, a digit, `_`, `$`, or one above 7F.
fn is_of_word(byte: u8) -> bool
    ensures { result ≡ is_of_word byte }
{
    byte.is_ascii_alphanumeric() || byte == b'_' || byte == b'$' || byte > 0x7F
}

// Returns whether a text begins with a word, in either case, that ends there.
fn begins_with_whole(text: &[u8], word: &[u8]) -> bool
    ensures { result ≡ begins_with_whole text.now word.now }
{
    let next = text.get(word.len()).copied().unwrap_or(0);
    begins_with(text, word) && !is_of_word(next)
}

// Returns whether a text has a word, in either case. `is_in_word` says whether it goes on with a word that began
// before it.
#[tactic(auto, unfolding(crate::specs::Gaps::has_word))]
fn has_word(is_in_word: bool, text: &[u8], word: &[u8]) -> bool
    ensures { result ≡ has_word is_in_word text.now word.now }
{
    let mut is_in_word = is_in_word;
    let mut rest = text;
    while let Some((first, more)) = rest.split_first() {
        if !is_in_word && begins_with_whole(rest, word) {
            return true;
        }
        is_in_word = is_of_word(*first);
        rest = more;
    }
    false
}

// Returns whether a statement rolls back a transaction or a part of one.
fn rolls_back(statement: &[u8]) -> bool
    ensures { result ≡ rolls_back statement.now }
{
    begins_with(statement, b"ROLLBACK") || begins_with(statement, b"XA ROLLBACK")
}

// Returns what a statement that makes or drops something says of changes.
fn gap_of_definition(is_open: bool, words: &[u8]) -> Option<Gap>
    ensures { result ≡ gap_of_definition is_open words.now }
{
    if !is_open && begins_with(words, b"CREATE") && has_word(false, words, b"SELECT") {
        Some(Gap::Creation)
    } else {
        None
    }
}

// Returns what a statement says of changes, from its first word on. `is_open` says whether it is in a
// transaction.
fn gap_of_words(is_open: bool, words: &[u8]) -> Option<Gap>
    ensures { result ≡ gap_of_words is_open words.now }
{
    if begins_with(words, b"TRUNCATE") {
        Some(Gap::Truncation)
    } else if begins_with(words, b"CREATE") || begins_with(words, b"DROP") {
        gap_of_definition(is_open, words)
    } else if is_open {
        Some(Gap::Statement)
    } else {
        None
    }
}

// Returns what a statement says of changes. `is_open` says whether it is in a transaction. Up to 16 comments
// before its first word are passed over.
fn gap_of_statement(is_open: bool, statement: &[u8]) -> Option<Gap>
    ensures { result ≡ gap_of_statement is_open statement.now }
{
    if rolls_back(statement) {
        Some(Gap::Rollback)
    } else if is_control(statement) {
        None
    } else {
        gap_of_words(is_open, after_comments(16, statement))
    }
}

// Returns what an event says of changes. The body of the event of XA begins with 1 if the transaction
// was committed at once.
fn gap_of(is_open: bool, event: &OtherEvent<'_>) -> Option<Gap>
    ensures { result ≡ gap_of is_open event.now }
{
    match event.header().event_type() {
        QUERY => gap_of_statement(is_open, statement_in(event.body())),
        EXECUTE_LOAD_QUERY => Some(Gap::Statement),
        INCIDENT => Some(Gap::Incident),
        XA_PREPARE if event.body().first() == Some(&0) => Some(Gap::Prepared),
        COMPRESSED_QUERY => Some(Gap::Compressed),
        _ => None,
    }
}

impl Gaps {
    /// Returns that there was nothing.
    pub fn new() -> Gaps
        ensures { result ≡ no_gaps }
    {
        Gaps {
            statements: 0,
            creations: 0,
            compressed: 0,
            truncations: 0,
            rollbacks: 0,
            prepared: 0,
            incidents: 0,
            without_rows: 0,
        }
    }

    // Counts one more.
    fn add(&mut self, gap: Gap)
        ensures { self.new ≡ with_gap (Some gap) self.old }
    {
        match gap {
            Gap::Statement => self.statements = self.statements.saturating_add(1),
            Gap::Creation => self.creations = self.creations.saturating_add(1),
            Gap::Compressed => self.compressed = self.compressed.saturating_add(1),
            Gap::Truncation => self.truncations = self.truncations.saturating_add(1),
            Gap::Rollback => self.rollbacks = self.rollbacks.saturating_add(1),
            Gap::Prepared => self.prepared = self.prepared.saturating_add(1),
            Gap::Incident => self.incidents = self.incidents.saturating_add(1),
            Gap::NoRows => self.without_rows = self.without_rows.saturating_add(1),
        }
    }

    /// Takes in an event that is no rows event: counts what it says of changes, if it says anything.
    /// `is_open` says whether a transaction was open before it.
    pub fn see(&mut self, is_open: bool, event: &OtherEvent<'_>)
        ensures { self.new ≡ with_gap (gap_of is_open event.now) self.old }
    {
        if let Some(gap) = gap_of(is_open, event) {
            self.add(gap);
        }
    }

    /// Takes in a rows event of so many rows: counts it if it has none.
    pub fn see_rows(&mut self, rows: u64)
        ensures { self.new ≡ with_gap (gap_of_rows rows) self.old }
    {
        if rows == 0 {
            self.add(Gap::NoRows);
        }
    }
}
