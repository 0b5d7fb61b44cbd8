//! What follows from the version of a server.

ghost use Rattle.std.specs.Prelude.{◌≡◌, ◌≤◌};
ghost use Rattle.binlog_events.specs.Version as Spec;

use binlog_base::below::Server;

// Returns the number that the text begins with, and the text after it. A number above 255 is 256.
fn leading(text: &[u8]) -> (u32, &[u8])
    ensures value { (result.0, result.1.now) ≡ Spec.leading 0 text.now }
    ensures most { result.0 ≤ 256 }
{
    let mut number = 0;
    let mut left = text;
    while !left.is_empty() && left[0] > 47 && left[0] < 58 {
        number = (10 * number + u32::from(left[0] - 48)).min(256);
        left = left.split_at(1).1;
    }
    (number, left)
}

// Returns whether the text begins with a point.
fn has_point(text: &[u8]) -> bool
    ensures { result ≡ Spec.has_point text.now }
{
    match text.first() {
        Some(first) => *first == 46,
        None => false,
    }
}

// Returns the number after the point that the text begins with, and the text after it; 0 if there
// is no point.
fn after_point(text: &[u8]) -> (u32, &[u8])
    ensures value { (result.0, result.1.now) ≡ Spec.after_point text.now }
    ensures most { result.0 ≤ 256 }
{
    if has_point(text) {
        leading(text.split_at(1).1)
    } else {
        (0, text)
    }
}

// Returns three numbers as one, by which versions are compared.
fn version(first: u32, second: u32, third: u32) -> u32
    requires first { first ≤ 256 }
    requires second { second ≤ 256 }
    requires third { third ≤ 256 }
    ensures { result ≡ Spec.version first second third }
{
    65536 * first + 256 * second + third
}

// Returns the version that the text begins with.
fn version_of(text: &[u8]) -> u32
    ensures { result ≡ Spec.version_of text.now }
{
    let (first, left) = leading(text);
    let (second, after_second) = after_point(left);
    let (third, _) = after_point(after_second);
    if has_point(left) && first < 256 && second < 256 && third < 256 {
        version(first, second, third)
    } else {
        0
    }
}

// Returns whether the word is in the text.
#[tactic(auto, using(crate::proofs::Words::occurs_here))]
fn occurs(word: &[u8], text: &[u8]) -> bool
    ensures { result ≡ Spec.occurs word.now text.now }
{
    let mut left = text;
    while !left.is_empty() {
        if left.starts_with(word) {
            return true;
        }
        left = left.split_at(1).1;
    }
    false
}

/// Returns whose version this is: MariaDB's if it has `MariaDB` or `-maria-` in it, else MySQL's.
#[tactic(auto, unfolding(crate::specs::Version::server_of))]
pub(crate) fn server_of(text: &[u8]) -> Server
    ensures { result ≡ Spec.server_of text.now }
{
    if occurs(b"MariaDB", text) || occurs(b"-maria-", text) {
        Server::MariaDb
    } else {
        Server::MySql
    }
}

// Returns the first version of the server whose events may end with checksums.
fn first_with_checksums(server: Server) -> u32
    ensures { result ≡ Spec.first_with_checksums server }
{
    match server {
        Server::MySql => version(5, 6, 1),
        Server::MariaDb => version(5, 3, 0),
    }
}

/// Returns whether a server of this version ends its format descriptions with a checksum algorithm
/// and a checksum.
#[tactic(auto, unfolding(crate::specs::Version::knows_checksums))]
pub(crate) fn knows_checksums(text: &[u8]) -> bool
    ensures { result ≡ Spec.knows_checksums text.now }
{
    version_of(text) >= first_with_checksums(server_of(text))
}

/// Returns whether the version is below 5.0.0.
#[tactic(auto, unfolding(crate::specs::Version::is_too_old))]
pub(crate) fn is_too_old(text: &[u8]) -> bool
    ensures { result ≡ Spec.is_too_old text.now }
{
    version_of(text) < version(5, 0, 0)
}
