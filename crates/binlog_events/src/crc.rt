//! The checksum of events: CRC-32.

mod tables;

ghost use Rattle.std.specs.Prelude.{◌≡◌, ◌<◌, ◌≤◌, ◌+◌, ◌-◌, ◌*◌, ◌%◌, ◌++◌, length, drop};
ghost use Rattle.binlog_events.specs.Crc32.{crc32, after_bits, after_bytes};
ghost use Rattle.byteorder.specs.Endian.{little_number};

use self::tables::TABLES;
use byteorder::{ByteOrder, LittleEndian};

/// How many bytes a step takes.
const STEP: usize = 16;

/// How many bytes two words have.
const PAIR: usize = 8;

// Returns the remainder of a byte after `level + 1` bytes.
#[inline(always)]
#[tactic(auto, using(crate::proofs::CrcTables::tables_are_right))]
fn entry(level: usize, byte: u32) -> u32
    requires level { level < STEP }
    requires byte { byte < 256 }
    ensures { result ≡ after_bits (8 * (level + 1)) byte }
{
    TABLES[level][byte as usize]
}

// Returns the remainder of a word, four bytes, after `level + 4` bytes.
#[inline(always)]
#[tactic(auto, using(crate::proofs::Remainders::word_in_tables))]
fn word_entry(level: usize, word: u32) -> u32
    requires { level + 4 ≤ STEP }
    ensures { result ≡ after_bits (8 * (level + 4)) word }
{
    (entry(level + 3, word % 256) ^ entry(level + 2, (word >> 8) % 256))
        ^ (entry(level + 1, (word >> 16) % 256) ^ entry(level, word >> 24))
}

// Returns the word at this place.
#[inline(always)]
fn word_at(bytes: &[u8], place: usize) -> u32
    requires { place + 4 ≤ length bytes.now }
    ensures { result ≡ little_number 4 (drop place bytes.now) }
{
    LittleEndian::read_u32(&bytes[place..])
}

// Returns the remainder of the word at this place after `level + 4` bytes. Its third byte is read by
// itself: to take it out of the word takes two instructions more.
#[inline(always)]
#[tactic(auto, using(crate::proofs::Remainders::place_in_tables))]
fn place_entry(level: usize, bytes: &[u8], place: usize) -> u32
    requires level { level + 4 ≤ STEP }
    requires place { place + 4 ≤ length bytes.now }
    ensures { result ≡ after_bits (8 * (level + 4)) (little_number 4 (drop place bytes.now)) }
{
    let third = u32::from(bytes[place + 2]);
    let word = word_at(bytes, place);
    (entry(level + 3, word % 256) ^ entry(level + 2, (word >> 8) % 256))
        ^ (entry(level + 1, third) ^ entry(level, word >> 24))
}

// Returns the remainder after so many bytes.
#[inline(always)]
#[tactic(auto, using(crate::proofs::Remainders::step_in_words))]
fn after_step(remainder: u32, bytes: &[u8]) -> u32
    requires { length bytes.now ≡ STEP }
    ensures { result ≡ after_bytes remainder bytes.now }
{
    let first = word_at(bytes, 0) ^ remainder;
    // The first word comes last: only its look-ups wait for the step before.
    ((place_entry(0, bytes, 12) ^ place_entry(4, bytes, 8)) ^ place_entry(8, bytes, 4))
        ^ word_entry(12, first)
}

// Returns the remainder after a pair of words.
#[inline(always)]
#[tactic(auto, using(crate::proofs::Remainders::pair_in_words))]
fn after_pair(remainder: u32, bytes: &[u8]) -> u32
    requires { length bytes.now ≡ PAIR }
    ensures { result ≡ after_bytes remainder bytes.now }
{
    let first = word_at(bytes, 0) ^ remainder;
    place_entry(0, bytes, 4) ^ word_entry(4, first)
}

// Returns the remainder after whole pairs of words.
#[inline(always)]
#[tactic(auto, using(crate::proofs::Remainders::after_front))]
fn after_pairs(start: u32, bytes: &[u8]) -> u32
    requires { length bytes.now % PAIR ≡ 0 }
    ensures { result ≡ after_bytes start bytes.now }
{
    let mut remainder = start;
    let mut left = bytes;
    while left.len() >= STEP {
        let (front, back) = left.split_at(STEP);
        remainder = after_step(remainder, front);
        left = back;
    }
    if left.is_empty() {
        remainder
    } else {
        after_pair(remainder, left)
    }
}

// Returns the last two words as one number.
#[inline(always)]
fn last_pair(bytes: &[u8]) -> u64
    requires { PAIR ≤ length bytes.now }
    ensures { result ≡ little_number PAIR (drop (length bytes.now - PAIR) bytes.now) }
{
    LittleEndian::read_u64(&bytes[bytes.len() - PAIR..])
}

// Returns the remainder after the last `count` of these bytes.
#[inline(always)]
#[tactic(auto, using(crate::proofs::Remainders::last_in_text))]
fn after_last(remainder: u32, bytes: &[u8], count: usize) -> u32
    requires long { PAIR ≤ length bytes.now }
    requires some { 0 < count }
    requires within { count < PAIR }
    ensures { result ≡ after_bytes remainder (drop (length bytes.now - count) bytes.now) }
{
    // Zero bytes keep a remainder of 0. So the bytes before the last ones are shifted out and
    // zeros stand for them: whatever the count, two words are looked up, with no loop and no
    // branch. What the remainder has beyond the last bytes is only shifted.
    let taken = 8 * count;
    let zeros = 64 - taken;
    let last = (last_pair(bytes) >> zeros) ^ u64::from(remainder);
    let pair = last << zeros;
    (word_entry(0, (pair >> 32) as u32) ^ word_entry(4, (pair % (1 << 32)) as u32))
        ^ (u64::from(remainder) >> taken) as u32
}

// Returns the remainder after eight bits.
#[inline(always)]
#[tactic(auto, using(crate::proofs::Remainders::byte_in_table))]
fn after_byte(word: u32) -> u32
    ensures { result ≡ after_bits 8 word }
{
    entry(0, word % 256) ^ (word >> 8)
}

// Returns the remainder after the bytes, one by one.
#[tactic(auto, using(crate::proofs::Remainders::byte_in_table))]
fn after_few(start: u32, bytes: &[u8]) -> u32
    ensures { result ≡ after_bytes start bytes.now }
{
    let mut remainder = start;
    for byte in bytes {
        remainder = after_byte(remainder ^ u32::from(*byte));
    }
    remainder
}

// Returns the remainder after the bytes.
#[tactic(auto, using(crate::proofs::Remainders::after_front))]
fn after(start: u32, bytes: &[u8]) -> u32
    ensures { result ≡ after_bytes start bytes.now }
{
    let count = bytes.len() % PAIR;
    let (front, last) = bytes.split_at(bytes.len() - count);
    let remainder = after_pairs(start, front);
    if front.is_empty() || last.is_empty() {
        after_few(remainder, last)
    } else {
        after_last(remainder, bytes, count)
    }
}

// Returns the remainder after the last bytes of a first part and all of a second.
#[tactic(auto, using(crate::proofs::Remainders::after_append, crate::proofs::Remainders::seam_in_word))]
fn after_seam(start: u32, last: &[u8], second: &[u8]) -> u32
    ensures { result ≡ after_bytes start (last.now ++ second.now) }
{
    // The 19 bytes of an event's header leave three, which make a word with the first byte of
    // its body.
    if last.len() == 3 && !second.is_empty() {
        let word = u32::from_le_bytes([last[0], last[1], last[2], second[0]]);
        after(word_entry(0, word ^ start), &second[1..])
    } else {
        after(after_few(start, last), second)
    }
}

/// Returns the CRC-32 of the bytes.
#[tactic(auto, unfolding(crate::specs::Crc32::crc32))]
pub fn crc32(bytes: &[u8]) -> u32
    ensures { result ≡ crc32 bytes.now }
{
    after(0xffff_ffff, bytes) ^ 0xffff_ffff
}

/// Returns the CRC-32 of the bytes, the first part and then the second.
#[tactic(auto, using(crate::proofs::Remainders::after_append), unfolding(crate::specs::Crc32::crc32))]
pub fn crc32_of_both(first: &[u8], second: &[u8]) -> u32
    ensures { result ≡ crc32 (first.now ++ second.now) }
{
    let (front, last) = first.split_at(first.len() - first.len() % PAIR);
    after_seam(after_pairs(0xffff_ffff, front), last, second) ^ 0xffff_ffff
}
