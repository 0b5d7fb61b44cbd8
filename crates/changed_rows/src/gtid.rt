//! The global transaction id of the events of a transaction.

ghost use Rattle.std.specs.Prelude.{◌≡◌, ◌<◌, ◌++◌, length, codes, decimal, IfOk, OnOk, None};
ghost use Rattle.std.specs.Option.{option_map};
ghost use Rattle.std.specs.String.{string_bytes};
ghost use Rattle.changed_rows.specs.Gtids.{part_text, uuid_text, mysql_gtid, mariadb_gtid, gtid_after};

use binlog_file::lent_changes::OtherEvent;
use binlog_file::types::{ANONYMOUS_GTID, FORMAT_DESCRIPTION, GTID, MARIADB_GTID, TAGGED_GTID};
use byteorder::{ByteOrder, LittleEndian};
use hex::encode;
use itoa::Buffer;
use std::alloc::{AllocError, Global};
use std::fmt;
use std::marker::Model;

/// The global transaction id (GTID) that is in force, as text: MySQL's `uuid:number`, or MariaDB's
/// `domain-server-sequence`.
///
/// There is none at the start of a file and after a format description event, in transactions of MySQL
/// without a GTID or with a tag, and after an event that is too short for one.
#[derive(Drop)]
pub struct Gtid {
    // It is made anew in the same memory. Where there is no GTID, it is of no meaning.
    text: String,
    is_there: bool,
}

impl Model for Gtid {
    ghost use Rattle.std.specs.Prelude.{ℕ, List, Option, Some, None, if◌then◌else◌};
    ghost use Rattle.std.specs.String.{string_bytes};

    ghost Value = { Option (List ℕ) };

    ghost view = { λ g. if g.is_there then Some (string_bytes g.text) else None };
}

// Adds a digit.
fn push_digit(text: &mut String, digit: u8) -> Result<(), AllocError>
    requires { digit < 10 }
    ensures { OnOk result (string_bytes text.new ≡ string_bytes text.old ++ decimal digit) }
{
    text.push(char::from(b'0' + digit))
}

// Adds a number in decimal. Most domains and many servers have numbers of one digit.
fn push_number(text: &mut String, number: u64) -> Result<(), AllocError>
    ensures { OnOk result (string_bytes text.new ≡ string_bytes text.old ++ decimal number) }
{
    if number < 10 {
        return push_digit(text, number as u8);
    }
    let mut room = Buffer::new();
    text.push_str(room.format(number))
}

// Adds a dash and a number in decimal.
fn push_next(text: &mut String, number: u64) -> Result<(), AllocError>
    ensures { OnOk result (string_bytes text.new
        ≡ string_bytes text.old ++ (codes "-" ++ decimal number)) }
{
    text.push('-')?;
    push_number(text, number)
}

// Adds bytes in hexadecimal, after a dash.
fn push_part(alloc: Global, text: &mut String, bytes: &[u8]) -> Result<(), AllocError>
    ensures { OnOk result (string_bytes text.new ≡ string_bytes text.old ++ part_text bytes.now) }
{
    let part = encode(alloc, bytes)?;
    text.push_str("-")?;
    text.push_str(part.as_str())
}

// Returns the text of a UUID.
fn uuid_text(alloc: Global, uuid: &[u8]) -> Result<String, AllocError>
    requires { length uuid.now ≡ 16 }
    ensures { IfOk result (λ text. string_bytes text ≡ uuid_text uuid.now) }
{
    let mut text = encode(alloc, &uuid[0..4])?;
    push_part(alloc, &mut text, &uuid[4..6])?;
    push_part(alloc, &mut text, &uuid[6..8])?;
    push_part(alloc, &mut text, &uuid[8..10])?;
    push_part(alloc, &mut text, &uuid[10..16])?;
    Ok(text)
}

// Returns the GTID in the body of an event of MySQL: flags (1 byte), a UUID (16), a number (8).
fn mysql_gtid(alloc: Global, body: &[u8]) -> Result<Option<String>, AllocError>
    ensures { IfOk result (λ g. option_map string_bytes g ≡ mysql_gtid body.now) }
{
    if body.len() < 25 {
        return Ok(None);
    }
    let uuid = uuid_text(alloc, &body[1..17])?;
    let number = LittleEndian::read_i64(&body[17..25]);
    Ok(Some(format!(in alloc; "{uuid}:{number}")?))
}

// Makes the text that of a domain, a server and a sequence number.
fn write_mariadb(
    text: &mut String,
    domain: u32,
    server: u32,
    sequence: u64,
) -> Result<(), AllocError>
    ensures { OnOk result (string_bytes text.new
        ≡ decimal domain ++ (codes "-" ++ (decimal server ++ (codes "-" ++ decimal sequence)))) }
{
    text.clear();
    push_number(text, u64::from(domain))?;
    push_next(text, u64::from(server))?;
    push_next(text, sequence)
}

impl Gtid {
    /// Returns the GTID at the start of a file: none.
    pub fn new(alloc: Global) -> Gtid
        ensures { result ≡ None }
    {
        Gtid {
            text: String::new(alloc),
            is_there: false,
        }
    }

    /// Returns the GTID as text, if there is one.
    pub fn text(&self) -> Option<&str>
        ensures { option_map (λ t. t.now) result ≡ self.now }
    {
        if self.is_there {
            Some(self.text.as_str())
        } else {
            None
        }
    }

    // Takes a GTID as text, if there is one.
    fn take(&mut self, text: Option<String>)
        ensures { self.new ≡ option_map string_bytes text }
    {
        match text {
            None => self.is_there = false,
            Some(text) => {
                self.text = text;
                self.is_there = true;
            }
        }
    }

    // Takes the GTID in the body of an event of MariaDB: a sequence number (8 bytes), a domain (4).
    fn take_mariadb(&mut self, server: u32, body: &[u8]) -> Result<(), AllocError>
        ensures { OnOk result (self.new ≡ mariadb_gtid server body.now) }
    {
        if body.len() < 12 {
            self.is_there = false;
            return Ok(());
        }
        let sequence = LittleEndian::read_u64(&body[0..8]);
        let domain = LittleEndian::read_u32(&body[8..12]);
        write_mariadb(&mut self.text, domain, server, sequence)?;
        self.is_there = true;
        Ok(())
    }

    /// Takes in an event, after which another GTID may be in force. Fails if memory is refused: which GTID
    /// is in force then isn't known.
    pub fn see(&mut self, alloc: Global, event: &OtherEvent<'_>) -> Result<(), AllocError>
        ensures { OnOk result (self.new ≡ gtid_after self.old event.now) }
    {
        match event.header().event_type() {
            GTID => self.take(mysql_gtid(alloc, event.body())?),
            MARIADB_GTID => {
                self.take_mariadb(event.header().server_id(), event.body())?;
            }
            FORMAT_DESCRIPTION | ANONYMOUS_GTID | TAGGED_GTID => self.is_there = false,
            _ => {}
        }
        Ok(())
    }
}

impl fmt::Debug for Gtid {
    fn fmt<W: fmt::Write>(&self, f: &mut fmt::Formatter<W>) -> fmt::Result {
        f.debug_tuple("Gtid").field(&self.text()).finish()
    }
}
