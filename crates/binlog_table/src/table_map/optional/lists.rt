//! The kinds of lists in the fields of optional metadata, and the types of these fields.

ghost use Rattle.std.specs.Prelude.{◌≡◌, ℕ, List, map};
ghost use Rattle.std.specs.Iterator.{YieldsFirst, item_count};
ghost use Rattle.binlog_base.specs.Numbers.{lenenc};
ghost use Rattle.binlog_base.specs.Lemmas.Numbers.{exact_lenenc};
ghost use Rattle.binlog_base.specs.Strings.{lenenc_string};
ghost use Rattle.binlog_base.specs.Lemmas.Strings.{exact_lenenc_string};
ghost use Rattle.binlog_base.specs.Lemmas.Items.{eats_lenenc, eats_lenenc_string};
ghost use Rattle.binlog_table.specs.Lists.{low_bits, pair_with, geometry_types};
ghost use Rattle.binlog_table.specs.Lemmas.Lists.{exact_low_bits, eats_low_bits, exact_pair_with, eats_pair_with};

use super::charsets::NonDefaultCharset;
use super::items::{Items, ListKind, ListOf};
use super::keys::PrimaryKeyWithPrefix;
use super::names::ColumnName;
use binlog_base::below::{Constant, GeometryType, IntRepr, LenEnc, ParseBuf};
use binlog_base::fault::Fault;
use std::marker::Model;

/// The kind of list whose items are indexes of columns: length-encoded numbers.
pub struct ColumnIndexes;

impl<'a> ListKind<'a> for ColumnIndexes {
    ghost Seen = { ℕ };

    ghost seen = { λ n. n };

    ghost format = { lenenc };

    ghost exact = { exact_lenenc };

    ghost eats = { eats_lenenc };

    type Item = u64;

    fn read(buf: &mut ParseBuf<'a>) -> Result<u64, Fault> {
        <LenEnc as IntRepr>::deserialize(buf)
    }
}

/// The kind of list whose items are numbers of dimensions: length-encoded numbers.
pub struct Dimensions;

impl<'a> ListKind<'a> for Dimensions {
    ghost Seen = { ℕ };

    ghost seen = { λ n. n };

    ghost format = { lenenc };

    ghost exact = { exact_lenenc };

    ghost eats = { eats_lenenc };

    type Item = u64;

    fn read(buf: &mut ParseBuf<'a>) -> Result<u64, Fault> {
        <LenEnc as IntRepr>::deserialize(buf)
    }
}

/// The kind of list whose items are numbers of character sets: the low 16 bits of length-encoded
/// numbers.
pub struct Charsets;

impl<'a> ListKind<'a> for Charsets {
    ghost Seen = { ℕ };

    ghost seen = { λ n. n };

    ghost format = { low_bits 16 };

    ghost exact = { exact_low_bits 16 };

    ghost eats = { eats_low_bits 16 };

    type Item = u16;

    #[tactic(auto, unfolding(crate::specs::Lists::low_bits))]
    fn read(buf: &mut ParseBuf<'a>) -> Result<u16, Fault> {
        let number = <LenEnc as IntRepr>::deserialize(buf)?;
        Ok((number % 0x1_0000) as u16)
    }
}

/// The kind of list whose items are numbers of geometry types: the low 8 bits of length-encoded
/// numbers.
pub struct GeometryNumbers;

impl<'a> ListKind<'a> for GeometryNumbers {
    ghost Seen = { ℕ };

    ghost seen = { λ n. n };

    ghost format = { low_bits 8 };

    ghost exact = { exact_low_bits 8 };

    ghost eats = { eats_low_bits 8 };

    type Item = u8;

    #[tactic(auto, unfolding(crate::specs::Lists::low_bits))]
    fn read(buf: &mut ParseBuf<'a>) -> Result<u8, Fault> {
        let number = <LenEnc as IntRepr>::deserialize(buf)?;
        Ok((number % 0x100) as u8)
    }
}

/// The kind of list whose items are names of columns.
pub struct Names;

impl<'a> ListKind<'a> for Names {
    ghost Seen = { List ℕ };

    ghost seen = { λ name. name };

    ghost format = { lenenc_string };

    ghost exact = { exact_lenenc_string };

    ghost eats = { eats_lenenc_string };

    type Item = ColumnName<'a>;

    fn read(buf: &mut ParseBuf<'a>) -> Result<ColumnName<'a>, Fault> {
        buf.parse(())
    }
}

/// The kind of list whose items are columns with character sets of their own.
pub struct OtherCharsets;

impl<'a> ListKind<'a> for OtherCharsets {
    ghost Seen = { ℕ × ℕ };

    ghost seen = { λ p. p };

    ghost format = { pair_with (low_bits 16) };

    ghost exact = { exact_pair_with (low_bits 16) (exact_low_bits 16) };

    ghost eats = { eats_pair_with (low_bits 16) (exact_low_bits 16) };

    type Item = NonDefaultCharset;

    fn read(buf: &mut ParseBuf<'a>) -> Result<NonDefaultCharset, Fault> {
        buf.parse(())
    }
}

/// The kind of list whose items are columns of a primary key with their prefixes.
pub struct PrefixedKeys;

impl<'a> ListKind<'a> for PrefixedKeys {
    ghost Seen = { ℕ × ℕ };

    ghost seen = { λ k. k };

    ghost format = { pair_with lenenc };

    ghost exact = { exact_pair_with lenenc exact_lenenc };

    ghost eats = { eats_pair_with lenenc exact_lenenc };

    type Item = PrimaryKeyWithPrefix;

    fn read(buf: &mut ParseBuf<'a>) -> Result<PrimaryKeyWithPrefix, Fault> {
        buf.parse(())
    }
}

/// The names of the columns, in order: strings, each with its length-encoded length before it.
pub type ColumnNames<'a> = ListOf<'a, Names>;

/// An iterator over the names of the columns.
pub type IterNames<'a> = Items<'a, Names>;

impl<'a> ListOf<'a, Names> {
    /// Returns an iterator over the names, up to the first fault.
    pub fn iter_names(&self) -> IterNames<'a>
        ensures { result ≡ record { bytes = self.now; taken = 0 } }
    {
        self.iter()
    }
}

/// The character set of each column of a group, in order: length-encoded numbers, of which the low
/// 16 bits count.
pub type ColumnCharsets<'a> = ListOf<'a, Charsets>;

/// An iterator over the character sets of the columns of a group.
pub type IterCharsets<'a> = Items<'a, Charsets>;

impl<'a> ListOf<'a, Charsets> {
    /// Returns an iterator over the numbers of the character sets, up to the first fault.
    pub fn iter_charsets(&self) -> IterCharsets<'a>
        ensures { result ≡ record { bytes = self.now; taken = 0 } }
    {
        self.iter()
    }
}

/// The columns of a group whose character set isn't the default one, with their character sets.
pub type NonDefaultCharsets<'a> = ListOf<'a, OtherCharsets>;

/// An iterator over the columns of a group whose character set isn't the default one.
pub type IterNonDefault<'a> = Items<'a, OtherCharsets>;

/// The number of dimensions of each VECTOR column, in order: length-encoded numbers.
pub type VectorDimensionalities<'a> = ListOf<'a, Dimensions>;

/// An iterator over the numbers of dimensions of the VECTOR columns.
pub type IterVectorDimensionalities<'a> = Items<'a, Dimensions>;

impl<'a> ListOf<'a, Dimensions> {
    /// Returns an iterator over the numbers of dimensions, up to the first fault.
    pub fn iter_dimensionalities(&self) -> IterVectorDimensionalities<'a>
        ensures { result ≡ record { bytes = self.now; taken = 0 } }
    {
        self.iter()
    }
}

/// The columns of a primary key that takes whole columns: length-encoded indexes, counted from 0.
pub type SimplePrimaryKey<'a> = ListOf<'a, ColumnIndexes>;

/// An iterator over the indexes of columns.
pub type IterIndexes<'a> = Items<'a, ColumnIndexes>;

impl<'a> ListOf<'a, ColumnIndexes> {
    /// Returns an iterator over the indexes of the columns, up to the first fault.
    pub fn iter_indexes(&self) -> IterIndexes<'a>
        ensures { result ≡ record { bytes = self.now; taken = 0 } }
    {
        self.iter()
    }
}

/// The columns of a primary key that takes a prefix of some column.
pub type PrimaryKeysWithPrefix<'a> = ListOf<'a, PrefixedKeys>;

/// An iterator over the columns of a primary key with their prefixes.
pub type IterKeys<'a> = Items<'a, PrefixedKeys>;

impl<'a> ListOf<'a, PrefixedKeys> {
    /// Returns an iterator over the columns with their prefixes, up to the first fault.
    pub fn iter_keys(&self) -> IterKeys<'a>
        ensures { result ≡ record { bytes = self.now; taken = 0 } }
    {
        self.iter()
    }
}

/// The type of each geometry column, in order: length-encoded numbers, of which the low 8 bits
/// count.
pub type GeometryTypes<'a> = ListOf<'a, GeometryNumbers>;

impl<'a> ListOf<'a, GeometryNumbers> {
    /// Returns an iterator over the types of the geometry columns. If a number is no type's, the
    /// item is `UnknownGeometryType`, and others follow it; any other fault is the last item.
    pub fn iter_geometry_types(&self) -> IterGeometryTypes<'a>
        ensures { result ≡ record { bytes = self.now; taken = 0 } }
    {
        IterGeometryTypes {
            numbers: self.iter(),
        }
    }
}

/// An iterator over the types of geometry columns. A number that is no type's is the item
/// `UnknownGeometryType`, and others follow it; any other fault is the last item.
#[derive(Drop)]
pub struct IterGeometryTypes<'a> {
    numbers: Items<'a, GeometryNumbers>,
}

impl<'a> Model for IterGeometryTypes<'a> {
    ghost use Rattle.binlog_table.specs.Lists.{ListLeft};

    ghost Value = { ListLeft };

    ghost view = { λ g. g.numbers };
}

impl<'a> Iterator for IterGeometryTypes<'a> {
    type Item = Result<GeometryType, Fault>;

    ghost next_gives = { YieldsFirst (λ s. geometry_types s.bytes) };

    ghost remaining = { item_count (λ s. geometry_types s.bytes) };

    fn next(&mut self) -> Option<Result<GeometryType, Fault>> {
        match self.numbers.next() {
            None => None,
            Some(Err(e)) => Some(Err(e)),
            Some(Ok(number)) => Some(GeometryType::from_number(number)),
        }
    }
}
