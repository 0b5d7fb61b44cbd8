//! The fields of optional metadata that describe the columns of rows.

ghost use Rattle.std.specs.Prelude.{◌≡◌, ◌+◌, min, length, IfOk, IfErr, None, Some, []};
ghost use Rattle.binlog_base.specs.Items.{items, before_fault, first_fault};
ghost use Rattle.binlog_base.specs.Numbers.{lenenc};
ghost use Rattle.binlog_table.specs.Lists.{pair_with, Spends};
ghost use Rattle.binlog_table.specs.Keys.{key_items};
ghost use Rattle.binlog_table.specs.Extracted.{list_or, pair_bytes, IsStart};
ghost use Rattle.binlog_table.specs.Fields.{fields as fields_in, kept};
ghost use Rattle.binlog_table.specs.Steps.{up_to_fault};

use super::charsets::{DefaultCharset, IterCharset};
use super::fields::{OptionalMetadataField, OptionalMetadataIter};
use super::items::{Items, ListOf};
use super::keys::IterPrimaryKey;
use super::lists::{
    ColumnCharsets, ColumnNames, IterNames, PrimaryKeysWithPrefix, SimplePrimaryKey,
};
use binlog_base::bits::{BitIter, BitOrder, BitView};
use binlog_base::fault::Fault;
use std::marker::Model;

/// An iterator over the sign bits of the numeric columns.
pub type IterSignedness<'a> = BitIter<'a>;

/// An iterator over the names of the columns.
pub type IterColumnName<'a> = IterNames<'a>;

/// The fields of optional metadata that describe the columns of rows: the last field of each kind.
#[derive(Drop)]
pub struct OptionalMetaExtractor<'a> {
    signs: Option<BitView<'a>>,
    default: Option<DefaultCharset<'a>>,
    charsets: Option<ColumnCharsets<'a>>,
    names: Option<ColumnNames<'a>>,
    simple: Option<SimplePrimaryKey<'a>>,
    prefixed: Option<PrimaryKeysWithPrefix<'a>>,
    enum_default: Option<DefaultCharset<'a>>,
    enum_charsets: Option<ColumnCharsets<'a>>,
}

impl<'a> Model for OptionalMetaExtractor<'a> {
    ghost use Rattle.binlog_table.specs.Fields.{Kept};

    ghost Value = { Kept };

    ghost view = { λ x. record {
      signs = x.signs;
      default = x.default;
      charsets = x.charsets;
      names = x.names;
      simple = x.simple;
      prefixed = x.prefixed;
      enum_default = x.enum_default;
      enum_charsets = x.enum_charsets;
    } };
}

impl<'a> OptionalMetaExtractor<'a> {
    /// Takes the last field of each kind. Fails with the first fault if some item is a fault.
    pub fn new(fields: OptionalMetadataIter<'a>) -> Result<OptionalMetaExtractor<'a>, Fault>
        ensures whole { IfOk result (λ _. first_fault (fields_in fields.entry) ≡ None) }
        ensures last { IfOk result (λ x. x ≡ kept (before_fault (fields_in fields.entry))) }
        ensures fault { IfErr result (λ e. first_fault (fields_in fields.entry) ≡ Some e) }
    {
        let mut fields = fields;
        OptionalMetaExtractor::take_from(&mut fields)
    }

    /// Takes the last field of each kind from an iterator, which counts what is taken. Fails with
    /// the first fault if some item is a fault.
    pub fn take_from(
        fields: &mut OptionalMetadataIter<'a>,
    ) -> Result<OptionalMetaExtractor<'a>, Fault>
        ensures whole { IfOk result (λ _. first_fault (fields_in fields.old) ≡ None) }
        ensures last { IfOk result (λ x. x ≡ kept (before_fault (fields_in fields.old))) }
        ensures count { IfOk result (λ _. fields.new.left.taken
            ≡ fields.old.left.taken + length (fields_in fields.old)) }
        ensures read { fields.new.left.taken
            ≡ fields.old.left.taken + up_to_fault (fields_in fields.old) }
        ensures fault { IfErr result (λ e. first_fault (fields_in fields.old) ≡ Some e) }
        ensures spends { Spends fields.old.left.taken (length fields.old.left.bytes)
            fields.new.left.taken (length fields.new.left.bytes) }
    {
        let mut signs = None;
        let mut default = None;
        let mut charsets = None;
        let mut names = None;
        let mut simple = None;
        let mut prefixed = None;
        let mut enum_default = None;
        let mut enum_charsets = None;
        while let Some(item) = fields.take_field() {
            match item? {
                OptionalMetadataField::Signedness(bits) => signs = Some(bits),
                OptionalMetadataField::DefaultCharset(field) => default = Some(field),
                OptionalMetadataField::ColumnCharset(list) => charsets = Some(list),
                OptionalMetadataField::ColumnName(list) => names = Some(list),
                OptionalMetadataField::SimplePrimaryKey(list) => simple = Some(list),
                OptionalMetadataField::PrimaryKeyWithPrefix(list) => prefixed = Some(list),
                OptionalMetadataField::EnumAndSetDefaultCharset(field) => enum_default = Some(
                    field,
                ),
                OptionalMetadataField::EnumAndSetColumnCharset(list) => enum_charsets = Some(list),
                OptionalMetadataField::SetStrValue(_)
                | OptionalMetadataField::EnumStrValue(_)
                | OptionalMetadataField::GeometryType(_)
                | OptionalMetadataField::ColumnVisibility(_)
                | OptionalMetadataField::Dimensionality(_) => {}
            }
        }
        Ok(OptionalMetaExtractor {
            signs,
            default,
            charsets,
            names,
            simple,
            prefixed,
            enum_default,
            enum_charsets,
        })
    }

    // Returns what is kept if there are no fields.
    pub(super) fn none() -> Self
        ensures { result ≡ kept [] }
    {
        OptionalMetaExtractor {
            signs: None,
            default: None,
            charsets: None,
            names: None,
            simple: None,
            prefixed: None,
            enum_default: None,
            enum_charsets: None,
        }
    }

    /// Returns an iterator over the sign bits of the numeric columns, in order: set where a column
    /// is unsigned. There are none without such a field.
    pub fn iter_signedness(&self) -> IterSignedness<'a>
        ensures { result ≡ list_or self.now.signs }
    {
        match &self.signs {
            Some(bits) => bits.iter(),
            None => BitView::new(&[], 0, BitOrder::MostSignificantFirst).iter(),
        }
    }

    /// Returns an iterator over the numbers of the character sets of the character columns, in
    /// order, as `IterCharset` says.
    pub fn iter_charset(&self) -> IterCharset<'a>
        ensures start { IsStart self.now.default self.now.charsets result }
        ensures spends { Spends 0
            (length (pair_bytes self.now.default) + length (list_or self.now.charsets))
            result.taken result.room }
        ensures taken { result.taken ≡ min (length result.pairs) 1 }
    {
        group_of(&self.default, &self.charsets)
    }

    /// Returns an iterator over the numbers of the character sets of the ENUM and SET columns, in
    /// order, as `IterCharset` says.
    pub fn iter_enum_and_set_charset(&self) -> IterCharset<'a>
        ensures start { IsStart self.now.enum_default self.now.enum_charsets result }
        ensures spends { Spends 0
            (length (pair_bytes self.now.enum_default) + length (list_or self.now.enum_charsets))
            result.taken result.room }
        ensures taken { result.taken ≡ min (length result.pairs) 1 }
    {
        group_of(&self.enum_default, &self.enum_charsets)
    }

    /// Returns an iterator over the indexes of the columns of the primary key: those of the field
    /// without prefixes, then those of the field with prefixes.
    pub fn iter_primary_key(&self) -> IterPrimaryKey<'a>
        ensures spends { Spends 0
            (length (list_or self.now.simple) + length (list_or self.now.prefixed))
            result.taken result.room }
        ensures taken { result.taken ≡ min (length result.keys) 1 }
        ensures keys { result.keys ≡ key_items
            (items lenenc (list_or self.now.simple))
            (items (pair_with lenenc) (list_or self.now.prefixed)) }
    {
        IterPrimaryKey::new(list_or_empty(&self.simple), list_or_empty(&self.prefixed))
    }

    /// Returns an iterator over the names of the columns, in order, up to the first fault. There
    /// are none without such a field.
    pub fn iter_column_name(&self) -> IterColumnName<'a>
        ensures { result ≡ record { bytes = list_or self.now.names; taken = 0 } }
    {
        list_or_empty(&self.names)
    }
}

// Returns an iterator over the items of a list; over none if there is no list.
fn list_or_empty<'a, K>(list: &Option<ListOf<'a, K>>) -> Items<'a, K>
    ensures { result ≡ record { bytes = list_or list.now; taken = 0 } }
{
    match list {
        Some(list) => list.iter(),
        None => ListOf::new(&[]).iter(),
    }
}

// Returns the character sets that the two fields of a group give.
#[tactic(auto, using(binlog_base::specs::Lemmas::Items::items_none))]
fn group_of<'a>(
    default: &Option<DefaultCharset<'a>>,
    list: &Option<ColumnCharsets<'a>>,
) -> IterCharset<'a>
    ensures start { IsStart default.now list.now result }
    ensures spends { Spends 0 (length (pair_bytes default.now) + length (list_or list.now))
        result.taken result.room }
    ensures taken { result.taken ≡ min (length result.pairs) 1 }
{
    let list = list_or_empty(list);
    match default {
        None => IterCharset::new(None, list_or_empty(&None), list),
        Some(field) => {
            IterCharset::new(
                Some(field.default_charset()),
                field.iter_non_default(),
                list,
            )
        }
    }
}
