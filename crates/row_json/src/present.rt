//! The columns of images, found out once for all images with the same bitmap.

ghost use Rattle.std.specs.Prelude.{◌≡◌, ◌++◌, [], OnOk, slice_index_or, false};
ghost use Rattle.std.specs.Option.{option_map};
ghost use Rattle.mysql_binlog_rows.specs.RowsEvent.{image_columns};
ghost use Rattle.binlog_base.specs.Bits.{bits_of};
ghost use Rattle.binlog_base.specs.declared.bits.BitOrder.TheVariants.{LeastSignificantFirst};
ghost use Rattle.row_json.specs.Columns.{set_from};
ghost use Rattle.row_json.specs.Rows.{present_in, before_in, after_in};
ghost use Rattle.row_json.specs.Workings.Places.{HoldsFor};

use binlog_base::below::same_bytes;
use binlog_base::bits::BitView;
use mysql_binlog_rows::rows_event::RowsEvent;
use std::alloc::{AllocError, Global};
use std::marker::Model;
use std::mem;

// Returns whether a column is in an image.
fn is_present(present: &BitView<'_>, index: usize) -> bool
    ensures { result ≡ slice_index_or present.now index false }
{
    present.get(index).unwrap_or(false)
}

/// Adds the numbers of the bits that are set.
pub(crate) fn push_set(places: &mut Vec<usize>, bits: &BitView<'_>) -> Result<(), AllocError>
    ensures { OnOk result (places.new.items ≡ places.old.items ++ set_from 0 bits.now) }
{
    for index in 0..bits.len() {
        if is_present(bits, index) {
            places.push(index)?;
        }
    }
    Ok(())
}

/// The columns of the last image, kept for images with the same bitmap. Contracts see its bits.
#[derive(Drop)]
pub(crate) struct KeptColumns {
    count: u64,
    bitmap: Vec<u8>,
    places: Vec<usize>,
}

impl Model for KeptColumns {
    ghost use Rattle.std.specs.Prelude.{◌≡◌, List, Bool};
    ghost use Rattle.binlog_base.specs.Bits.{bits_of};
    ghost use Rattle.binlog_base.specs.declared.bits.BitOrder.TheVariants.{LeastSignificantFirst};
    ghost use Rattle.row_json.specs.Columns.{set_from};

    ghost Value = { List Bool };

    ghost view = { λ k. bits_of LeastSignificantFirst k.count k.bitmap.items };

    ghost invariant = { λ k. k.places.items
        ≡ set_from 0 (bits_of LeastSignificantFirst k.count k.bitmap.items) };
}

impl KeptColumns {
    /// Keeps the columns of no image.
    pub(crate) fn new(alloc: Global) -> KeptColumns
        ensures { result ≡ [] }
    {
        KeptColumns {
            count: 0,
            bitmap: Vec::new(alloc),
            places: Vec::new(alloc),
        }
    }

    // Finds out which columns are in an image with this bitmap, and keeps them.
    #[inline(never)]
    fn find(
        &mut self,
        alloc: Global,
        count: u64,
        bitmap: &[u8],
        bits: &BitView<'_>,
    ) -> Result<(), AllocError>
        requires { bits.now ≡ bits_of LeastSignificantFirst count bitmap.now }
        ensures { OnOk result (self.new ≡ bits.now) }
    {
        let mut places = mem::replace(&mut self.places, Vec::new(alloc));
        self.count = 0;
        self.bitmap.clear();
        places.clear();
        push_set(&mut places, bits)?;
        self.bitmap.extend_from_slice(bitmap)?;
        self.count = count;
        self.places = places;
        Ok(())
    }

    // Keeps the columns of an image with this bitmap and these bits. Where the event has no such image,
    // it has no bits.
    #[inline(always)]
    fn keep(
        &mut self,
        alloc: Global,
        count: u64,
        bitmap: Option<&[u8]>,
        bits: &BitView<'_>,
    ) -> Result<(), AllocError>
        requires { bits.now ≡ present_in
            (image_columns count (option_map (λ b. b.now) bitmap)) }
        ensures { OnOk result (HoldsFor self.new bits.now) }
    {
        match bitmap {
            None => Ok(()),
            Some(bitmap) if self.count == count && same_bytes(&self.bitmap, bitmap) => Ok(()),
            Some(bitmap) => self.find(alloc, count, bitmap, bits),
        }
    }

    // Returns the numbers of the columns with these bits.
    #[inline(always)]
    fn places(&self, bits: &BitView<'_>) -> &[usize]
        requires { HoldsFor self.now bits.now }
        ensures { result.now ≡ set_from 0 bits.now }
    {
        if bits.is_empty() { &[] } else { &self.places }
    }
}

/// The columns of the last image before a change, and of the last image after one.
#[derive(Drop)]
pub(crate) struct ImageColumns {
    before: KeptColumns,
    after: KeptColumns,
}

impl ImageColumns {
    /// Keeps no columns.
    pub(crate) fn new(alloc: Global) -> ImageColumns {
        ImageColumns {
            before: KeptColumns::new(alloc),
            after: KeptColumns::new(alloc),
        }
    }

    /// Keeps the columns of the images of an event, which have these bits.
    #[inline(always)]
    pub(crate) fn keep(
        &mut self,
        alloc: Global,
        event: &RowsEvent<'_>,
        before: &BitView<'_>,
        after: &BitView<'_>,
    ) -> Result<(), AllocError>
        requires before { before.now ≡ before_in event.now }
        requires after { after.now ≡ after_in event.now }
        ensures before { OnOk result (HoldsFor self.new.before before.now) }
        ensures after { OnOk result (HoldsFor self.new.after after.now) }
    {
        let count = event.num_columns();
        self.before
            .keep(alloc, count, event.bitmap_before(), before)?;
        self.after.keep(alloc, count, event.bitmap_after(), after)
    }

    /// Returns the numbers of the columns of the images before the change, which have these bits.
    #[inline(always)]
    pub(crate) fn places_before(&self, bits: &BitView<'_>) -> &[usize]
        requires { HoldsFor self.now.before bits.now }
        ensures { result.now ≡ set_from 0 bits.now }
    {
        self.before.places(bits)
    }

    /// Returns the numbers of the columns of the images after the change, which have these bits.
    #[inline(always)]
    pub(crate) fn places_after(&self, bits: &BitView<'_>) -> &[usize]
        requires { HoldsFor self.now.after bits.now }
        ensures { result.now ≡ set_from 0 bits.now }
    {
        self.after.places(bits)
    }
}
