//! The rows event of MySQL's binary log, and its pairs of rows.

mod changed;
mod decode;
mod event;
mod kept;
mod rows;
mod types;

pub use changed::ChangedColumns;
pub use decode::{
    Decoded, decode_pairs, decode_pairs_of, pairs_by, pairs_by_shared, pairs_given,
    pairs_if_served, pairs_of,
};
pub use event::{RowsEvent, RowsEventCtx};
pub use kept::KeptPlan;
pub use rows::{LentPair, RowPair, RowsEventRows};
