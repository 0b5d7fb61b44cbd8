//! Packed times: their parts, their fields, their bytes and their values; and writers with a limit.
//!
//! The bytes are those of MySQL's "Date and Time Data Type Representation" for TIME, DATETIME and
//! TIMESTAMP columns with fractional seconds.

mod binary;
mod fields;
mod limit;
mod packed;

pub use binary::{
    Datetime2, Time2, Timestamp2, my_datetime_packed_from_binary, my_time_packed_from_binary,
    my_timestamp_from_binary,
};
pub use fields::{DateTimeFields, TimeFields, datetime_from_packed, time_from_packed};
pub use limit::{LimitWrite, LimitedWrite};
pub use packed::{
    DATETIMEF_INT_OFS, TIMEF_INT_OFS, TIMEF_OFS, my_packed_time_get_frac_part,
    my_packed_time_get_int_part, my_packed_time_make, my_packed_time_make_int,
};
