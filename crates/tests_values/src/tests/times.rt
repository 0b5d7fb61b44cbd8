//! Tests of dates and times, and of their text.

use super::all;
use binlog_values::time::{MysqlTime, MysqlTimestampType};
use std::fmt;
use std::fmt::Write;
use std::test::Fail;

const NOON: i64 = 110_137_624_448 << 24;

// Returns whether `write_text` appends the wanted text to a string that isn't empty.
fn writes(rt: &HostRuntime, time: &MysqlTime, decimals: usize, wanted: &str) -> Result<bool, Fail> {
    let mut text = String::from_str(rt.alloc(), "old")?;
    time.write_text(decimals, &mut text)?;
    Ok(text.as_str().strip_prefix("old") == Some(wanted))
}

fn shows(rt: &HostRuntime, time: &MysqlTime, wanted: &str) -> Result<bool, Fail> {
    let text = format!(in rt.alloc(); "{time}")?;
    Ok(text.as_str() == wanted)
}

fn zoned(displacement: i32) -> MysqlTime {
    let mut time = MysqlTime::from_int64_datetime_packed(NOON);
    time.time_type = MysqlTimestampType::MYSQL_TIMESTAMP_DATETIME_TZ;
    time.time_zone_displacement = displacement;
    time
}

fn long(minute: u32) -> MysqlTime {
    let mut time = MysqlTime::from_int64_time_packed(0);
    time.hour = 838;
    time.minute = minute;
    time.second = 59;
    time
}

#[test]
fn types_have_their_numbers(rt: HostRuntime) {
    let numbered = [
        (MysqlTimestampType::MYSQL_TIMESTAMP_NONE, -2),
        (MysqlTimestampType::MYSQL_TIMESTAMP_ERROR, -1),
        (MysqlTimestampType::MYSQL_TIMESTAMP_DATE, 0),
        (MysqlTimestampType::MYSQL_TIMESTAMP_DATETIME, 1),
        (MysqlTimestampType::MYSQL_TIMESTAMP_TIME, 2),
        (MysqlTimestampType::MYSQL_TIMESTAMP_DATETIME_TZ, 3),
    ];
    for (time_type, number) in numbered {
        assert!(rt; time_type as i32 == number);
    }
}

#[test]
fn datetimes_are_shown(rt: HostRuntime) -> Result<(), Fail> {
    let time = MysqlTime::from_int64_datetime_packed(NOON);
    assert!(rt; shows(&rt, &time, "2019-11-27 12:30:00")?);
    assert!(rt; writes(&rt, &time, 3, "2019-11-27 12:30:00.000")?);
    Ok(())
}

#[test]
fn zones_are_shown(rt: HostRuntime) -> Result<(), Fail> {
    assert!(rt; shows(&rt, &zoned(-5400), "2019-11-27 12:30:00+-1:30")?);
    assert!(rt; shows(&rt, &zoned(i32::MIN), "2019-11-27 12:30:00+-596523:14")?);
    assert!(rt;
        writes(
            &rt,
            &zoned(i32::MIN),
            6,
            "2019-11-27 12:30:00.000000+-596523:14"
        )?
    );
    Ok(())
}

#[test]
fn times_are_shown(rt: HostRuntime) -> Result<(), Fail> {
    let time = MysqlTime::from_int64_time_packed(-100_000);
    assert!(rt; shows(&rt, &time, "-00:00:00")?);
    assert!(rt; writes(&rt, &time, 2, "-00:00:00.10")?);
    assert!(rt; writes(&rt, &time, 9, "-00:00:00.100000")?);
    Ok(())
}

#[test]
fn long_times_are_shown(rt: HostRuntime) -> Result<(), Fail> {
    assert!(rt; shows(&rt, &long(59), "838:59:59")?);
    assert!(rt; shows(&rt, &long(100), "838:00:59")?);
    Ok(())
}

#[test]
fn dates_are_shown(rt: HostRuntime) -> Result<(), Fail> {
    let mut date = MysqlTime::from_int64_date_packed(0);
    date.year = 12345;
    date.month = 1;
    date.day = 2;
    assert!(rt; shows(&rt, &date, "0045-01-02")?);
    date.time_type = MysqlTimestampType::MYSQL_TIMESTAMP_NONE;
    assert!(rt; shows(&rt, &date, "")?);
    Ok(())
}

// A writer that takes no text.
#[derive(Drop)]
struct Full;

impl fmt::Write for Full {
    fn write_str(&mut self, _text: &str) -> fmt::Result {
        Err(fmt::Error)
    }
}

fn fits_nowhere(time: &MysqlTime) -> bool {
    let mut full = Full;
    write!(full, "{time}").is_err()
}

#[test]
fn empty_texts_call_no_writer(rt: HostRuntime) {
    let mut time = MysqlTime::from_int64_datetime_packed(NOON);
    assert!(rt; fits_nowhere(&time));
    time.time_type = MysqlTimestampType::MYSQL_TIMESTAMP_NONE;
    assert!(rt; !fits_nowhere(&time));
    time.time_type = MysqlTimestampType::MYSQL_TIMESTAMP_ERROR;
    assert!(rt; !fits_nowhere(&time));
}

#[test]
fn times_are_compared(rt: HostRuntime) -> Result<(), Fail> {
    let time = zoned(60);
    let same = time;
    assert!(rt; all(&[same == time, time != zoned(0)]));
    Ok(())
}
