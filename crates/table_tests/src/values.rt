//! Texts against the canonical texts of their values.
ghost use Rattle.jiff_core.specs.Calendar.{IsWithin};

use civil_values::{is_text, read_bool, read_int, read_offset, read_time, write_int, write_time};
use std::test::Fail;

// Times where none is said to be ahead of UTC.
const TIMES: &str = "2024-02-29 => 2024-02-29T00:00:00.000+00:00
2023-02-29 => none
2024-03-10 12:00+0100 => 2024-03-10T11:00:00.000+00:00
2024-01-01T00:00:00.123999999Z => 2024-01-01T00:00:00.123+00:00
2024-01-01T23:59:60Z => none
9998-12-31T23:30:00-01:00 => 9999-01-01T00:30:00.000+00:00
9999-01-01 => none
0001-01-01T00:00+01:00 => none
2024-01-01Z => none";

const NUMBERS: &str = "-0 => 0
+007 => 7
0000000000000000000000000000005 => 5
-9223372036854775808 => -9223372036854775808
9223372036854775808 => none
1.0 => none";

// The value of the text is written as the other, or it has none.
fn is_time(text: &str, offset: i32, want: &str) -> bool
    requires { IsWithin 840 offset }
{
    match read_time(text, offset) {
        Some(at) => {
            let mut room = [0; 29];
            write_time(at, &mut room);
            room.as_slice() == want.as_bytes()
        }
        None => want == "none",
    }
}

fn is_time_at_utc(case: &str) -> bool {
    match case.split_once(" => ") {
        Some((text, want)) => is_time(text, 0, want),
        None => false,
    }
}

fn is_number(case: &str) -> bool {
    match case.split_once(" => ") {
        Some((text, want)) => is_written(read_int(text), want),
        None => false,
    }
}

fn is_written(number: Option<i64>, want: &str) -> bool {
    match number {
        Some(n) => {
            let mut room = [0; 20];
            let len = write_int(n, &mut room);
            &room[..len] == want.as_bytes()
        }
        None => want == "none",
    }
}

#[test]
fn times_are_written_in_utc(rt: HostRuntime) -> Result<(), Fail> {
    for case in TIMES.split('\n') {
        assert!(rt; is_time_at_utc(case), "{case}");
    }
    assert!(rt; is_time("2024-03-11", 60, "2024-03-10T23:00:00.000+00:00"));
    Ok(())
}

#[test]
fn numbers_are_written_in_decimals(rt: HostRuntime) -> Result<(), Fail> {
    for case in NUMBERS.split('\n') {
        assert!(rt; is_number(case), "{case}");
    }
    Ok(())
}

fn are_truths() -> bool {
    read_bool("T") == Some(true) && read_bool("nO") == Some(false) && read_bool("y") == None
}

fn are_offsets() -> bool {
    read_offset("+14:00") == Some(840) && read_offset("+14:01") == None
}

#[test]
fn truths_offsets_and_texts_are_read(rt: HostRuntime) {
    assert!(rt; are_truths());
    assert!(rt; are_offsets());
    assert!(rt; is_text("a \u{20ac}") && !is_text("a\u{7}") && !is_text(""));
}
