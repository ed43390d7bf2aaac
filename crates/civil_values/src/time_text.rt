// The text that an instant is written as.
ghost use Rattle.std.specs.Prelude.{◌≡◌, ◌<◌, ◌≤◌, ◌+◌, ◌/◌, ◌%◌};
ghost use Rattle.std.specs.Str.{IsAscii};
ghost use Rattle.civil_values.specs.Times.{IsTimeText, IsWritable, utc_text};

use crate::time::{DAY, Millis};
use jiff_core::civil::Date;

fn tens(n: u32) -> u8
    requires { n < 100 }
    ensures { result ≡ 48 + n / 10 }
{
    b'0' + (n / 10) as u8
}

fn ones(n: u32) -> u8
    ensures { result ≡ 48 + n % 10 }
{
    b'0' + (n % 10) as u8
}

// The text of a day and the milliseconds since its midnight, in UTC.
fn utc(year: u32, month: u32, day: u32, clock: u32) -> [u8; 29]
    requires year { year < 10_000 }
    requires month { month < 100 }
    requires day { day < 100 }
    requires clock { clock < 86_400_000 }
    ensures { result ≡ utc_text (record { year = year; month = month; day = day }) clock }
{
    let (century, year) = (year / 100, year % 100);
    let hour = clock / 3_600_000;
    let minute = clock / 60_000 % 60;
    let second = clock / 1000 % 60;
    let part = clock % 1000;
    [
        tens(century),
        ones(century),
        tens(year),
        ones(year),
        b'-',
        tens(month),
        ones(month),
        b'-',
        tens(day),
        ones(day),
        b'T',
        tens(hour),
        ones(hour),
        b':',
        tens(minute),
        ones(minute),
        b':',
        tens(second),
        ones(second),
        b'.',
        b'0' + (part / 100) as u8,
        tens(part % 100),
        ones(part % 100),
        b'+',
        b'0',
        b'0',
        b':',
        b'0',
        b'0',
    ]
}

/// Writes an instant of the years 0001 to 9999 as `YYYY-MM-DDTHH:MM:SS.mmm+00:00`.
pub fn write_time(at: Millis, buf: &mut [u8; 29])
    requires { IsWritable at.0 }
    ensures text { IsTimeText at.0 buf.new }
    ensures ascii { IsAscii buf.new }
{
    let date = Date::from_unix_epoch_day(at.0.div_euclid(DAY)).unwrap();
    let clock = at.0.rem_euclid(DAY) as u32;
    *buf = utc(date.year as u32, date.month as u32, date.day as u32, clock);
}
