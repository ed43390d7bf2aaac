// Days as `YYYY-MM-DD`.
ghost use Rattle.std.specs.Prelude.{◌≡◌, ◌<◌, IfSome, option_map};
ghost use Rattle.jiff_core.specs.Calendar.{IsEpochDay};
ghost use Rattle.civil_values.specs.Times.{day_number};
ghost use Rattle.civil_values.specs.TimeReader.{day_of, read_date, two_of};

use jiff::civil::Date;

/// The last year that a text may name. A text with an offset can still lie in the year after it.
const LAST_YEAR: u16 = 9998;

pub(crate) fn two_digits(high: u8, low: u8) -> Option<u8>
    ensures { result ≡ two_of high low }
{
    if high.is_ascii_digit() && low.is_ascii_digit() {
        Some((high - b'0') * 10 + (low - b'0'))
    } else {
        None
    }
}

// The number of a day of the years 0001 to 9998, where 1970-01-01 is 0.
fn date_number(year: u16, month: u8, day: u8) -> Option<i32>
    requires year { year < 10_000 }
    requires month { month < 100 }
    requires day { day < 100 }
    ensures value { result ≡ option_map day_number (read_date (record { year = year; month = month; day = day })) }
    ensures small { IfSome result IsEpochDay }
{
    if year > LAST_YEAR || year == 0 {
        return None;
    }
    match Date::new(year as i16, month as i8, day as i8) {
        Ok(date) => Some(date.to_plain().to_unix_epoch_day()),
        Err(_) => None,
    }
}

/// The number of the day that a text `YYYY-MM-DD` names.
pub(crate) fn read_day(text: &[u8]) -> Option<i32>
    ensures value { result ≡ option_map day_number (day_of text.now) }
    ensures small { IfSome result IsEpochDay }
{
    let [a, b, c, d, b'-', e, f, b'-', g, h] = text else {
        return None;
    };
    let century = two_digits(*a, *b)?;
    let year = two_digits(*c, *d)?;
    let month = two_digits(*e, *f)?;
    let day = two_digits(*g, *h)?;
    date_number(century as u16 * 100 + year as u16, month, day)
}
