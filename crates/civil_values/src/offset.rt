// Offsets from UTC.
ghost use Rattle.std.specs.Prelude.{◌≡◌, ◌<◌, IfSome, IfNone, ℤ};
ghost use Rattle.jiff_core.specs.Calendar.{IsWithin};
ghost use Rattle.civil_values.specs.Times.{IsOffset};
ghost use Rattle.civil_values.specs.TimeReader.{offset_of, span_of};

use crate::day::two_digits;

/// 14 hours, the most that a clock may be ahead of UTC or behind it.
const MOST: u32 = 14 * 60;

fn span(sign: u8, hours: u8, minutes: u8) -> Option<i32>
    requires hours { hours < 100 }
    requires minutes { minutes < 100 }
    ensures value { result ≡ span_of sign hours minutes }
    ensures near { IfSome result (IsWithin 840) }
{
    let all = hours as u32 * 60 + minutes as u32;
    if minutes >= 60 || all > MOST {
        return None;
    }
    match sign {
        b'+' => Some(all as i32),
        b'-' => Some(-(all as i32)),
        _ => None,
    }
}

pub(crate) fn read_minutes(text: &[u8]) -> Option<i32>
    ensures value { result ≡ offset_of text.now }
    ensures near { IfSome result (IsWithin 840) }
{
    match text {
        [b'Z' | b'z'] => Some(0),
        [sign, a, b] => span(*sign, two_digits(*a, *b)?, 0),
        [sign, a, b, c, d] => span(*sign, two_digits(*a, *b)?, two_digits(*c, *d)?),
        [sign, a, b, b':', c, d] => span(*sign, two_digits(*a, *b)?, two_digits(*c, *d)?),
        _ => None,
    }
}

/// The offset that a text spells, in minutes ahead of UTC: `Z`, `z`, or a sign and `HH`, `HHMM` or
/// `HH:MM`, at most 14 hours.
pub fn read_offset(text: &str) -> Option<i32>
    ensures found { IfSome result (IsOffset text.now) }
    ensures none { IfNone result ((minutes : ℤ) → IsOffset text.now minutes → ⊥) }
    ensures value { result ≡ offset_of text.now }
    ensures near { IfSome result (IsWithin 840) }
{
    read_minutes(text.as_bytes())
}
