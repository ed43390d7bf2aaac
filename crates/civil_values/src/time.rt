// Times: a day, and a time of day with an offset behind it.
ghost use Rattle.std.specs.Prelude.{◌≡◌, ◌<◌, ℕ, ℤ, List, IfSome, IfNone, option_map, None, Some, MatchOption};
ghost use Rattle.jiff_core.specs.Calendar.{IsWithin};
ghost use Rattle.civil_values.specs.Times.{IsTime, IsTimeText, IsWritable, instant};
ghost use Rattle.civil_values.specs.TimeReader.{after_day, is_mark, placed_of, zone_of, moment_of, time_canonical};

use crate::clock::read_clock;
use crate::day::read_day;
use crate::offset::read_minutes;

/// An instant, in milliseconds from 1970-01-01T00:00 UTC.
#[derive(Clone, Copy, Debug, PartialEq, Eq)]
pub struct Millis(pub i64);

pub(crate) const DAY: i64 = 24 * 60 * 60 * 1000;

const MINUTE: i64 = 60 * 1000;

/// 0001-01-01T00:00 UTC.
const FIRST: i64 = -62_135_596_800_000;

/// How many bytes a day has.
const DAY_LEN: usize = 10;

// The offset behind a time of day, or the given one.
fn zone(given: i32, text: &[u8]) -> Option<i32>
    requires { IsWithin 840 given }
    ensures value { result ≡ zone_of given text.now }
    ensures near { IfSome result (IsWithin 840) }
{
    if text.is_empty() {
        Some(given)
    } else {
        read_minutes(text)
    }
}

fn is_mark_byte(b: u8) -> bool
    ensures { result ≡ is_mark b }
{
    matches!(b, b'T' | b't' | b' ')
}

// A time of day and the offset behind it: the milliseconds since midnight and the minutes ahead of UTC.
fn read_placed(given: i32, text: &[u8]) -> Option<(u32, i32)>
    requires { IsWithin 840 given }
    ensures value { result ≡ placed_of given text.now }
    ensures small { IfSome result (λ p. p.0 < 86_400_000) }
    ensures near { IfSome result (λ p. IsWithin 840 p.1) }
{
    let (clock, rest) = read_clock(text)?;
    let ahead = zone(given, rest)?;
    Some((clock, ahead))
}

// The same of what stands behind a day.
fn read_rest(given: i32, text: &[u8]) -> Option<(u32, i32)>
    requires { IsWithin 840 given }
    ensures value { result ≡ after_day given text.now }
    ensures small { IfSome result (λ p. p.0 < 86_400_000) }
    ensures near { IfSome result (λ p. IsWithin 840 p.1) }
{
    let [mark, rest @ ..] = text else {
        return Some((0, given));
    };
    if !is_mark_byte(*mark) {
        return None;
    }
    read_placed(given, rest)
}

// The instant that a text spells.
fn read_instant(text: &[u8], given: i32) -> Option<i64>
    requires { IsWithin 840 given }
    ensures value { result ≡ option_map instant (moment_of given text.now) }
    ensures near { IfSome result (IsWithin 400_000_000_000_000) }
{
    if text.len() < DAY_LEN {
        return None;
    }
    let (day, rest) = text.split_at(DAY_LEN);
    let day = read_day(day)?;
    let (clock, ahead) = read_rest(given, rest)?;
    Some(day as i64 * DAY + clock as i64 - ahead as i64 * MINUTE)
}

/// The instant that a text says: `YYYY-MM-DD` in the years 0001 to 9998, and maybe `T`, `t` or a space,
/// `HH:MM`, `:SS`, `.` and one to nine digits, and an offset as `read_offset` takes it. Where no offset
/// is named the given one holds, in minutes ahead of UTC.
pub fn read_time(text: &str, offset: i32) -> Option<Millis>
    requires { IsWithin 840 offset }
    ensures found { IfSome result (λ at. IsTime offset text.now at.0) }
    ensures writable { IfSome result (λ at. IsWritable at.0) }
    ensures none { IfNone result ((ms : ℤ) → IsTime offset text.now ms → ⊥) }
    ensures canonical { MatchOption result (time_canonical offset text.now ≡ None) (λ at. (written : List ℕ) → IsTimeText at.0 written → time_canonical offset text.now ≡ Some written) }
{
    let at = read_instant(text.as_bytes(), offset)?;
    if at < FIRST { None } else { Some(Millis(at)) }
}
