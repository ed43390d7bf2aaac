// Times of day as `HH:MM`, `HH:MM:SS` or `HH:MM:SS.f`. Each reader gives the milliseconds and the text behind.
ghost use Rattle.std.specs.Prelude.{◌≡◌, ◌<◌, IfSome, option_map};
ghost use Rattle.std.specs.Char.{is_ascii_digit};
ghost use Rattle.std.specs.List.{prefix_len, All};
ghost use Rattle.civil_values.specs.Times.{IsDigit, kept};
ghost use Rattle.civil_values.specs.TimeReader.{fraction_of, seconds_of, clock_of};

use crate::day::two_digits;

const SECOND: u32 = 1000;

const MINUTE: u32 = 60 * 1000;

const HOUR: u32 = 60 * 60 * 1000;

fn count_digits(text: &[u8]) -> usize
    ensures { result ≡ prefix_len is_ascii_digit text.now }
{
    for (i, b) in text.iter().enumerate() {
        if !b.is_ascii_digit() {
            return i;
        }
    }
    text.len()
}

// The milliseconds of a fraction of a second: its first three digits, those that are not there as zeros.
fn milliseconds(digits: &[u8]) -> u32
    requires { All IsDigit digits.now }
    ensures value { result ≡ kept digits.now }
    ensures small { result < 1000 }
{
    let digit = |i: usize| match digits.get(i) {
        Some(b) => (*b - b'0') as u32,
        None => 0,
    };
    digit(0) * 100 + digit(1) * 10 + digit(2)
}

fn read_fraction(text: &[u8]) -> Option<(u32, &[u8])>
    ensures value { option_map (λ p. (p.0, p.1.now)) result ≡ fraction_of text.now }
    ensures small { IfSome result (λ p. p.0 < 1000) }
{
    let [b'.', rest @ ..] = text else {
        return Some((0, text));
    };
    let digits = count_digits(rest);
    if digits < 1 || digits > 9 {
        return None;
    }
    Some((milliseconds(&rest[..digits]), &rest[digits..]))
}

fn read_seconds(text: &[u8]) -> Option<(u32, &[u8])>
    ensures value { option_map (λ p. (p.0, p.1.now)) result ≡ seconds_of text.now }
    ensures small { IfSome result (λ p. p.0 < 60_000) }
{
    let [b':', a, b, rest @ ..] = text else {
        return if text.first() == Some(&b':') {
            None
        } else {
            Some((0, text))
        };
    };
    let seconds = two_digits(*a, *b)?;
    if seconds >= 60 {
        return None;
    }
    let (part, rest) = read_fraction(rest)?;
    Some((seconds as u32 * SECOND + part, rest))
}

/// The time of day with which a text begins.
pub(crate) fn read_clock(text: &[u8]) -> Option<(u32, &[u8])>
    ensures value { option_map (λ p. (p.0, p.1.now)) result ≡ clock_of text.now }
    ensures small { IfSome result (λ p. p.0 < 86_400_000) }
{
    let [a, b, b':', c, d, rest @ ..] = text else {
        return None;
    };
    let hour = two_digits(*a, *b)?;
    let minute = two_digits(*c, *d)?;
    if hour >= 24 || minute >= 60 {
        return None;
    }
    let (seconds, rest) = read_seconds(rest)?;
    Some((hour as u32 * HOUR + minute as u32 * MINUTE + seconds, rest))
}
