// Whole numbers.
ghost use Rattle.std.specs.Prelude.{◌≡◌, ◌≤◌, ◌<◌, ◌^◌, take, drop};
ghost use Rattle.std.specs.Str.{IsAscii};
ghost use Rattle.std.specs.Fmt.{decimal};
ghost use Rattle.civil_values.specs.Numbers.{int_value, int_text};

/// The number that an optional sign and one digit or more spell, if it has 64 bits.
pub fn read_int(text: &str) -> Option<i64>
    ensures { result ≡ int_value text.now }
{
    text.parse::<i64>().ok()
}

// Writes the digits of a number to the end, and says where they begin.
fn write_digits(n: u64, digits: &mut [u8; 20]) -> usize
    ensures within { result ≤ 20 }
    ensures room { n < 10 ^ 19 → 1 ≤ result }
    ensures text { drop result digits.new ≡ decimal n }
{
    let mut rest = n;
    let mut at = 19;
    while rest >= 10 {
        digits[at] = b'0' + (rest % 10) as u8;
        rest /= 10;
        at -= 1;
    }
    digits[at] = b'0' + rest as u8;
    at
}

fn write_signed(n: i64, buf: &mut [u8; 20]) -> usize
    ensures within { result ≤ 20 }
    ensures text { take result buf.new ≡ int_text n }
{
    let mut digits = [0; 20];
    let start = write_digits(n.unsigned_abs(), &mut digits);
    let len = digits.len() - start;
    if n < 0 {
        buf[0] = b'-';
        buf[1..len + 1].copy_from_slice(&digits[start..]);
        len + 1
    } else {
        buf[..len].copy_from_slice(&digits[start..]);
        len
    }
}

/// Writes a number with no plus sign and no leading zeros, and says how many bytes it wrote.
pub fn write_int(n: i64, buf: &mut [u8; 20]) -> usize
    ensures within { result ≤ 20 }
    ensures text { take result buf.new ≡ int_text n }
    ensures ascii { IsAscii (take result buf.new) }
{
    write_signed(n, buf)
}
