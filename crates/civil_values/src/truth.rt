// Truth values.
ghost use Rattle.std.specs.Prelude.{◌≡◌};
ghost use Rattle.civil_values.specs.Truth.{bool_value, is_among, true_words, false_words};

fn says_yes(text: &str) -> bool
    ensures { result ≡ is_among true_words text.now }
{
    text.eq_ignore_ascii_case("true")
        || text.eq_ignore_ascii_case("t")
        || text.eq_ignore_ascii_case("yes")
        || text.eq_ignore_ascii_case("1")
}

fn says_no(text: &str) -> bool
    ensures { result ≡ is_among false_words text.now }
{
    text.eq_ignore_ascii_case("false")
        || text.eq_ignore_ascii_case("f")
        || text.eq_ignore_ascii_case("no")
        || text.eq_ignore_ascii_case("0")
}

/// The truth value that a text names: `true`, `t`, `yes`, `1`, `false`, `f`, `no` or `0`, in any ASCII case.
pub fn read_bool(text: &str) -> Option<bool>
    ensures { result ≡ bool_value text.now }
{
    if says_yes(text) {
        Some(true)
    } else if says_no(text) {
        Some(false)
    } else {
        None
    }
}
