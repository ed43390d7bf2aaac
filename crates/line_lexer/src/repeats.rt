//! Texts that stand twice.
ghost use Rattle.std.specs.Prelude.{◌≡◌, map};
ghost use Rattle.std.specs.List.{list_any};
ghost use Rattle.std.specs.Str.{bytes_eq};
ghost use Rattle.line_lexer.specs.Judging.{has_twice};

/// The texts that are still to be compared with those behind them.
#[derive(Drop)]
struct Left<'t, 'a> {
    texts: &'t [&'a str],
}

fn is_among(text: &str, texts: &[&str]) -> bool
    ensures { result ≡ list_any (λ other. bytes_eq text.now other.now) texts.now }
{
    texts.iter().any(|other| text == *other)
}

/// Whether a text stands twice.
pub fn has_twice(texts: &[&str]) -> bool
    ensures { result ≡ has_twice (map (λ text. text.now) texts.now) }
{
    let mut left = Left { texts };
    while let [text, behind @ ..] = left.texts {
        if is_among(text, behind) {
            return true;
        }
        left.texts = behind;
    }
    false
}
