//! Runs of bytes of one class at the front of a text.
ghost use Rattle.std.specs.Prelude.{◌≡◌, ◌≤◌, length};
ghost use Rattle.std.specs.List.{prefix_len};
ghost use Rattle.line_lexer.specs.Shapes.{begins_word};
ghost use Rattle.line_lexer.specs.Runs.{passes};

// A kind of bytes that stand together.
#[derive(Clone, Copy, Debug)]
pub(crate) enum Class {
    Blank,
    InWord,
    Digit,
    Unquoted,
}

impl Class {
    pub(crate) fn has(self, b: u8) -> bool
        ensures { result ≡ passes self b }
    {
        match self {
            Class::Blank => b == b' ' || b == b'\t',
            Class::InWord => begins_word(b) || (b'0' <= b && b <= b'9'),
            Class::Digit => b'0' <= b && b <= b'9',
            Class::Unquoted => b != b'"',
        }
    }
}

pub(crate) fn begins_word(b: u8) -> bool
    ensures { result ≡ begins_word b }
{
    (b'A' <= b && b <= b'Z') || (b'a' <= b && b <= b'z') || b == b'_'
}

// How many bytes at the front are of the class.
#[tactic(auto, using(std::proofs::lemmas::List::Sums::prefix_len_is))]
pub(crate) fn run(class: Class, text: &[u8]) -> usize
    ensures length { result ≡ prefix_len (passes class) text.now }
    ensures within { result ≤ length text.now }
{
    let mut count = 0;
    while count < text.len() {
        if !class.has(text[count]) {
            return count;
        }
        count += 1;
    }
    count
}
