//! Words that name a number: of the documents of `make`, and of the answer of `why`.
ghost use Rattle.std.specs.Prelude.{◌≡◌, ◌&&◌, nat_le, slice_index};
ghost use Rattle.onprom_core.specs.Commands.{count_named, docs_named, is_made, number_named};

use outside::Words;

/// The number of documents, where the words are those of `make`.
pub(crate) fn docs_named(words: &Words) -> Option<u32>
    ensures { result ≡ docs_named words.now }
{
    if words.len() != 3 || words.get(0) != "make" || !is_made(words.get(2)) {
        return None;
    }
    count_named(words.get(1), 100_000)
}

/// The number of the answer, where the words are those of `why`.
pub(crate) fn number_named(words: &Words) -> Option<u32>
    ensures { result ≡ number_named words.now }
{
    if words.len() != 4 || words.get(0) != "why" {
        return None;
    }
    count_named(words.get(3), 4_294_967_295)
}

fn is_made(name: &str) -> bool
    ensures { result ≡ is_made name.now }
{
    name == "project.txt" || name == "doc.csv" || name == "step.csv" || name == "summary"
}

// The number from 1 to the most of which the text is the decimal form, without a leading zero.
fn count_named(text: &str, most: u32) -> Option<u32>
    ensures { result ≡ count_named most text.now }
{
    if !begins(text.as_bytes()) {
        return None;
    }
    match text.parse::<u32>() {
        Ok(number) if 1 <= number && number <= most => Some(number),
        _ => None,
    }
}

// A digit but 0 stands first.
fn begins(text: &[u8]) -> bool
    ensures { result ≡ (nat_le 49 (slice_index text.now 0) && nat_le (slice_index text.now 0) 57) }
{
    match text.first() {
        Some(byte) => b'1' <= *byte && *byte <= b'9',
        None => false,
    }
}
