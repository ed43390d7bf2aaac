//! Which keys logs can have.
ghost use Rattle.std.specs.Prelude.{◌≡◌, ◌==◌};
ghost use Rattle.std.specs.List.{list_any};
ghost use Rattle.annotation_language.specs.Lines.{is_name_side, is_mandatory, is_bad_text, is_name_key, is_needed_key, is_bad_key};

use crate::notes::Rule;
use crate::places::same_side;
use civil_values::is_text;
use vocabulary::{Side, ValueKind};

// A text or an object.
pub(crate) fn is_name_side(side: Side) -> bool
    ensures { result ≡ is_name_side side }
{
    same_side(side, Side::Object) || same_side(side, Side::Value(ValueKind::Text))
}

fn is_mandatory(rule: Rule) -> bool
    ensures { result ≡ is_mandatory rule }
{
    match rule {
        Rule::Mandatory => true,
        Rule::Single => false,
        Rule::Many => false,
    }
}

// An empty text, `object`, or one with a `#` or a character outside XML 1.0.
#[tactic(auto, using(crate::proofs::BadTexts::bad_parts))]
fn is_bad_text(key: &str) -> bool
    ensures { result ≡ is_bad_text key.now }
{
    !is_text(key) || key == "object" || has_number_sign(key)
}

fn has_number_sign(key: &str) -> bool
    ensures { result ≡ list_any (λ b. b == 35) key.now }
{
    key.as_bytes().iter().any(|b| *b == b'#')
}

fn is_name_key(key: &str) -> bool
    ensures { result ≡ is_name_key key.now }
{
    key == "concept:name" || key == "org:resource" || key == "lifecycle:transition"
}

fn is_needed_key(key: &str) -> bool
    ensures { result ≡ is_needed_key key.now }
{
    key == "concept:name" || key == "time:timestamp"
}

/// A key that logs cannot have with this rule and values of this sort.
pub(crate) fn is_bad_key(key: &str, rule: Rule, side: Side) -> bool
    ensures { result ≡ is_bad_key key.now rule side }
{
    is_bad_text(key)
        || (key == "time:timestamp" && !same_side(side, Side::Value(ValueKind::Time)))
        || (is_name_key(key) && !is_name_side(side))
        || (is_needed_key(key) && !is_mandatory(rule))
}
