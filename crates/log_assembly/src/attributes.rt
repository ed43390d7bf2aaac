//! The keys of an object with their values.
ghost use Rattle.std.specs.Prelude.{◌≡◌, ◌∷◌, [], IfOk};
ghost use Rattle.std.specs.List.{All};
ghost use Rattle.log_assembly.specs.Answered.{InOrder};
ghost use Rattle.log_assembly.specs.Found.{attribute_of, attributes_of, values_from};

use crate::lent::{LentName, LentTerm};
use crate::lookup::values_at;
use crate::places::{keep_place, place_at};
use annotation_language::{KeyNote, KeySource, Rule};
use certain_answers::Answers;
use std::alloc::{AllocError, Global};
use vocabulary::{List, Term};

/// A key of an object with all its values in order.
#[derive(Debug, Drop)]
pub struct Attribute<'a> {
    pub key: LentName<'a>,
    pub rule: Rule,
    pub values: List<LentTerm<'a>>,
}

fn values_from<'a>(
    alloc: Global,
    source: &'a KeySource,
    answers: &'a Answers,
    object: &Term,
    near: &mut usize,
) -> Result<Vec<LentTerm<'a>>, AllocError>
    requires { InOrder answers.now }
    ensures { IfOk result (λ v. v.items ≡ values_from source.now object.now answers.now) }
{
    match source {
        KeySource::Fixed(kind, text) => {
            let mut values = Vec::with_capacity(alloc, 1)?;
            values.push(LentTerm::value(*kind, text))?;
            Ok(values)
        }
        KeySource::Asked(_, _) => values_at(alloc, answers, object, near),
    }
}

fn attribute_at<'a>(
    alloc: Global,
    key: &'a KeyNote,
    answers: &'a Answers,
    object: &Term,
    near: &mut usize,
) -> Result<Attribute<'a>, AllocError>
    requires { InOrder answers.now }
    ensures { IfOk result (λ a. a ≡ attribute_of object.now key.now answers.now) }
{
    let values = values_from(alloc, &key.source, answers, object, near)?;
    Ok(Attribute {
        key: LentName::of(&key.key),
        rule: key.rule,
        values: List::from_vec(values),
    })
}

/// The keys of the object with their values, in the order of the keys. The places of the keys have the
/// numbers from `from` on.
pub(crate) fn attributes<'a>(
    alloc: Global,
    keys: &'a [KeyNote],
    answers: &'a [Answers],
    object: &Term,
    places: &mut [usize],
    from: usize,
) -> Result<Vec<Attribute<'a>>, AllocError>
    requires { All InOrder answers.now }
    ensures { IfOk result (λ v. v.items ≡ attributes_of object.now keys.now answers.now) }
{
    let mut found = Vec::with_capacity(alloc, keys.len())?;
    let mut at = 0;
    while at < keys.len() && at < answers.len() {
        let number = from.saturating_add(at);
        let mut near = place_at(places, number);
        found.push(attribute_at(alloc, &keys[at], &answers[at], object, &mut near)?)?;
        keep_place(places, number, near);
        at += 1;
    }
    Ok(found)
}
