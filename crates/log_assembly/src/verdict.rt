//! Which objects are events of the log, and why others are not.
ghost use Rattle.std.specs.Prelude.{◌≡◌, IfOk, option_copied};
ghost use Rattle.log_assembly.specs.Judged.{dropped, first_unmet, is_dropped, is_kept, is_met, verdict_of, why_of};

use crate::attributes::Attribute;
use crate::lent::LentIri;
use annotation_language::Rule;
use std::alloc::{AllocError, Global};
use vocabulary::{List, Name};

/// Why an event is left out: it has no case, or no value or several of this mandatory key.
#[derive(Debug, Drop)]
pub enum Why {
    NoCase,
    NoValue(Name),
    SeveralValues(Name),
}

/// An event is kept, and these single keys of it have several values; or it is left out.
#[derive(Debug, Drop)]
pub enum Verdict {
    Kept(List<Name>),
    Left(Why),
}

/// An object and what becomes of it.
#[derive(Debug, Drop)]
pub struct Judgement {
    pub object: Name,
    pub verdict: Verdict,
}

impl Attribute<'_> {
    fn is_met(&self) -> bool
        ensures { result ≡ is_met self.now }
    {
        match self.rule {
            Rule::Mandatory => self.values.len() == 1,
            Rule::Single | Rule::Many => true,
        }
    }

    fn is_dropped(&self) -> bool
        ensures { result ≡ is_dropped self.now }
    {
        match self.rule {
            Rule::Single => self.values.len() > 1,
            Rule::Mandatory | Rule::Many => false,
        }
    }

    // For a mandatory key that does not have exactly one value.
    fn why(&self, alloc: Global) -> Result<Why, AllocError>
        ensures { IfOk result (λ why. why ≡ why_of self.now) }
    {
        let key = self.key.name().copy(alloc)?;
        if self.values.is_empty() {
            Ok(Why::NoValue(key))
        } else {
            Ok(Why::SeveralValues(key))
        }
    }
}

fn first_unmet<'a, 'b>(attributes: &'b [Attribute<'a>]) -> Option<&'b Attribute<'a>>
    ensures { option_copied result ≡ first_unmet attributes.now }
{
    attributes.iter().find(|attribute| !attribute.is_met())
}

/// Whether an object with these keys and cases is an event of the log.
pub(crate) fn is_kept(attributes: &[Attribute<'_>], cases: &[LentIri<'_>]) -> bool
    ensures { result ≡ is_kept attributes.now cases.now }
{
    !cases.is_empty() && first_unmet(attributes).is_none()
}

fn dropped(alloc: Global, attributes: &[Attribute<'_>]) -> Result<Vec<Name>, AllocError>
    ensures { IfOk result (λ v. v.items ≡ dropped attributes.now) }
{
    let mut keys = Vec::new(alloc);
    for attribute in attributes {
        if attribute.is_dropped() {
            keys.push(attribute.key.name().copy(alloc)?)?;
        }
    }
    Ok(keys)
}

/// What becomes of an object with these keys and cases.
pub(crate) fn judge(
    alloc: Global,
    attributes: &[Attribute<'_>],
    cases: &[LentIri<'_>],
) -> Result<Verdict, AllocError>
    ensures { IfOk result (λ verdict. verdict ≡ verdict_of attributes.now cases.now) }
{
    if cases.is_empty() {
        return Ok(Verdict::Left(Why::NoCase));
    }
    match first_unmet(attributes) {
        Some(unmet) => Ok(Verdict::Left(unmet.why(alloc)?)),
        None => Ok(Verdict::Kept(List::from_vec(dropped(alloc, attributes)?))),
    }
}
