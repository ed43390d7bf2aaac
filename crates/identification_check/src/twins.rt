//! Tuples with the same values, and the facts that clash.
ghost use Rattle.std.specs.Prelude.{◌≡◌, ◌↔◌, ◌<◌, ◌+◌, ◌++◌, ◌∷◌, [], length, All, IsTrue, IfOk, OnOk, MatchOption};
ghost use Rattle.vocabulary.specs.declared.term.Fact.TheVariants.{Linked};
ghost use Rattle.identification_check.specs.Members.{AreFactsOf, AreTwinFacts, AreTwins, NoneAreTwins, shared_facts, twin_facts};

use std::alloc::{AllocError, Global};
use vocabulary::{ClassId, Fact, LinkId, List, Term};

fn same_terms(one: &[Term], two: &[Term]) -> bool
    ensures { IsTrue result ↔ (one.now ≡ two.now) }
{
    match one {
        [] => two.is_empty(),
        [s, one @ ..] => match two {
            [] => false,
            [t, two @ ..] => s.same(t) && same_terms(one, two),
        },
    }
}

// The place of the first tuple that has the same n terms in front as the next.
fn place_of_twins(tuples: &[List<Term>], n: usize) -> Option<usize>
    requires { All (λ tuple. length tuple ≡ n + 1) tuples.now }
    ensures { MatchOption result (NoneAreTwins n tuples.now) (λ at. (at + 1 < length tuples.now) × AreTwins n tuples.now at) }
{
    for at in 1..tuples.len() {
        let (one, two) = (tuples[at - 1].items(), tuples[at].items());
        if same_terms(&one[..n], &two[..n]) {
            return Some(at - 1);
        }
    }
    None
}

fn push_linked(
    alloc: Global,
    facts: &mut List<Fact>,
    link: LinkId,
    member: &Term,
    value: &Term,
) -> Result<(), AllocError>
    ensures { OnOk result (facts.new ≡ facts.old ++ Linked link member.now value.now ∷ []) }
{
    let fact = Fact::Linked(link, member.copy(alloc)?, value.copy(alloc)?);
    facts.push(fact)
}

// For each link the facts by which it joins both members to the value.
fn push_shared(
    alloc: Global,
    facts: &mut List<Fact>,
    links: &[LinkId],
    values: &[Term],
    one: &Term,
    two: &Term,
) -> Result<(), AllocError>
    ensures { OnOk result (facts.new ≡ facts.old ++ shared_facts links.now values.now one.now two.now) }
{
    match links {
        [] => Ok(()),
        [link, links @ ..] => match values {
            [] => Ok(()),
            [value, values @ ..] => {
                push_linked(alloc, facts, *link, one, value)?;
                push_linked(alloc, facts, *link, two, value)?;
                push_shared(alloc, facts, links, values, one, two)
            }
        },
    }
}

// The facts of two members that share these values, in the order in which they clash.
fn shared_by(
    alloc: Global,
    class: ClassId,
    links: &[LinkId],
    values: &[Term],
    one: &Term,
    two: &Term,
) -> Result<List<Fact>, AllocError>
    ensures { IfOk result (λ facts. facts ≡ twin_facts class links.now values.now one.now two.now) }
{
    let mut facts = List::new(alloc);
    facts.push(Fact::InClass(class, one.copy(alloc)?))?;
    facts.push(Fact::InClass(class, two.copy(alloc)?))?;
    push_shared(alloc, &mut facts, links, values, one, two)?;
    Ok(facts)
}

// The facts of two members, each behind its values, which are the same.
fn facts_of(
    alloc: Global,
    class: ClassId,
    links: &[LinkId],
    one: &[Term],
    two: &[Term],
) -> Result<List<Fact>, AllocError>
    requires one { length one.now ≡ length links.now + 1 }
    requires two { length two.now ≡ length links.now + 1 }
    ensures { IfOk result (AreFactsOf class links.now one.now two.now) }
{
    let n = links.len();
    shared_by(alloc, class, links, &one[..n], &one[n], &two[n])
}

/// The facts of the first tuple that has the same values as the next, and of the next; each tuple is a
/// value for each link and the member behind them.
pub(crate) fn twin_facts(
    alloc: Global,
    class: ClassId,
    links: &[LinkId],
    tuples: &[List<Term>],
) -> Result<Option<List<Fact>>, AllocError>
    requires { All (λ tuple. length tuple ≡ length links.now + 1) tuples.now }
    ensures { IfOk result (λ found. MatchOption found (NoneAreTwins (length links.now) tuples.now) (AreTwinFacts class links.now tuples.now)) }
{
    match place_of_twins(tuples, links.len()) {
        Some(at) => {
            let (one, two) = (tuples[at].items(), tuples[at + 1].items());
            Ok(Some(facts_of(alloc, class, links, one, two)?))
        }
        None => Ok(None),
    }
}
