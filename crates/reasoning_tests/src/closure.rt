//! Small models: what lies below, what is under, the sources, and plans that are run.
ghost use Rattle.negative_closure.specs.Sources.{HasExactSources};
ghost use Rattle.dllite_axioms.specs.Within.{IsConstraintWithin};

use crate::within::{downs_of, has_exact_sources, is_constraint_within, is_within};
use crate::written::{basic, constraint, dir, fact, link, tbox};
use dllite_axioms::{Constraint, Tbox, apply, clash};
use negative_closure::{Downs, Plan, Source};
use std::alloc::{AllocError, Global};
use std::test::Fail;
use vocabulary::{Fact, List};

// Each A0 is linked to something, what it is linked to is an A1, and each A1 is an A2.
const EXAMPLE: &str = "p0 < A0, p0- < A1, A0 < p0, A1 < A2";

// Two classes that lie below each other.
const CIRCLE: &str = "A0 < A1, A1 < A0";

// Each A0 has a filler of link 2, whose facts are facts of 0 and of 1.
const LINKS: &str = "A0 < p2, p2 << p0, p2 << p1";

// What is owned by an owner (p1), the owner owns (p0).
const OWNING: &str = "p1- << p0";

// A constraint and two facts, and how many sources the constraint has and how many of them the facts meet.
// Where no A1 is an A2, one A0 alone is a contradiction on fresh terms, and one link too.
const OF_EXAMPLE: &str = "A1 # A2; A0 a; A0 a => 10 1
A1 # A2; A1 a; A1 a => 10 2
A1 # A2; p0 a b; p0 a b => 10 3
A1 # A2; A0 a; A1 a => 10 0";

const OF_CIRCLE: &str = "A0 # A1; A0 a; A0 a => 6 2
A0 # A1; A1 a; A0 a => 6 1";

// Two known fillers clash without any axiom.
const OF_NONE: &str = "one p0; p0 a b; p0 a c => 1 1
one p0; p0 a b; p0 a b => 1 0";

// No two are joined by both links.
const OF_LINKS: &str = "p0 ## p1; A0 a; A0 a => 7 1
p0 ## p1; p2 a b; p2 a b => 7 3
p0 ## p1; p0 a b; p1 a b => 7 1
p0 ## p1; p1 a b; p0 a b => 7 0";

fn are_below(alloc: Global, downs: &Downs, word: &str, want: &str) -> Result<bool, AllocError> {
    let basic = basic(word);
    if !is_within(basic, downs.classes(), downs.links()) {
        return Ok(false);
    }
    Ok(format!(in alloc; "{:?}", downs.below(basic))?.as_str() == want)
}

// The numbers of axioms that lead from one basic to the other.
fn is_chain(
    alloc: Global,
    downs: &Downs,
    from: &str,
    to: &str,
    want: &str,
) -> Result<bool, AllocError> {
    let to = basic(to);
    if !is_within(to, downs.classes(), downs.links()) {
        return Ok(false);
    }
    let numbers = downs.chain(alloc, basic(from), to)?;
    are_numbers(alloc, &numbers, want)
}

fn are_numbers(alloc: Global, numbers: &Option<List<u32>>, want: &str) -> Result<bool, AllocError> {
    match numbers {
        Some(numbers) => Ok(format!(in alloc; "{:?}", numbers.items())?.as_str() == want),
        None => Ok(want == "none"),
    }
}

#[test]
fn finds_what_lies_below(rt: HostRuntime) -> Result<(), Fail> {
    let tbox = tbox(rt.alloc(), EXAMPLE)?;
    let downs = downs_of(rt.alloc(), &tbox, 3, 1)?;
    let below = "[Class(ClassId(1)), Class(ClassId(2)), Has(LinkId(0), Back)]";
    assert!(rt; are_below(rt.alloc(), &downs, "A2", below)?);
    assert!(rt; is_chain(rt.alloc(), &downs, "p0-", "A2", "[1, 3]")?);
    assert!(rt; is_chain(rt.alloc(), &downs, "A0", "A2", "none")?);
    Ok(())
}

fn are_under(alloc: Global, downs: &Downs, word: &str, want: &str) -> Result<bool, AllocError> {
    let link = link(word);
    if link.0 >= downs.links() {
        return Ok(false);
    }
    Ok(format!(in alloc; "{:?}", downs.under(link, dir(word)))?.as_str() == want)
}

fn has_no_lefts(downs: &Downs, word: &str) -> bool {
    let link = link(word);
    link.0 < downs.links() && downs.lefts(link, dir(word)).is_empty()
}

fn is_link_chain(
    alloc: Global,
    downs: &Downs,
    from: &str,
    to: &str,
    want: &str,
) -> Result<bool, AllocError> {
    let wide = link(to);
    if wide.0 >= downs.links() {
        return Ok(false);
    }
    let numbers = downs.link_chain(alloc, (link(from), dir(from)), (wide, dir(to)))?;
    are_numbers(alloc, &numbers, want)
}

#[test]
fn finds_what_is_under(rt: HostRuntime) -> Result<(), Fail> {
    let tbox = tbox(rt.alloc(), OWNING)?;
    let downs = downs_of(rt.alloc(), &tbox, 0, 2)?;
    let under = "[(LinkId(0), Back), (LinkId(1), Fwd)]";
    assert!(rt; are_under(rt.alloc(), &downs, "p0-", under)?);
    assert!(rt; has_no_lefts(&downs, "p0"));
    assert!(rt; is_link_chain(rt.alloc(), &downs, "p1", "p0-", "[0]")?);
    assert!(rt; is_link_chain(rt.alloc(), &downs, "p0", "p1", "none")?);
    Ok(())
}

fn pair(alloc: Global, first: &Fact, second: &Fact) -> Result<Vec<Fact>, AllocError> {
    let mut facts = Vec::new(alloc);
    facts.push(first.copy(alloc)?)?;
    facts.push(second.copy(alloc)?)?;
    Ok(facts)
}

// Whether the two facts meet the source.
fn is_met(source: &Source, facts: &[Fact]) -> bool {
    match *source {
        Source::One(basic) => match facts {
            [first, second] => basic.term_in(first).is_some() && first.same(second),
            _ => false,
        },
        Source::Two(left, right) => clash(&Constraint::Disjoint(left, right), facts),
        Source::TwoFillers(link, dir) => clash(&Constraint::Func(link, dir), facts),
        Source::TwoLinks(one, dir, two) => clash(&Constraint::Apart(one, dir, two), facts),
    }
}

fn item<T>(items: &[T], number: u32) -> Option<&T> {
    if number == 0 {
        return None;
    }
    items.get((number - 1) as usize)
}

// What the axiom of this number gives to the fact of this step.
fn step(
    alloc: Global,
    tbox: &Tbox,
    steps: &[Fact],
    number: u32,
    step: u32,
) -> Result<Option<Fact>, AllocError> {
    match (item(tbox.axioms(), number), item(steps, step)) {
        (Some(axiom), Some(fact)) => apply(alloc, axiom, fact),
        _ => Ok(None),
    }
}

// The facts, and behind them what the rules of the plan give.
fn steps_of(
    alloc: Global,
    tbox: &Tbox,
    plan: &Plan,
    facts: &[Fact],
) -> Result<List<Fact>, AllocError> {
    let mut steps = List::new(alloc);
    for fact in facts {
        steps.push(fact.copy(alloc)?)?;
    }
    for (number, at) in plan.rules.items() {
        match step(alloc, tbox, steps.items(), *number, *at)? {
            Some(given) => steps.push(given)?,
            None => return Ok(List::new(alloc)),
        }
    }
    Ok(steps)
}

fn ends_in_clash(
    alloc: Global,
    constraint: &Constraint,
    plan: &Plan,
    steps: &[Fact],
) -> Result<bool, AllocError> {
    match (item(steps, plan.first), item(steps, plan.second)) {
        (Some(one), Some(two)) => Ok(clash(constraint, pair(alloc, one, two)?.as_slice())),
        _ => Ok(false),
    }
}

fn runs(
    alloc: Global,
    tbox: &Tbox,
    constraint: &Constraint,
    plan: &Plan,
    facts: &[Fact],
) -> Result<bool, AllocError> {
    let steps = steps_of(alloc, tbox, plan, facts)?;
    ends_in_clash(alloc, constraint, plan, steps.items())
}

// How many sources there are and how many of them the two facts meet, whose plans end in a clash.
fn met(
    alloc: Global,
    tbox: &Tbox,
    downs: &Downs,
    constraint: &Constraint,
    facts: &[Fact],
) -> Result<(usize, u32), AllocError>
    requires within { IsConstraintWithin downs.now.classes downs.now.links constraint.now }
    requires exact { HasExactSources downs.now.axioms constraint.now }
{
    let sources = downs.empty_sources(alloc, constraint)?;
    let mut count: u32 = 0;
    for source in sources.items() {
        if is_met(source, facts) {
            let plan = downs.plan(alloc, constraint, source)?;
            if runs(alloc, tbox, constraint, &plan, facts)? {
                count = count.saturating_add(1);
            } else {
                return Ok((0, 0));
            }
        }
    }
    Ok((sources.len(), count))
}

fn are_met(
    alloc: Global,
    tbox: &Tbox,
    downs: &Downs,
    constraint: &Constraint,
    facts: &[Fact],
    want: &str,
) -> Result<bool, AllocError>
    requires within { IsConstraintWithin downs.now.classes downs.now.links constraint.now }
    requires exact { HasExactSources downs.now.axioms constraint.now }
{
    let (sources, count) = met(alloc, tbox, downs, constraint, facts)?;
    Ok(format!(in alloc; "{sources} {count}")?.as_str() == want)
}

fn facts_of(alloc: Global, first: &str, second: &str) -> Result<List<Fact>, AllocError> {
    let mut facts = List::new(alloc);
    facts.push(fact(alloc, first)?)?;
    facts.push(fact(alloc, second)?)?;
    Ok(facts)
}

// The parts of a case: the constraint, two facts, and both numbers.
fn parts(case: &str) -> Option<(Constraint, &str, &str, &str)> {
    let (front, want) = case.split_once(" => ")?;
    let (front, second) = front.rsplit_once("; ")?;
    let (text, first) = front.split_once("; ")?;
    Some((constraint(text)?, first, second, want))
}

// Whether the facts of the case meet so many sources, where the model has so many classes and links.
fn holds(alloc: Global, model: &str, classes: u32, links: u32, case: &str) -> Result<bool, Fail> {
    let tbox = tbox(alloc, model)?;
    let downs = downs_of(alloc, &tbox, classes, links)?;
    match parts(case) {
        Some((constraint, first, second, want)) => {
            let facts = facts_of(alloc, first, second)?;
            if !is_constraint_within(&constraint, downs.classes(), downs.links())
                || !has_exact_sources(tbox.axioms(), &constraint)
            {
                return Ok(false);
            }
            Ok(are_met(alloc, &tbox, &downs, &constraint, facts.items(), want)?)
        }
        None => Ok(false),
    }
}

#[test]
fn plans_end_in_clashes(rt: HostRuntime) -> Result<(), Fail> {
    for case in OF_EXAMPLE.split('\n') {
        assert!(rt; holds(rt.alloc(), EXAMPLE, 3, 1, case)?, "{case}");
    }
    Ok(())
}

#[test]
fn plans_pass_no_circle_twice(rt: HostRuntime) -> Result<(), Fail> {
    for case in OF_CIRCLE.split('\n') {
        assert!(rt; holds(rt.alloc(), CIRCLE, 2, 0, case)?, "{case}");
    }
    Ok(())
}

#[test]
fn two_fillers_need_no_rule(rt: HostRuntime) -> Result<(), Fail> {
    for case in OF_NONE.split('\n') {
        assert!(rt; holds(rt.alloc(), "", 0, 1, case)?, "{case}");
    }
    Ok(())
}

#[test]
fn links_end_in_clashes(rt: HostRuntime) -> Result<(), Fail> {
    for case in OF_LINKS.split('\n') {
        assert!(rt; holds(rt.alloc(), LINKS, 1, 3, case)?, "{case}");
    }
    Ok(())
}
