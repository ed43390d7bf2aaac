//! What axioms break.
ghost use Rattle.std.specs.Prelude.{◌≡◌, ◌≢◌, ◌==◌, [], false, None, Some, IfOk, IfErr};
ghost use Rattle.std.specs.List.{list_any};
ghost use Rattle.std.specs.Str.{bytes_eq};
ghost use Rattle.owl_functional.specs.Rules.{sort_rank, kind_rank, same, name_of as name_of_iri, entity_in as entity_in_concept, differ, is_unsupported, is_bad, is_double, is_undeclared as is_undeclared_in, entities, fault_of as fault_of_axiom, first_fault, specialises as specialises_any, specialised_in as specialised_of, first_specialised as first_specialised_of};

use crate::fault::OwlFault;
use crate::lookup::Lookup;
use crate::names::name_of;
use crate::taken::Taken;
use crate::tree::{Axiom, Concept, Entity, Form, Sort};
use line_lexer::grammar::is_name;
use std::alloc::Global;
use vocabulary::ValueKind;

fn sort_rank(sort: Sort) -> u8
    ensures { result ≡ sort_rank sort }
{
    match sort {
        Sort::Class => 0,
        Sort::ObjectProperty => 1,
        Sort::DataProperty => 2,
    }
}

fn kind_rank(kind: ValueKind) -> u8
    ensures { result ≡ kind_rank kind }
{
    match kind {
        ValueKind::Text => 0,
        ValueKind::Int => 1,
        ValueKind::Bool => 2,
        ValueKind::Time => 3,
    }
}

fn differ(k: ValueKind, l: ValueKind) -> bool
    ensures { result ≡ differ k l }
{
    kind_rank(k) != kind_rank(l)
}

impl Entity {
    pub(crate) fn same(&self, other: &Entity) -> bool
        ensures { result ≡ same self.now other.now }
    {
        sort_rank(self.sort) == sort_rank(other.sort) && self.iri.text() == other.iri.text()
    }

    fn is_bad(&self) -> bool
        ensures { result ≡ is_bad self.now }
    {
        !is_name(name_of(self.iri.text()))
    }
}

impl Concept {
    fn entity(&self) -> &Entity
        ensures { result.now ≡ entity_in_concept self.now }
    {
        match self {
            Concept::Class(a) => a,
            Concept::Has(p, _) => p,
        }
    }

    fn is_bad(&self) -> bool
        ensures { result ≡ is_bad (entity_in_concept self.now) }
    {
        self.entity().is_bad()
    }

    fn is_undeclared(&self, axioms: &Lookup<'_>) -> bool
        ensures { result ≡ is_undeclared_in axioms.now (entity_in_concept self.now) }
    {
        is_undeclared(axioms, self.entity())
    }
}

/// Whether it is a property of values.
pub(crate) fn is_of_values(sort: Sort) -> bool
    ensures { result ≡ (sort_rank sort == 2) }
{
    sort_rank(sort) == 2
}

fn is_undeclared(axioms: &Lookup<'_>, entity: &Entity) -> bool
    ensures { result ≡ is_undeclared_in axioms.now entity.now }
{
    !axioms.is_declared(entity)
}

fn are_bad(concepts: &[Concept]) -> bool
    ensures { result ≡ list_any (λ c. is_bad (entity_in_concept c)) concepts.now }
{
    concepts.iter().any(|c| c.is_bad())
}

fn are_undeclared(axioms: &Lookup<'_>, concepts: &[Concept]) -> bool
    ensures { result ≡ list_any (λ c. is_undeclared_in axioms.now (entity_in_concept c)) concepts.now }
{
    concepts.iter().any(|c| c.is_undeclared(axioms))
}

impl Form {
    fn is_unsupported(&self, axioms: &Lookup<'_>) -> bool
        ensures { result ≡ is_unsupported axioms.now self.now }
    {
        match self {
            Form::Unsupported => true,
            Form::Silent => false,
            Form::Declaration(_) => false,
            Form::Sub(_, _) => false,
            Form::Disjoint(_) => false,
            Form::Kind(u, k) => differ(axioms.kind_in(u.iri.text()), *k),
            Form::SubLink(q, _, p) => {
                is_of_values(q.sort)
                    && differ(axioms.kind_in(q.iri.text()), axioms.kind_in(p.iri.text()))
            }
            Form::Func(_, _) => false,
        }
    }

    #[tactic(auto, using(crate::proofs::Lists::any_of_map))]
    fn has_bad(&self) -> bool
        ensures { result ≡ list_any is_bad (entities self.now) }
    {
        match self {
            Form::Unsupported => false,
            Form::Silent => false,
            Form::Declaration(e) => e.is_bad(),
            Form::Sub(b, None) => b.is_bad(),
            Form::Sub(b, Some(c)) => b.is_bad() || c.is_bad(),
            Form::Disjoint(cs) => are_bad(cs.items()),
            Form::Kind(u, _) => u.is_bad(),
            Form::SubLink(q, _, p) => q.is_bad() || p.is_bad(),
            Form::Func(p, _) => p.is_bad(),
        }
    }

    #[tactic(auto, using(crate::proofs::Lists::any_of_map))]
    fn has_undeclared(&self, axioms: &Lookup<'_>) -> bool
        ensures { result ≡ list_any (is_undeclared_in axioms.now) (entities self.now) }
    {
        match self {
            Form::Unsupported => false,
            Form::Silent => false,
            Form::Declaration(e) => is_undeclared(axioms, e),
            Form::Sub(b, None) => b.is_undeclared(axioms),
            Form::Sub(b, Some(c)) => { b.is_undeclared(axioms) || c.is_undeclared(axioms) }
            Form::Disjoint(cs) => are_undeclared(axioms, cs.items()),
            Form::Kind(u, _) => is_undeclared(axioms, u),
            Form::SubLink(q, _, p) => is_undeclared(axioms, q) || is_undeclared(axioms, p),
            Form::Func(p, _) => is_undeclared(axioms, p),
        }
    }

    fn is_double(&self, before: &Taken<'_>) -> bool
        ensures { result ≡ is_double before.now self.now }
    {
        match self {
            Form::Declaration(e) => before.is_taken(e),
            _ => false,
        }
    }

    fn specialises(&self, axioms: &Lookup<'_>) -> bool
        ensures { result ≡ specialises_any axioms.now self.now }
    {
        match self {
            Form::SubLink(_, _, p) => axioms.is_made_functional(p),
            _ => false,
        }
    }
}

impl Axiom {
    fn fault(&self, axioms: &Lookup<'_>, before: &Taken<'_>) -> Option<OwlFault>
        ensures first { result ≡ fault_of_axiom axioms.now before.now self.now }
        ensures single { result ≡ None → is_double before.now self.now.form ≡ false }
    {
        if self.form.is_unsupported(axioms) {
            return Some(OwlFault::Unsupported(self.line));
        }
        if self.form.has_bad() {
            return Some(OwlFault::BadName(self.line));
        }
        if self.form.is_double(before) {
            return Some(OwlFault::DoubleName(self.line));
        }
        if self.form.has_undeclared(axioms) {
            return Some(OwlFault::Undeclared(self.line));
        }
        None
    }

    fn specialised(&self, axioms: &Lookup<'_>) -> Option<OwlFault>
        ensures { result ≡ specialised_of axioms.now self.now }
    {
        if self.form.specialises(axioms) {
            Some(OwlFault::FunctionalSpecialised(self.line))
        } else {
            None
        }
    }
}

/// Whether each axiom is without a fault, or the fault of the first that has one.
pub(crate) fn check(alloc: Global, lookup: &Lookup<'_>, axioms: &[Axiom]) -> Result<(), OwlFault>
    requires { lookup.now ≡ axioms.now }
    ensures none { IfOk result (λ _. first_fault axioms.now [] axioms.now ≡ None) }
    ensures fault { IfErr result (λ e. e ≢ OwlFault.NoMemory → first_fault axioms.now [] axioms.now ≡ Some e) }
{
    let (nothing, _) = axioms.split_at(0);
    let mut taken = Taken::new(alloc, nothing);
    for (i, axiom) in axioms.iter().enumerate() {
        if let Some(fault) = axiom.fault(lookup, &taken) {
            return Err(fault);
        }
        let (front, _) = axioms.split_at(i + 1);
        taken = taken.with(axiom, front)?;
    }
    Ok(())
}

/// The fault of the first axiom that puts a property below a functional one.
pub(crate) fn first_specialised(lookup: &Lookup<'_>, axioms: &[Axiom]) -> Option<OwlFault>
    requires { lookup.now ≡ axioms.now }
    ensures { result ≡ first_specialised_of axioms.now axioms.now }
{
    for axiom in axioms {
        if let Some(fault) = axiom.specialised(lookup) {
            return Some(fault);
        }
    }
    None
}
