//! What the rules look up in the axioms of a text: one pass makes tables, so that no rule goes through all axioms.
ghost use Rattle.std.specs.Prelude.{ℕ, List as ListOf, ◌≡◌, ◌||◌, length, IfOk, OnOk, IfErr};
ghost use Rattle.std.specs.List.{list_any};
ghost use Rattle.owl_functional.specs.declared.tree.Entity.{Entity as EntityOf};
ghost use Rattle.owl_functional.specs.Rules.{is_declaration_of as is_declaration, is_functional_of as is_functional, range_of as range_of_form, kind_in as kind_in_all, declares as declares_entity, makes_functional as makes_functional_of, or_else};
ghost use Rattle.owl_functional.specs.Lookup.{has_entity, AreTold, beside, AreKinds};

use crate::entities::Entities;
use crate::fault::OwlFault;
use crate::table::Table;
use crate::tree::{Axiom, Entity, Form};
use std::alloc::Global;
use std::marker::Model;
use vocabulary::ValueKind;

#[tactic(auto, using(crate::proofs::Tables::or_none))]
fn note_declared(declared: &mut Entities, form: &Form) -> Result<(), OwlFault>
    ensures noted { OnOk result ((e : EntityOf) → has_entity declared.new e ≡ (has_entity declared.old e || is_declaration form.now e)) }
    ensures memory { IfErr result (λ e. e ≡ OwlFault.NoMemory) }
{
    match form {
        Form::Declaration(e) => declared.add(e),
        _ => Ok(()),
    }
}

#[tactic(auto, using(crate::proofs::Tables::or_none))]
fn note_functional(functional: &mut Entities, form: &Form) -> Result<(), OwlFault>
    ensures noted { OnOk result ((e : EntityOf) → has_entity functional.new e ≡ (has_entity functional.old e || is_functional form.now e)) }
    ensures memory { IfErr result (λ e. e ≡ OwlFault.NoMemory) }
{
    match form {
        Form::Func(p, _) => functional.add(p),
        _ => Ok(()),
    }
}

#[tactic(auto, using(crate::proofs::Tables::or_no))]
fn note_kind(kinds: &mut Table<ValueKind>, form: &Form) -> Result<(), OwlFault>
    requires { length kinds.old.values ≡ length kinds.old.texts }
    ensures noted { OnOk result ((iri : ListOf ℕ) → beside kinds.new.texts kinds.new.values iri ≡ or_else (beside kinds.old.texts kinds.old.values iri) (range_of_form form.now iri)) }
    ensures long { OnOk result (length kinds.new.values ≡ length kinds.new.texts) }
    ensures memory { IfErr result (λ e. e ≡ OwlFault.NoMemory) }
{
    match form {
        Form::Kind(u, kind) => kinds.add(u.iri.text(), *kind),
        _ => Ok(()),
    }
}

// The classes and properties that the axioms declare.
fn all_declared(alloc: Global, axioms: &[Axiom]) -> Result<Entities, OwlFault>
    ensures told { IfOk result (λ declared. AreTold declares_entity axioms.now declared) }
    ensures memory { IfErr result (λ e. e ≡ OwlFault.NoMemory) }
{
    let mut declared = Entities::new(alloc);
    for axiom in axioms {
        note_declared(&mut declared, &axiom.form)?;
    }
    Ok(declared)
}

// The properties that the axioms make functional.
fn all_functional(alloc: Global, axioms: &[Axiom]) -> Result<Entities, OwlFault>
    ensures told { IfOk result (λ functional. AreTold makes_functional_of axioms.now functional) }
    ensures memory { IfErr result (λ e. e ≡ OwlFault.NoMemory) }
{
    let mut functional = Entities::new(alloc);
    for axiom in axioms {
        note_functional(&mut functional, &axiom.form)?;
    }
    Ok(functional)
}

// The kinds that the axioms give data properties.
fn all_kinds(alloc: Global, axioms: &[Axiom]) -> Result<Table<ValueKind>, OwlFault>
    ensures told { IfOk result (λ kinds. AreKinds (beside kinds.texts kinds.values) axioms.now) }
    ensures memory { IfErr result (λ e. e ≡ OwlFault.NoMemory) }
{
    let mut kinds = Table::new(alloc);
    for axiom in axioms {
        note_kind(&mut kinds, &axiom.form)?;
    }
    Ok(kinds)
}

/// The axioms of a text, with what is looked up in them.
#[derive(Drop)]
pub struct Lookup<'t> {
    axioms: &'t [Axiom],
    declared: Entities,
    functional: Entities,
    kinds: Table<ValueKind>,
}

impl<'t> Model for Lookup<'t> {
    ghost use Rattle.std.specs.Prelude.{List};
    ghost use Rattle.owl_functional.specs.declared.tree.Axiom.{Axiom as AxiomOf};
    ghost use Rattle.owl_functional.specs.Rules.{declares, makes_functional};
    ghost use Rattle.owl_functional.specs.Lookup.{AreTold, beside, AreKinds};

    ghost Value = { List AxiomOf };

    ghost view = { λ l. l.axioms.now };

    ghost invariant = { λ l. AreTold declares l.axioms.now l.declared × AreTold makes_functional l.axioms.now l.functional × AreKinds (beside l.kinds.texts l.kinds.values) l.axioms.now };
}

impl<'t> Lookup<'t> {
    pub(crate) fn new(alloc: Global, axioms: &'t [Axiom]) -> Result<Lookup<'t>, OwlFault>
        ensures axioms { IfOk result (λ l. l ≡ axioms.now) }
        ensures memory { IfErr result (λ e. e ≡ OwlFault.NoMemory) }
    {
        let kinds = all_kinds(alloc, axioms)?;
        let declared = all_declared(alloc, axioms)?;
        let functional = match all_functional(alloc, axioms) {
            Ok(functional) => functional,
            Err(_) => return Err(OwlFault::NoMemory),
        };
        Ok(Lookup {
            axioms,
            declared,
            functional,
            kinds,
        })
    }

    pub(crate) fn is_declared(&self, entity: &Entity) -> bool
        ensures { result ≡ list_any (declares_entity entity.now) self.now }
    {
        self.declared.has(entity)
    }

    pub(crate) fn is_made_functional(&self, property: &Entity) -> bool
        ensures { result ≡ list_any (makes_functional_of property.now) self.now }
    {
        self.functional.has(property)
    }

    /// The kind of values of a data property.
    pub(crate) fn kind_in(&self, iri: &str) -> ValueKind
        ensures { result ≡ kind_in_all self.now iri.now }
    {
        self.kinds.get(iri).unwrap_or(ValueKind::Text)
    }
}
