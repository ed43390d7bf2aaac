//! Names that axioms have given.
ghost use Rattle.std.specs.Prelude.{ℕ, List as ListOf, ◌≡◌, ◌++◌, ◌∷◌, [], length, false, option_map, IfOk, OnOk, IfErr};
ghost use Rattle.std.specs.List.{list_any};
ghost use Rattle.owl_functional.specs.Rules.{is_double, takes as takes_name, or_else};
ghost use Rattle.owl_functional.specs.Lookup.{beside, owner_in};

use crate::fault::OwlFault;
use crate::names::name_of;
use crate::table::Table;
use crate::tree::{Axiom, Entity, Form};
use std::alloc::Global;
use std::marker::Model;

// The owner of the name that a form gives, unless the name has one.
#[tactic(auto, using(crate::proofs::Tables::owner_kept, crate::proofs::Tables::or_no))]
fn note_owner<'t>(owners: &mut Table<&'t Entity>, form: &'t Form) -> Result<(), OwlFault>
    requires { length owners.old.values ≡ length owners.old.texts }
    ensures noted { OnOk result ((name : ListOf ℕ) → option_map (λ e. e.now) (beside owners.new.texts owners.new.values name) ≡ or_else (option_map (λ e. e.now) (beside owners.old.texts owners.old.values name)) (owner_in form.now name)) }
    ensures long { OnOk result (length owners.new.values ≡ length owners.new.texts) }
    ensures memory { IfErr result (λ e. e ≡ OwlFault.NoMemory) }
{
    match form {
        Form::Declaration(entity) => owners.add(name_of(entity.iri.text()), entity),
        _ => Ok(()),
    }
}

/// The front of the axioms, with the names that they give, each beside the class or property that has it. No name in it is given twice.
#[derive(Drop)]
pub struct Taken<'t> {
    front: &'t [Axiom],
    owners: Table<&'t Entity>,
}

impl<'t> Model for Taken<'t> {
    ghost use Rattle.std.specs.Prelude.{◌≡◌, List, length, option_map};
    ghost use Rattle.owl_functional.specs.declared.tree.Axiom.{Axiom as AxiomOf};
    ghost use Rattle.owl_functional.specs.Lookup.{beside, AreOwners};

    ghost Value = { List AxiomOf };

    ghost view = { λ t. t.front.now };

    ghost invariant = { λ t. (length t.owners.values ≡ length t.owners.texts) × AreOwners (λ name. option_map (λ e. e.now) (beside t.owners.texts t.owners.values name)) t.front.now };
}

impl<'t> Taken<'t> {
    pub(crate) fn new(alloc: Global, front: &'t [Axiom]) -> Taken<'t>
        requires { front.now ≡ [] }
        ensures { result ≡ [] }
    {
        Taken {
            front,
            owners: Table::new(alloc),
        }
    }

    /// Whether the name of the class or property is that of another one.
    pub(crate) fn is_taken(&self, entity: &Entity) -> bool
        ensures { result ≡ list_any (takes_name entity.now) self.now }
    {
        match self.owners.get(name_of(entity.iri.text())) {
            Some(owner) => !owner.same(entity),
            None => false,
        }
    }

    /// Goes on behind an axiom, which is the last of the longer front.
    #[tactic(auto, using(crate::proofs::Tables::more_owners))]
    pub(crate) fn with(self, item: &'t Axiom, front: &'t [Axiom]) -> Result<Taken<'t>, OwlFault>
        requires single { is_double self item.now.form ≡ false }
        requires front { front.now ≡ self ++ item.now ∷ [] }
        ensures noted { IfOk result (λ t. t ≡ front.now) }
        ensures memory { IfErr result (λ e. e ≡ OwlFault.NoMemory) }
    {
        let Taken {
            front: _,
            mut owners,
        } = self;
        note_owner(&mut owners, &item.form)?;
        Ok(Taken { front, owners })
    }
}
