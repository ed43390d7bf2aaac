//! Sets of classes and properties.
ghost use Rattle.std.specs.Prelude.{ℕ, List as ListOf, ◌≡◌, ◌||◌, [], OnOk, IfErr};
ghost use Rattle.std.specs.List.{list_any};
ghost use Rattle.std.specs.Str.{bytes_eq};
ghost use Rattle.owl_functional.specs.declared.tree.Entity.{Entity as EntityOf};
ghost use Rattle.owl_functional.specs.Rules.{same};
ghost use Rattle.owl_functional.specs.Lookup.{of_sort, has_entity};

use crate::fault::OwlFault;
use crate::tree::{Entity, Sort};
use std::alloc::Global;
use vocabulary::Names;

/// The IRIs of some classes and properties, by sort.
#[derive(Drop)]
pub struct Entities {
    pub classes: Names,
    pub objects: Names,
    pub values: Names,
}

#[tactic(auto, using(crate::proofs::Tables::one_iri_more))]
fn add_iri(iris: &mut Names, iri: &str) -> Result<(), OwlFault>
    ensures added { OnOk result ((other : ListOf ℕ) → list_any (bytes_eq other) iris.new ≡ (list_any (bytes_eq other) iris.old || bytes_eq iri.now other)) }
    ensures memory { IfErr result (λ e. e ≡ OwlFault.NoMemory) }
{
    if iris.len() == u32::MAX {
        return Err(OwlFault::NoMemory);
    }
    match iris.add(iri) {
        Ok(_) => Ok(()),
        Err(_) => Err(OwlFault::NoMemory),
    }
}

impl Entities {
    pub(crate) fn new(alloc: Global) -> Entities
        ensures { result ≡ record { classes = []; objects = []; values = [] } }
    {
        Entities {
            classes: Names::new(alloc),
            objects: Names::new(alloc),
            values: Names::new(alloc),
        }
    }

    fn of_sort(&self, sort: Sort) -> &Names
        ensures { result.now ≡ of_sort self.now sort }
    {
        match sort {
            Sort::Class => &self.classes,
            Sort::ObjectProperty => &self.objects,
            Sort::DataProperty => &self.values,
        }
    }

    pub(crate) fn has(&self, entity: &Entity) -> bool
        ensures { result ≡ has_entity self.now entity.now }
    {
        self.of_sort(entity.sort).find(entity.iri.text()).is_some()
    }

    pub(crate) fn add(&mut self, entity: &Entity) -> Result<(), OwlFault>
        ensures added { OnOk result ((other : EntityOf) → has_entity self.new other ≡ (has_entity self.old other || same entity.now other)) }
        ensures memory { IfErr result (λ e. e ≡ OwlFault.NoMemory) }
    {
        match entity.sort {
            Sort::Class => add_iri(&mut self.classes, entity.iri.text()),
            Sort::ObjectProperty => add_iri(&mut self.objects, entity.iri.text()),
            Sort::DataProperty => add_iri(&mut self.values, entity.iri.text()),
        }
    }
}
