//! The numbers of classes and links.
ghost use Rattle.std.specs.Prelude.{◌≡◌, None, IfOk, OnOk, IfErr};
ghost use Rattle.vocabulary.specs.Texts.{number_of};
ghost use Rattle.owl_functional.specs.Ontology.{none, side_of as side_of_entity, with_class, with_link, with_entity, with_axiom, numbered as numbered_of, class_id as class_id_of, link_id as link_id_of, basic_of};

use crate::fault::OwlFault;
use crate::lookup::Lookup;
use crate::names::name_of;
use crate::rules::is_of_values;
use crate::tree::{Axiom, Concept, Entity, Form, Sort};
use dllite_axioms::Basic;
use std::alloc::Global;
use vocabulary::{ClassId, LinkId, List, Names, Side};

/// The names of classes and of links by their numbers, and the sort of each link's second place.
#[derive(Drop)]
pub struct Numbered {
    pub classes: Names,
    pub links: Names,
    pub sides: List<Side>,
}

fn side_of(axioms: &Lookup<'_>, entity: &Entity) -> Side
    ensures { result ≡ side_of_entity axioms.now entity.now }
{
    if is_of_values(entity.sort) {
        Side::Value(axioms.kind_in(entity.iri.text()))
    } else {
        Side::Object
    }
}

impl Numbered {
    fn new(alloc: Global) -> Numbered
        ensures { result ≡ none }
    {
        Numbered {
            classes: Names::new(alloc),
            links: Names::new(alloc),
            sides: List::new(alloc),
        }
    }

    fn add_new_class(&mut self, name: &str) -> Result<(), OwlFault>
        requires { number_of self.old.classes name.now ≡ None }
        ensures added { OnOk result (self.new ≡ with_class self.old name.now) }
        ensures memory { IfErr result (λ e. e ≡ OwlFault.NoMemory) }
    {
        if self.classes.len() == u32::MAX {
            return Err(OwlFault::NoMemory);
        }
        match self.classes.add(name) {
            Ok(_) => Ok(()),
            Err(_) => Err(OwlFault::NoMemory),
        }
    }

    fn add_class(&mut self, name: &str) -> Result<(), OwlFault>
        ensures added { OnOk result (self.new ≡ with_class self.old name.now) }
        ensures memory { IfErr result (λ e. e ≡ OwlFault.NoMemory) }
    {
        match self.classes.find(name) {
            Some(_) => Ok(()),
            None => self.add_new_class(name),
        }
    }

    fn add_new_link(&mut self, name: &str, side: Side) -> Result<(), OwlFault>
        requires { number_of self.old.links name.now ≡ None }
        ensures added { OnOk result (self.new ≡ with_link self.old name.now side) }
        ensures memory { IfErr result (λ e. e ≡ OwlFault.NoMemory) }
    {
        if self.links.len() == u32::MAX {
            return Err(OwlFault::NoMemory);
        }
        self.sides.push(side)?;
        match self.links.add(name) {
            Ok(_) => Ok(()),
            Err(_) => Err(OwlFault::NoMemory),
        }
    }

    fn add_link(&mut self, name: &str, side: Side) -> Result<(), OwlFault>
        ensures added { OnOk result (self.new ≡ with_link self.old name.now side) }
        ensures memory { IfErr result (λ e. e ≡ OwlFault.NoMemory) }
    {
        match self.links.find(name) {
            Some(_) => Ok(()),
            None => self.add_new_link(name, side),
        }
    }

    fn add_entity(&mut self, axioms: &Lookup<'_>, entity: &Entity) -> Result<(), OwlFault>
        ensures added { OnOk result (self.new ≡ with_entity axioms.now self.old entity.now) }
        ensures memory { IfErr result (λ e. e ≡ OwlFault.NoMemory) }
    {
        let name = name_of(entity.iri.text());
        match entity.sort {
            Sort::Class => self.add_class(name),
            Sort::ObjectProperty => self.add_link(name, side_of(axioms, entity)),
            Sort::DataProperty => self.add_link(name, side_of(axioms, entity)),
        }
    }

    fn add_axiom(&mut self, axioms: &Lookup<'_>, item: &Axiom) -> Result<(), OwlFault>
        ensures added { OnOk result (self.new ≡ with_axiom axioms.now self.old item.now) }
        ensures memory { IfErr result (λ e. e ≡ OwlFault.NoMemory) }
    {
        match &item.form {
            Form::Declaration(e) => self.add_entity(axioms, e),
            _ => Ok(()),
        }
    }

    fn class_id(&self, class: &Entity) -> ClassId
        ensures { result ≡ class_id_of self.now class.now }
    {
        match self.classes.find(name_of(class.iri.text())) {
            Some(n) => ClassId(n),
            None => ClassId(0),
        }
    }

    /// The number of a property. One that no axiom declares stands for 0.
    pub(crate) fn link_id(&self, property: &Entity) -> LinkId
        ensures { result ≡ link_id_of self.now property.now }
    {
        match self.links.find(name_of(property.iri.text())) {
            Some(n) => LinkId(n),
            None => LinkId(0),
        }
    }

    pub(crate) fn basic(&self, concept: &Concept) -> Basic
        ensures { result ≡ basic_of self.now concept.now }
    {
        match concept {
            Concept::Class(a) => Basic::Class(self.class_id(a)),
            Concept::Has(p, d) => Basic::Has(self.link_id(p), *d),
        }
    }
}

/// What the axioms declare, in their order.
#[tactic(auto, using(crate::proofs::Lists::next_numbered))]
pub(crate) fn number_all(
    alloc: Global,
    lookup: &Lookup<'_>,
    axioms: &[Axiom],
) -> Result<Numbered, OwlFault>
    requires { lookup.now ≡ axioms.now }
    ensures read { IfOk result (λ n. n ≡ numbered_of axioms.now) }
    ensures memory { IfErr result (λ e. e ≡ OwlFault.NoMemory) }
{
    let mut numbered = Numbered::new(alloc);
    for axiom in axioms {
        numbered.add_axiom(lookup, axiom)?;
    }
    Ok(numbered)
}
