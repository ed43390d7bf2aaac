//! What the lines of a project say.
ghost use Rattle.std.specs.Prelude.{◌≡◌, ◌≤◌, length, IfOk};
ghost use Rattle.uml_model.specs.Bounds.{AreAxiomsWithin, AreConstraintsWithin, AreFunctionalFree};
ghost use Rattle.uml_model.specs.Sorts.{AreAxiomsSorted, AreConstraintsSorted, IsModel};
ghost use Rattle.owl_functional.specs.Sound.{IsOntology};
ghost use Rattle.project_language.specs.Meant.{tbox as tbox_of};
ghost use Rattle.project_language.specs.Project.{begun_with, nothing};
ghost use Rattle.project_language.specs.Sound.{IsSound};

use annotation_language::Noted;
use dllite_axioms::{Constraint, Tbox};
use mapping_language::Sources;
use owl_functional::Ontology;
use std::alloc::{AllocError, Global};
use uml_model::{Model, axioms_of};
use vocabulary::List;

/// The tables and mappings, the class model, and the annotations of a project.
#[derive(Drop)]
pub struct Project {
    pub sources: Sources,
    /// The classes and links, and what model lines state of them.
    pub model: Model,
    /// The axioms and constraints of the ontology that gave the classes and links, where one did.
    pub given: Option<Tbox>,
    pub noted: Noted,
}

impl Project {
    /// The project of no line.
    pub fn new(alloc: Global) -> Project
        ensures value { result ≡ nothing }
        ensures sound { IsSound result }
    {
        Project {
            sources: Sources::new(alloc),
            model: Model::new(alloc),
            given: None,
            noted: Noted::new(alloc),
        }
    }

    // The project of no line over an ontology.
    pub(crate) fn over(alloc: Global, ontology: Ontology) -> Result<Project, AllocError>
        requires { IsOntology ontology }
        ensures value { IfOk result (λ p. p ≡ begun_with ontology) }
        ensures sound { IfOk result IsSound }
    {
        let model = model_of(alloc, &ontology)?;
        Ok(Project {
            sources: Sources::new(alloc),
            model,
            given: Some(ontology.tbox),
            noted: Noted::new(alloc),
        })
    }

    /// Its axioms and constraints: those of its ontology, where it names one, else those of its model lines.
    pub fn tbox(&self, alloc: Global) -> Result<Tbox, AllocError>
        requires { IsSound self.now }
        ensures tbox { IfOk result (λ tbox. tbox ≡ tbox_of self.now) }
        ensures few { IfOk result (λ tbox. (length tbox.axioms ≤ 6_000) × (length tbox.constraints ≤ 3_000)) }
        ensures axioms_within { IfOk result (λ tbox. AreAxiomsWithin (length self.now.model.classes) (length self.now.model.links) tbox.axioms) }
        ensures constraints_within { IfOk result (λ tbox. AreConstraintsWithin (length self.now.model.classes) (length self.now.model.links) tbox.constraints) }
        ensures functional_free { IfOk result (λ tbox. AreFunctionalFree tbox.axioms tbox.constraints) }
        ensures axioms_sorted { IfOk result (λ tbox. AreAxiomsSorted self.now.model.sides tbox.axioms) }
        ensures constraints_sorted { IfOk result (λ tbox. AreConstraintsSorted self.now.model.sides tbox.constraints) }
    {
        self.copied(alloc)
    }

    fn copied(&self, alloc: Global) -> Result<Tbox, AllocError>
        ensures { IfOk result (λ tbox. tbox ≡ tbox_of self.now) }
    {
        match &self.given {
            Some(given) => copied(alloc, given),
            None => axioms_of(alloc, &self.model),
        }
    }
}

// The names of an ontology as a model's.
fn model_of(alloc: Global, ontology: &Ontology) -> Result<Model, AllocError>
    requires { IsOntology ontology.now }
    ensures value { IfOk result (λ model. model ≡ (begun_with ontology.now).model) }
    ensures sound { IfOk result IsModel }
{
    Model::with_names(
        alloc,
        ontology.classes.items(),
        ontology.links.items(),
        ontology.sides.items(),
    )
}

fn copied(alloc: Global, tbox: &Tbox) -> Result<Tbox, AllocError>
    ensures { IfOk result (λ copy. copy ≡ tbox.now) }
{
    let constraints = constraints_copied(alloc, tbox.constraints())?;
    let axioms = Vec::from_slice(alloc, tbox.axioms())?;
    Ok(Tbox::new(List::from_vec(axioms), constraints))
}

fn constraints_copied(
    alloc: Global,
    constraints: &[Constraint],
) -> Result<List<Constraint>, AllocError>
    ensures { IfOk result (λ copies. copies ≡ constraints.now) }
{
    let mut copies = List::new(alloc);
    for constraint in constraints {
        copies.push(constraint.copy(alloc)?)?;
    }
    Ok(copies)
}
