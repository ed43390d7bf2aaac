//! The names of a model, in lists.
ghost use Rattle.std.specs.Prelude.{◌≡◌, IfOk};

use std::alloc::{AllocError, Global};
use uml_model::Model;
use vocabulary::{ClassId, LinkId, List, Name};

/// The names of the classes, by their numbers.
#[tactic(auto, using(crate::proofs::Taking::take_next))]
pub(crate) fn class_names(alloc: Global, model: &Model) -> Result<List<Name>, AllocError>
    ensures { IfOk result (λ names. names ≡ model.now.classes) }
{
    let mut names = List::new(alloc);
    for class in 0..model.classes() {
        names.push(Name::new(alloc, model.class_name(ClassId(class)))?)?;
    }
    Ok(names)
}

/// The names of the associations and attributes, by their numbers.
#[tactic(auto, using(crate::proofs::Taking::take_next))]
pub(crate) fn link_names(alloc: Global, model: &Model) -> Result<List<Name>, AllocError>
    ensures { IfOk result (λ names. names ≡ model.now.links) }
{
    let mut names = List::new(alloc);
    for link in 0..model.links() {
        names.push(Name::new(alloc, model.link_name(LinkId(link)))?)?;
    }
    Ok(names)
}
