//! The model of the names of an ontology.
ghost use Rattle.std.specs.Prelude.{◌<◌, ◌^◌, ◌-◌, length};

use owl_functional::read_ontology;
use std::alloc::{AllocError, Global};
use std::test::Fail;
use uml_model::{Element, Model};
use vocabulary::{ClassId, LinkId, Side, ValueKind};

const NAMES: &str =
    "Ontology(Declaration(Class(<e#B>)) Declaration(ObjectProperty(<e#p>)) Declaration(Class(<e#A>))
Declaration(DataProperty(<e#u>)) DataPropertyRange(<e#u> <http://www.w3.org/2001/XMLSchema#integer>))";

fn has_names(model: &Model) -> bool {
    model.find("B") == Some(Element::Class(ClassId(0)))
        && model.find("A") == Some(Element::Class(ClassId(1)))
        && model.link_named("p") == Some((LinkId(0), Side::Object))
        && model.link_named("u") == Some((LinkId(1), Side::Value(ValueKind::Int)))
        && model.find("e#A").is_none()
        && model.lines().is_empty()
}

fn gives_model(alloc: Global, text: &[u8]) -> Result<bool, AllocError>
    requires { length text.now < 2 ^ 32 - 1 }
{
    match read_ontology(alloc, text) {
        Ok(o) => {
            let model = Model::with_names(
                alloc,
                o.classes.items(),
                o.links.items(),
                o.sides.items(),
            )?;
            Ok(has_names(&model))
        }
        Err(_) => Ok(false),
    }
}

#[test]
fn names_of_an_ontology_make_a_model(rt: HostRuntime) -> Result<(), Fail> {
    assert!(rt; NAMES.len() < 1000 && gives_model(rt.alloc(), NAMES.as_bytes())?);
    Ok(())
}
