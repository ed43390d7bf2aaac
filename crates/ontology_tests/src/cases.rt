//! Cases that stand in one text: each is an ontology and, behind `=> `, what is to be said of it.
ghost use Rattle.std.specs.Prelude.{◌<◌, ◌^◌, ◌-◌, length};

use owl_functional::{Ontology, OwlFault, read_ontology};
use std::alloc::{AllocError, Global};
use vocabulary::{List, Name};

// No text of a test is longer.
const LONGEST: usize = 10000000;

fn read_short(alloc: Global, text: &[u8]) -> Option<OwlFault>
    requires { length text.now < 2 ^ 32 - 1 }
{
    read_ontology(alloc, text).err()
}

// The first fault of a text.
pub fn fault_of(alloc: Global, text: &[u8]) -> Option<OwlFault> {
    if text.len() < LONGEST {
        read_short(alloc, text)
    } else {
        None
    }
}

pub fn has_fault(alloc: Global, text: &[u8], want: &str) -> Result<bool, AllocError> {
    let fault = fault_of(alloc, text);
    Ok(format!(in alloc; "{fault:?}")?.as_str() == want)
}

fn push_names(text: &mut String, names: &List<Name>) -> Result<(), AllocError> {
    for name in names.items() {
        text.push_str(name.text())?;
        text.push_str(" ")?;
    }
    Ok(())
}

// The names of the classes and of the links, the sorts of the links, the axioms and the constraints.
fn shown(alloc: Global, ontology: &Ontology) -> Result<String, AllocError> {
    let mut text = String::new(alloc);
    push_names(&mut text, &ontology.classes)?;
    text.push_str("- ")?;
    push_names(&mut text, &ontology.links)?;
    let sides = ontology.sides.items();
    let axioms = ontology.tbox.axioms();
    let constraints = ontology.tbox.constraints();
    let rest = format!(in alloc; "{sides:?}\n{axioms:?}\n{constraints:?}")?;
    text.push_str(rest.as_str())?;
    Ok(text)
}

fn gives_short(alloc: Global, text: &[u8], want: &str) -> Result<bool, AllocError>
    requires { length text.now < 2 ^ 32 - 1 }
{
    match read_ontology(alloc, text) {
        Ok(ontology) => Ok(shown(alloc, &ontology)?.as_str() == want),
        Err(_) => Ok(false),
    }
}

// The text is an ontology that is shown like this.
pub fn gives(alloc: Global, text: &[u8], want: &str) -> Result<bool, AllocError> {
    if text.len() < LONGEST {
        gives_short(alloc, text, want)
    } else {
        Ok(false)
    }
}
