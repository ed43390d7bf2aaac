//! Row queries in the making.
ghost use Rattle.std.specs.Prelude.{◌≡◌, IfOk};

use mapping_facts::{RowTerm, SourceQuery};
use std::alloc::{AllocError, Global};
use vocabulary::{List, VarId};

/// Which target of which mapping gives an atom's fact, both counted from 0, and the place among the
/// row query's tables from which that mapping's tables stand.
#[derive(Clone, Copy, Debug, PartialEq, Eq)]
pub struct Origin {
    pub mapping: u32,
    pub target: u32,
    pub first: u32,
}

/// The row term at which a variable stands first.
#[derive(Debug, Drop)]
pub struct Binding {
    pub var: VarId,
    pub term: RowTerm,
}

/// A row query for the first atoms of a query: one origin for each, and one binding for each of
/// their variables.
#[derive(Debug, Drop)]
pub struct Draft {
    pub query: SourceQuery,
    pub bound: List<Binding>,
    pub origins: List<Origin>,
}

fn copy_bindings(alloc: Global, bound: &[Binding]) -> Result<List<Binding>, AllocError>
    ensures { IfOk result (λ l. l ≡ bound.now) }
{
    let mut copies = List::new(alloc);
    for binding in bound {
        let term = binding.term.copy(alloc)?;
        copies.push(Binding {
            var: binding.var,
            term,
        })?;
    }
    Ok(copies)
}

fn copy_origins(alloc: Global, origins: &[Origin]) -> Result<List<Origin>, AllocError>
    ensures { IfOk result (λ l. l ≡ origins.now) }
{
    let mut copies = List::new(alloc);
    for origin in origins {
        copies.push(*origin)?;
    }
    Ok(copies)
}

impl Draft {
    pub fn copy(&self, alloc: Global) -> Result<Draft, AllocError>
        ensures { IfOk result (λ d. d ≡ self.now) }
    {
        let query = self.query.copy(alloc)?;
        let bound = copy_bindings(alloc, self.bound.items())?;
        let origins = copy_origins(alloc, self.origins.items())?;
        Ok(Draft {
            query,
            bound,
            origins,
        })
    }
}
