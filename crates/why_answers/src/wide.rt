//! Facts of tables for the atoms of a query that unfolds into many row queries.
ghost use Rattle.std.specs.Prelude.{◌≡◌, ◌≤◌, length, IfOk, MatchOption};
ghost use Rattle.queries.specs.Matches.{Matched, Terms};
ghost use Rattle.mapping_facts.specs.Facts.{mapped_facts};
ghost use Rattle.mapping_facts.specs.Fits.{AreFit};
ghost use Rattle.why_answers.specs.Matching.{AreWithoutVariables, HasFact, IsFactOf, IsWithoutVariables, NoMatch, ReadMapped};

use crate::asking::asked;
use crate::matching::unfolded_match;
use mapping_facts::Mapping;
use queries::{Atom, Query};
use query_images::{images, with_all_variables};
use source_tables::Table;
use std::alloc::{AllocError, Global};
use vocabulary::{Fact, List};

fn atom_fact(
    alloc: Global,
    atom: &Atom,
    mappings: &[Mapping],
    tables: &[Table],
) -> Result<Fact, AllocError>
    requires fit { AreFit mappings.now }
    requires solid { IsWithoutVariables atom.now }
    requires some { HasFact (mapped_facts mappings.now tables.now) atom.now }
    ensures { IfOk result (IsFactOf (mapped_facts mappings.now tables.now) atom.now) }
{
    let mut atoms = List::new(alloc);
    atoms.push(atom.copy(alloc)?)?;
    let head = List::new(alloc);
    let query = Query { head, atoms };
    let Some(facts) = unfolded_match(alloc, &query, mappings, tables)? else {
        unreachable!();
    };
    let Some(fact) = facts.into_vec().pop() else {
        unreachable!();
    };
    Ok(fact)
}

// A fact for each of these atoms, which have no variables.
fn atom_facts(
    alloc: Global,
    atoms: &[Atom],
    mappings: &[Mapping],
    tables: &[Table],
) -> Result<List<Fact>, AllocError>
    requires fit { AreFit mappings.now }
    requires solid { AreWithoutVariables atoms.now }
    requires some { (σ : Terms) × Matched (mapped_facts mappings.now tables.now) σ atoms.now }
    ensures { IfOk result (ReadMapped mappings.now tables.now atoms.now) }
{
    let mut facts = List::new(alloc);
    for atom in atoms {
        facts.push(atom_fact(alloc, atom, mappings, tables)?)?;
    }
    Ok(facts)
}

/// Mapped facts for the atoms of a query, `None` exactly where they have no match. The images of all
/// their variables are found first, since these can be joined. The terms of the first of them stand
/// for the variables, and what each atom then says is unfolded alone.
pub(crate) fn wide_match(
    alloc: Global,
    query: &Query,
    mappings: &[Mapping],
    tables: &[Table],
) -> Result<Option<List<Fact>>, AllocError>
    requires few { length query.now.atoms ≤ 16 }
    requires fit { AreFit mappings.now }
    ensures { IfOk result (λ found. MatchOption found (NoMatch (mapped_facts mappings.now tables.now) query.now.atoms) (ReadMapped mappings.now tables.now query.now.atoms)) }
{
    let full = with_all_variables(alloc, query)?;
    let found = images(alloc, &full, mappings, tables)?;
    let Some(tuple) = found.items().first() else {
        return Ok(None);
    };
    let solid = asked(alloc, &full, tuple.items())?;
    let facts = atom_facts(alloc, solid.atoms.items(), mappings, tables)?;
    Ok(Some(facts))
}
