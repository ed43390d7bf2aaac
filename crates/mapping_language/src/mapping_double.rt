//! Names and aliases of mapping lines that are taken.
ghost use Rattle.std.specs.Prelude.{◌≡◌, map, IfOk};
ghost use Rattle.std.specs.List.{list_any};
ghost use Rattle.std.specs.Str.{bytes_eq};
ghost use Rattle.mapping_language.specs.Mappings.{double};
ghost use Rattle.mapping_language.specs.Shown.{map_shown};

use crate::Sources;
use crate::written::{MapLine, Source};
use line_lexer::has_twice;
use std::alloc::{AllocError, Global};

fn is_taken(sources: &Sources, name: &str) -> bool
    ensures { result ≡ list_any (λ other. bytes_eq other.name name.now) sources.now.mappings }
{
    sources
        .mappings()
        .iter()
        .any(|other| other.name.text() == name)
}

#[tactic(auto, using(crate::proofs::Lists::next_mapped, crate::proofs::Lists::mapped_push))]
fn aliases<'a>(alloc: Global, froms: &[Source<'a>]) -> Result<Vec<&'a str>, AllocError>
    ensures { IfOk result (λ v. map (λ a. a.now) v.items ≡ map (λ from. from.alias.now) froms.now) }
{
    let mut aliases = Vec::new(alloc);
    for from in froms {
        aliases.push(from.alias)?;
    }
    Ok(aliases)
}

/// A mapping of the name stands before, or an alias stands twice.
#[tactic(auto, using(crate::proofs::Lists::map_of_map))]
pub(crate) fn double(
    alloc: Global,
    sources: &Sources,
    line: &MapLine<'_>,
) -> Result<bool, AllocError>
    ensures { IfOk result (λ r. r ≡ double sources.now (map_shown line.now)) }
{
    let aliases = aliases(alloc, &line.sources)?;
    Ok(is_taken(sources, line.name) || has_twice(&aliases))
}
