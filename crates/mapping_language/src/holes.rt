//! The holes of texts, whatever else the texts have.
ghost use Rattle.std.specs.Prelude.{◌≡◌, ◌<◌, ◌++◌, [], option_map, position, length, IfSome, None, Some};
ghost use Rattle.std.specs.Option.{option_to_list};
ghost use Rattle.iri_templates.specs.Characters.{is_brace};
ghost use Rattle.iri_templates.specs.Templates.{hole_at as hole_behind};
ghost use Rattle.mapping_language.specs.Mappings.{braced, holes, cell_of_hole};
ghost use Rattle.mapping_language.specs.Shown.{cell_shown};

use crate::written::Cell;

fn first_brace(text: &[u8]) -> Option<usize>
    ensures { result ≡ position is_brace text.now }
{
    text.iter().position(|b| *b == b'{' || *b == b'}')
}

/// The text of the hole whose opening brace stands before this text.
pub(crate) fn hole_at(text: &str) -> Option<&str>
    ensures { option_to_list (option_map (λ hole. hole.now) result) ≡ braced (hole_behind text.now) }
{
    let end = first_brace(text.as_bytes())?;
    if end == 0 || text.as_bytes()[end] != b'}' {
        return None;
    }
    let (hole, _) = text.split_at(end);
    Some(hole)
}

/// The text behind the first opening brace.
pub(crate) fn behind_brace(text: &str) -> Option<&str>
    ensures none { result ≡ None → holes text.now ≡ [] }
    ensures some { IfSome result (λ behind. holes text.now ≡ braced (hole_behind behind.now) ++ holes behind.now) }
    ensures shorter { IfSome result (λ behind. length behind.now < length text.now) }
{
    let (_, behind) = text.split_once('{')?;
    Some(behind)
}

/// The cell that a hole names: the alias before the first dot, and the column behind it.
pub(crate) fn cell_of_hole(hole: &str) -> Cell<'_>
    ensures { cell_shown result ≡ cell_of_hole hole.now }
{
    match hole.split_once('.') {
        Some((alias, column)) => Cell { alias, column },
        None => Cell {
            alias: hole,
            column: "",
        },
    }
}
