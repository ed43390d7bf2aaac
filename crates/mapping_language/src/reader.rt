//! Reading a source line or a mapping line.
ghost use Rattle.std.specs.Prelude.{◌≡◌, ◌≢◌, length, map, OnOk, IfErr, Ok, Err};
ghost use Rattle.line_lexer.specs.Names.{AreNames};
ghost use Rattle.mapping_language.specs.Changes.{HaveOffsets};
ghost use Rattle.mapping_language.specs.Mappings.{read_mapping_line};
ghost use Rattle.mapping_language.specs.Tables.{read_source_line};
ghost use Rattle.mapping_language.specs.Within.{AreFew};
ghost use Rattle.mapping_facts.specs.Within.{AreMappingsWithin};
ghost use Rattle.mapping_facts.specs.Fits.{AreFit};
ghost use Rattle.uml_model.specs.Rules.{class_named, link_named};

use crate::mapping_change::add_mapping_line;
use crate::mapping_grammar::map_line;
use crate::source_change::add_source_line;
use crate::source_grammar::source_line;
use crate::{Sources, mapping_rules, source_rules};
use line_lexer::{Line, LineFault, tokens_of};
use std::alloc::Global;
use uml_model::Model;

/// Reads a line into the sources. A line whose first word is none of `table`, `column` and `key` is Syntax here, so that
/// lines of other kinds are for the caller to tell apart. A line without tokens says nothing.
pub fn read_source_line(
    alloc: Global,
    sources: &mut Sources,
    line: &Line<'_>,
) -> Result<(), LineFault>
    ensures read { OnOk result (read_source_line sources.old line.now.text.now ≡ Ok sources.new) }
    ensures fault { IfErr result (λ e. e ≢ LineFault.NoMemory → read_source_line sources.old line.now.text.now ≡ Err e) }
    ensures unchanged { IfErr result (λ e. e ≢ LineFault.NoMemory → sources.new ≡ sources.old) }
    ensures offsets { HaveOffsets sources.old → OnOk result (HaveOffsets sources.new) }
    ensures fit { AreFit sources.old.mappings → OnOk result (AreFit sources.new.mappings) }
    ensures mappings { OnOk result (sources.new.mappings ≡ sources.old.mappings) }
    ensures names { AreNames (map (λ m. m.name) sources.old.mappings) → OnOk result (AreNames (map (λ m. m.name) sources.new.mappings)) }
{
    let tokens = tokens_of(alloc, line.text)?;
    if tokens.is_empty() {
        return Ok(());
    }
    let Some(line) = source_line(alloc, &tokens)? else {
        return Err(LineFault::Syntax);
    };
    if let Some(fault) = source_rules::broken(sources, &line) {
        return Err(fault);
    }
    add_source_line(alloc, sources, &line)?;
    Ok(())
}

// What is promised of names follows from what the line says, so it stands at the call above.
fn read_tokens_of_mapping(
    alloc: Global,
    sources: &mut Sources,
    model: &Model,
    line: &Line<'_>,
) -> Result<(), LineFault>
    requires { HaveOffsets sources.old }
    ensures read { OnOk result (read_mapping_line (class_named model.now) (link_named model.now) sources.old line.now.text.now ≡ Ok sources.new) }
    ensures fault { IfErr result (λ e. e ≢ LineFault.NoMemory → read_mapping_line (class_named model.now) (link_named model.now) sources.old line.now.text.now ≡ Err e) }
    ensures unchanged { IfErr result (λ e. e ≢ LineFault.NoMemory → sources.new ≡ sources.old) }
    ensures offsets { HaveOffsets sources.new }
    ensures fit { AreFit sources.old.mappings → OnOk result (AreFit sources.new.mappings) }
{
    let tokens = tokens_of(alloc, line.text)?;
    if tokens.is_empty() {
        return Ok(());
    }
    let Some(line) = map_line(alloc, &tokens)? else {
        return Err(LineFault::Syntax);
    };
    if let Some(fault) = mapping_rules::broken(alloc, sources, model, &line)? {
        return Err(fault);
    }
    add_mapping_line(alloc, sources, model, &line)?;
    Ok(())
}

/// Reads a line into the sources, whose names of classes and links are those of the model. A line whose first word is not
/// `map` is Syntax here. A line without tokens says nothing. The offsets are needed for times in conditions.
pub fn read_mapping_line(
    alloc: Global,
    sources: &mut Sources,
    model: &Model,
    line: &Line<'_>,
) -> Result<(), LineFault>
    requires { HaveOffsets sources.old }
    ensures read { OnOk result (read_mapping_line (class_named model.now) (link_named model.now) sources.old line.now.text.now ≡ Ok sources.new) }
    ensures fault { IfErr result (λ e. e ≢ LineFault.NoMemory → read_mapping_line (class_named model.now) (link_named model.now) sources.old line.now.text.now ≡ Err e) }
    ensures unchanged { IfErr result (λ e. e ≢ LineFault.NoMemory → sources.new ≡ sources.old) }
    ensures offsets { HaveOffsets sources.new }
    ensures fit { AreFit sources.old.mappings → OnOk result (AreFit sources.new.mappings) }
    ensures names { AreNames (map (λ m. m.name) sources.old.mappings) → OnOk result (AreNames (map (λ m. m.name) sources.new.mappings)) }
    ensures few { AreFew sources.old.mappings → OnOk result (AreFew sources.new.mappings) }
    ensures within { AreMappingsWithin (length model.now.classes) (length model.now.links) sources.old.mappings → OnOk result (AreMappingsWithin (length model.now.classes) (length model.now.links) sources.new.mappings) }
{
    read_tokens_of_mapping(alloc, sources, model, line)
}
