//! The line that names an ontology.
ghost use Rattle.std.specs.Prelude.{◌≡◌, ◌≢◌, ◌+◌, map, option_map, IfOk, IfErr, Ok, Err};
ghost use Rattle.line_lexer.specs.Tokens.{seen, tokens_of};
ghost use Rattle.project_language.specs.Project.{name_lines, named_file, naming};

use crate::ProjectFault;
use line_lexer::grammar::{any_quoted, ended, expect};
use line_lexer::{Line, LineFault, Lines, Token, tokens_of};
use std::alloc::Global;

// FILE, where the tokens are `ontology "FILE"`.
fn named_file<'a>(tokens: &[Token<'a>]) -> Option<&'a str>
    ensures { option_map (λ file. file.now) result ≡ named_file (map seen tokens.now) }
{
    let rest = expect("ontology", tokens)?;
    let (file, behind) = any_quoted(rest)?;
    if ended(behind) { Some(file) } else { None }
}

// The file that the line names as its ontology, and none where it has no tokens.
fn naming<'a>(alloc: Global, line: &Line<'a>) -> Result<Option<&'a str>, LineFault>
    ensures read { IfOk result (λ file. naming (tokens_of line.now.text.now) ≡ Ok (option_map (λ f. f.now) file)) }
    ensures fault { IfErr result (λ e. e ≢ LineFault.NoMemory → naming (tokens_of line.now.text.now) ≡ Err e) }
{
    let tokens = tokens_of(alloc, line.text)?;
    if tokens.is_empty() {
        return Ok(None);
    }
    match named_file(&tokens) {
        Some(file) => Ok(Some(file)),
        None => Err(LineFault::Syntax),
    }
}

/// The file that the first line with tokens names as the ontology, and the lines behind that one.
pub(crate) fn name_lines<'a>(
    alloc: Global,
    lines: Lines<'a>,
) -> Result<(&'a str, Lines<'a>), ProjectFault>
    ensures named { IfOk result (λ found. name_lines (lines.entry.number + 1) lines.entry.lines ≡ Ok (found.0.now, found.1)) }
    ensures fault { IfErr result (λ e. e ≢ ProjectFault.NoMemory → name_lines (lines.entry.number + 1) lines.entry.lines ≡ Err e) }
{
    let mut lines = lines;
    while let Some(line) = lines.next() {
        match naming(alloc, &line) {
            Ok(None) => {}
            Ok(Some(file)) => return Ok((file, lines)),
            Err(fault) => return Err(ProjectFault::of_line(line.number, fault)),
        }
    }
    Err(ProjectFault::Line(1, LineFault::Syntax))
}
