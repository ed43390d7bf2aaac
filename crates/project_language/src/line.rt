//! Reading one line of a project.
ghost use Rattle.std.specs.Prelude.{◌≡◌, ◌≢◌, [], ◌∷◌, map, is_some, OnOk, IfOk, IfErr, Ok, Err};
ghost use Rattle.line_lexer.specs.Tokens.{Begins, seen, tokens_of};
ghost use Rattle.line_lexer.specs.Grammar.{expect};
ghost use Rattle.project_language.specs.Project.{again, is_of_tables, is_of_mappings, is_of_notes, is_opening, opening, read_seen};
ghost use Rattle.project_language.specs.Sound.{IsSound};

use crate::Project;
use annotation_language::read_annotation_line;
use line_lexer::grammar::{ended, expect};
use line_lexer::{Line, LineFault, Shape, Token, first_token, tokens_of};
use mapping_language::{read_mapping_line, read_source_line};
use std::alloc::Global;
use uml_model::read_model_line;

// Whether the token is this text, and not quoted.
fn is_word(first: &Token<'_>, word: &str) -> bool
    ensures { result ≡ is_some (expect word.now (seen first.now ∷ [])) }
{
    match first.shape {
        Shape::Quoted => false,
        _ => first.text == word,
    }
}

// `table`, `column` or `key` stands first.
fn is_of_tables(first: &Token<'_>) -> bool
    ensures { result ≡ is_of_tables (seen first.now ∷ []) }
{
    is_word(first, "table") || is_word(first, "column") || is_word(first, "key")
}

fn is_of_mappings(first: &Token<'_>) -> bool
    ensures { result ≡ is_of_mappings (seen first.now ∷ []) }
{
    is_word(first, "map")
}

fn is_of_notes(first: &Token<'_>) -> bool
    ensures { result ≡ is_of_notes (seen first.now ∷ []) }
{
    is_word(first, "case")
        || is_word(first, "casename")
        || is_word(first, "event")
        || is_word(first, "cases")
        || is_word(first, "set")
        || is_word(first, "query")
}

fn is_opening(tokens: &[Token<'_>]) -> bool
    ensures { result ≡ is_opening (map seen tokens.now) }
{
    let Some(rest) = expect("onprom", tokens) else {
        return false;
    };
    match expect("1", rest) {
        Some(rest) => ended(rest),
        None => false,
    }
}

/// Whether the line is `onprom 1`, and not without tokens.
pub(crate) fn opening(alloc: Global, line: &Line<'_>) -> Result<bool, LineFault>
    ensures read { IfOk result (λ is. opening (tokens_of line.now.text.now) ≡ Ok is) }
    ensures fault { IfErr result (λ e. e ≢ LineFault.NoMemory → opening (tokens_of line.now.text.now) ≡ Err e) }
{
    let tokens = tokens_of(alloc, line.text)?;
    if tokens.is_empty() {
        return Ok(false);
    }
    if is_opening(&tokens) {
        Ok(true)
    } else {
        Err(LineFault::Syntax)
    }
}

// The fault of a line that begins with `onprom` and is not the first, by whether it is the opening line again.
fn again(is_opening: Result<bool, LineFault>) -> LineFault
    ensures { result ≡ again is_opening }
{
    match is_opening {
        Ok(true) => LineFault::Double,
        Ok(false) => LineFault::Syntax,
        Err(fault) => fault,
    }
}

impl Project {
    /// Reads a line behind `onprom 1`.
    pub(crate) fn read_line(&mut self, alloc: Global, line: &Line<'_>) -> Result<(), LineFault>
        requires { IsSound self.old }
        ensures read { OnOk result (read_seen line.now.number self.old (tokens_of line.now.text.now) ≡ Ok self.new) }
        ensures fault { IfErr result (λ e. e ≢ LineFault.NoMemory → read_seen line.now.number self.old (tokens_of line.now.text.now) ≡ Err e) }
        ensures sound { OnOk result (IsSound self.new) }
    {
        match first_token(line.text) {
            Err(_) => Err(LineFault::Syntax),
            Ok(None) => Ok(()),
            Ok(Some(first)) => self.read_by_word(alloc, &first, line),
        }
    }

    // By the first word alone, so that the reader of its kind is the only one that looks at all tokens.
    fn read_by_word(
        &mut self,
        alloc: Global,
        first: &Token<'_>,
        line: &Line<'_>,
    ) -> Result<(), LineFault>
        requires sound { IsSound self.old }
        requires begins { Begins (seen first.now) (tokens_of line.now.text.now) }
        ensures read { OnOk result (read_seen line.now.number self.old (tokens_of line.now.text.now) ≡ Ok self.new) }
        ensures fault { IfErr result (λ e. e ≢ LineFault.NoMemory → read_seen line.now.number self.old (tokens_of line.now.text.now) ≡ Err e) }
        ensures sound { OnOk result (IsSound self.new) }
    {
        if is_word(first, "onprom") {
            return Err(again(opening(alloc, line)));
        }
        if is_of_tables(first) {
            return read_source_line(alloc, &mut self.sources, line);
        }
        if is_of_mappings(first) {
            return read_mapping_line(alloc, &mut self.sources, &self.model, line);
        }
        if is_of_notes(first) {
            return read_annotation_line(alloc, &mut self.noted, &self.model, line);
        }
        if self.given.is_some() {
            return Err(LineFault::Syntax);
        }
        read_model_line(alloc, &mut self.model, line)
    }
}
