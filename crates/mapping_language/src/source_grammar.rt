//! The grammar of source lines.
ghost use Rattle.std.specs.Prelude.{◌≡◌, map, option_map, IfOk};
ghost use Rattle.line_lexer.specs.Tokens.{seen};
ghost use Rattle.mapping_language.specs.Grammar.{with_text, table_line, column_line, key_line, source_line};
ghost use Rattle.mapping_language.specs.Shown.{line_shown};

use crate::written::SourceLine;
use line_lexer::Token;
use line_lexer::grammar::{any_quoted, ended, expect, name, names};
use std::alloc::{AllocError, Global};
use uml_model::kind;

/// The tokens that are still to be read.
#[derive(Drop)]
pub(crate) struct Left<'t, 'a> {
    pub(crate) tokens: &'t [Token<'a>],
}

// Nothing more, or the word, a quoted text, and nothing more.
fn with_text<'a>(word: &str, tokens: &[Token<'a>]) -> Option<Option<&'a str>>
    ensures { option_map (λ found. option_map (λ text. text.now) found) result ≡ with_text word.now (map seen tokens.now) }
{
    if let Some(rest) = expect(word, tokens) {
        let (text, rest) = any_quoted(rest)?;
        return if ended(rest) { Some(Some(text)) } else { None };
    }
    if ended(tokens) { Some(None) } else { None }
}

#[tactic(auto, unfolding(crate::specs::Grammar::table_line))]
fn table_line<'a>(tokens: &[Token<'a>]) -> Option<SourceLine<'a>>
    ensures { option_map line_shown result ≡ table_line (map seen tokens.now) }
{
    let (table, rest) = name(tokens)?;
    let (file, rest) = any_quoted(rest)?;
    let offset = with_text("offset", rest)?;
    Some(SourceLine::Table(table, file, offset))
}

#[tactic(auto, unfolding(crate::specs::Grammar::column_line))]
fn column_line<'a>(tokens: &[Token<'a>]) -> Option<SourceLine<'a>>
    ensures { option_map line_shown result ≡ column_line (map seen tokens.now) }
{
    let (table, rest) = name(tokens)?;
    let (column, rest) = name(rest)?;
    let (kind, rest) = kind(rest)?;
    let header = with_text("header", rest)?;
    Some(SourceLine::Column(table, column, kind, header))
}

#[tactic(auto, unfolding(crate::specs::Grammar::key_line))]
fn key_line<'a>(alloc: Global, tokens: &[Token<'a>]) -> Result<Option<SourceLine<'a>>, AllocError>
    ensures { IfOk result (λ found. option_map line_shown found ≡ key_line (map seen tokens.now)) }
{
    let Some((table, rest)) = name(tokens) else {
        return Ok(None);
    };
    let Some(rest) = expect("(", rest) else {
        return Ok(None);
    };
    let Some((columns, rest)) = names(alloc, rest)? else {
        return Ok(None);
    };
    let Some(rest) = expect(")", rest) else {
        return Ok(None);
    };
    if ended(rest) {
        Ok(Some(SourceLine::Key(table, columns)))
    } else {
        Ok(None)
    }
}

/// The source line that the tokens are, if they are one.
#[tactic(auto, unfolding(crate::specs::Grammar::source_line))]
pub(crate) fn source_line<'a>(
    alloc: Global,
    tokens: &[Token<'a>],
) -> Result<Option<SourceLine<'a>>, AllocError>
    ensures { IfOk result (λ found. option_map line_shown found ≡ source_line (map seen tokens.now)) }
{
    if let Some(rest) = expect("table", tokens) {
        return Ok(table_line(rest));
    }
    if let Some(rest) = expect("column", tokens) {
        return Ok(column_line(rest));
    }
    match expect("key", tokens) {
        Some(rest) => key_line(alloc, rest),
        None => Ok(None),
    }
}
