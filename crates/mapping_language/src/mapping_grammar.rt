//! The grammar of mapping lines.
ghost use Rattle.std.specs.Prelude.{◌≡◌, ◌<◌, length, map, option_map, codes, IfOk, IfSome};
ghost use Rattle.line_lexer.specs.Tokens.{seen};
ghost use Rattle.line_lexer.specs.Separated.{separated};
ghost use Rattle.mapping_language.specs.Grammar.{cell as cell_at, other as other_at, nullness as nullness_at, condition as condition_at, term as term_at, target as target_at, source as source_at, conditions as conditions_at, map_line as map_line_at, map_name as map_name_at};
ghost use Rattle.mapping_language.specs.Shown.{cell_shown, other_shown, condition_shown, term_shown, target_shown, source_shown, map_shown};

use crate::source_grammar::Left;
use crate::written::{Cell, Condition, MapLine, Other, Source, Target, Term};
use line_lexer::Token;
use line_lexer::grammar::{any_quoted, ended, expect, name};
use std::alloc::{AllocError, Global};

fn cell<'t, 'a>(tokens: &'t [Token<'a>]) -> Option<(Cell<'a>, &'t [Token<'a>])>
    ensures { option_map (λ found. (cell_shown found.0, map seen found.1.now)) result ≡ cell_at (map seen tokens.now) }
{
    let (alias, rest) = name(tokens)?;
    let rest = expect(".", rest)?;
    let (column, rest) = name(rest)?;
    Some((Cell { alias, column }, rest))
}

fn other<'t, 'a>(tokens: &'t [Token<'a>]) -> Option<(Other<'a>, &'t [Token<'a>])>
    ensures { option_map (λ found. (other_shown found.0, map seen found.1.now)) result ≡ other_at (map seen tokens.now) }
{
    if let Some((text, rest)) = any_quoted(tokens) {
        return Some((Other::Text(text), rest));
    }
    let (cell, rest) = cell(tokens)?;
    Some((Other::Cell(cell), rest))
}

// Behind `a.c is`.
fn nullness<'t, 'a>(
    cell: Cell<'a>,
    tokens: &'t [Token<'a>],
) -> Option<(Condition<'a>, &'t [Token<'a>])>
    ensures { option_map (λ found. (condition_shown found.0, map seen found.1.now)) result ≡ nullness_at (cell_shown cell.entry) (map seen tokens.now) }
{
    if let Some(rest) = expect("not", tokens) {
        let rest = expect("null", rest)?;
        return Some((Condition::NotNull(cell), rest));
    }
    let rest = expect("null", tokens)?;
    Some((Condition::Null(cell), rest))
}

#[tactic(auto, unfolding(crate::specs::Grammar::condition))]
fn condition<'t, 'a>(tokens: &'t [Token<'a>]) -> Option<(Condition<'a>, &'t [Token<'a>])>
    ensures { option_map (λ found. (condition_shown found.0, map seen found.1.now)) result ≡ condition_at (map seen tokens.now) }
{
    let (cell, rest) = cell(tokens)?;
    if let Some(rest) = expect("=", rest) {
        let (other, rest) = other(rest)?;
        return Some((Condition::Same(cell, other), rest));
    }
    if let Some(rest) = expect("<>", rest) {
        let (other, rest) = other(rest)?;
        return Some((Condition::Differs(cell, other), rest));
    }
    let rest = expect("is", rest)?;
    nullness(cell, rest)
}

fn term<'t, 'a>(tokens: &'t [Token<'a>]) -> Option<(Term<'a>, &'t [Token<'a>])>
    ensures { option_map (λ found. (term_shown found.0, map seen found.1.now)) result ≡ term_at (map seen tokens.now) }
{
    if let Some((text, rest)) = any_quoted(tokens) {
        return Some((Term::Constant(text), rest));
    }
    if let Some(rest) = expect("iri", tokens) {
        let (text, rest) = any_quoted(rest)?;
        return Some((Term::Iri(text), rest));
    }
    let (cell, rest) = cell(tokens)?;
    Some((Term::Column(cell), rest))
}

#[tactic(auto, unfolding(crate::specs::Grammar::target))]
fn target<'t, 'a>(tokens: &'t [Token<'a>]) -> Option<(Target<'a>, &'t [Token<'a>])>
    ensures { option_map (λ found. (target_shown found.0, map seen found.1.now)) result ≡ target_at (map seen tokens.now) }
{
    let (p, rest) = name(tokens)?;
    let rest = expect("(", rest)?;
    let (a, rest) = term(rest)?;
    if let Some(rest) = expect(",", rest) {
        let (b, rest) = term(rest)?;
        let rest = expect(")", rest)?;
        return Some((Target::Two(p, a, b), rest));
    }
    let rest = expect(")", rest)?;
    Some((Target::One(p, a), rest))
}

fn source<'t, 'a>(tokens: &'t [Token<'a>]) -> Option<(Source<'a>, &'t [Token<'a>])>
    ensures { option_map (λ found. (source_shown found.0, map seen found.1.now)) result ≡ source_at (map seen tokens.now) }
{
    let (table, rest) = name(tokens)?;
    let (alias, rest) = name(rest)?;
    Some((Source { table, alias }, rest))
}

fn sources<'t, 'a>(
    alloc: Global,
    tokens: &'t [Token<'a>],
) -> Result<Option<(Vec<Source<'a>>, &'t [Token<'a>])>, AllocError>
    ensures read { IfOk result (λ found. option_map (λ f. (map source_shown f.0.items, map seen f.1.now)) found ≡ separated (codes ",") source_at (map seen tokens.now)) }
    ensures some { IfOk result (λ found. IfSome found (λ f. 0 < length f.0.items)) }
{
    let mut found = Vec::new(alloc);
    let mut left = Left { tokens };
    for _i in 0..tokens.len() {
        let Some((next, behind)) = source(left.tokens) else {
            return Ok(None);
        };
        found.push(next)?;
        let Some(rest) = expect(",", behind) else {
            return Ok(Some((found, behind)));
        };
        left.tokens = rest;
    }
    Ok(None)
}

fn joined_conditions<'t, 'a>(
    alloc: Global,
    tokens: &'t [Token<'a>],
) -> Result<Option<(Vec<Condition<'a>>, &'t [Token<'a>])>, AllocError>
    ensures { IfOk result (λ found. option_map (λ f. (map condition_shown f.0.items, map seen f.1.now)) found ≡ separated (codes "and") condition_at (map seen tokens.now)) }
{
    let mut found = Vec::new(alloc);
    let mut left = Left { tokens };
    for _i in 0..tokens.len() {
        let Some((next, behind)) = condition(left.tokens) else {
            return Ok(None);
        };
        found.push(next)?;
        let Some(rest) = expect("and", behind) else {
            return Ok(Some((found, behind)));
        };
        left.tokens = rest;
    }
    Ok(None)
}

fn targets<'t, 'a>(
    alloc: Global,
    tokens: &'t [Token<'a>],
) -> Result<Option<(Vec<Target<'a>>, &'t [Token<'a>])>, AllocError>
    ensures { IfOk result (λ found. option_map (λ f. (map target_shown f.0.items, map seen f.1.now)) found ≡ separated (codes ",") target_at (map seen tokens.now)) }
{
    let mut found = Vec::new(alloc);
    let mut left = Left { tokens };
    for _i in 0..tokens.len() {
        let Some((next, behind)) = target(left.tokens) else {
            return Ok(None);
        };
        found.push(next)?;
        let Some(rest) = expect(",", behind) else {
            return Ok(Some((found, behind)));
        };
        left.tokens = rest;
    }
    Ok(None)
}

// `where COND and COND`, or nothing.
fn conditions<'t, 'a>(
    alloc: Global,
    tokens: &'t [Token<'a>],
) -> Result<Option<(Vec<Condition<'a>>, &'t [Token<'a>])>, AllocError>
    ensures { IfOk result (λ found. option_map (λ f. (map condition_shown f.0.items, map seen f.1.now)) found ≡ conditions_at (map seen tokens.now)) }
{
    match expect("where", tokens) {
        Some(rest) => joined_conditions(alloc, rest),
        None => Ok(Some((Vec::new(alloc), tokens))),
    }
}

// `map N from`.
fn map_name<'t, 'a>(tokens: &'t [Token<'a>]) -> Option<(&'a str, &'t [Token<'a>])>
    ensures { option_map (λ found. (found.0.now, map seen found.1.now)) result ≡ map_name_at (map seen tokens.now) }
{
    let rest = expect("map", tokens)?;
    let (name, rest) = name(rest)?;
    let rest = expect("from", rest)?;
    Some((name, rest))
}

/// The mapping line that the tokens are, if they are one.
#[tactic(auto, using(crate::proofs::Lists::length_of_map), unfolding(crate::specs::Grammar::map_line))]
pub(crate) fn map_line<'a>(
    alloc: Global,
    tokens: &[Token<'a>],
) -> Result<Option<MapLine<'a>>, AllocError>
    ensures read { IfOk result (λ found. option_map map_shown found ≡ map_line_at (map seen tokens.now)) }
    ensures some { IfOk result (λ found. IfSome found (λ m. 0 < length (map_shown m).sources)) }
{
    let Some((name, rest)) = map_name(tokens) else {
        return Ok(None);
    };
    let Some((sources, rest)) = sources(alloc, rest)? else {
        return Ok(None);
    };
    let Some((conditions, rest)) = conditions(alloc, rest)? else {
        return Ok(None);
    };
    let Some(rest) = expect("then", rest) else {
        return Ok(None);
    };
    let Some((targets, rest)) = targets(alloc, rest)? else {
        return Ok(None);
    };
    if ended(rest) {
        Ok(Some(MapLine {
            name,
            sources,
            conditions,
            targets,
        }))
    } else {
        Ok(None)
    }
}
