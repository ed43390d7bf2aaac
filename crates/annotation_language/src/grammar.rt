//! The grammar of annotation lines.
ghost use Rattle.std.specs.Prelude.{◌≡◌, map, option_map, codes, IfOk};
ghost use Rattle.line_lexer.specs.Tokens.{seen};
ghost use Rattle.line_lexer.specs.Separated.{separated};
ghost use Rattle.annotation_language.specs.Shown.{shown_argument, shown_atom, shown_query, shown_source, shown};
ghost use Rattle.annotation_language.specs.Grammar.{argument, atom, asked, of_one, pair, of_two, of_some, of_any, rule_of, fixed, source, key_front, key_line, named, annotation_line};
ghost use Rattle.annotation_language.specs.Written.{Case, CaseName, Event, Cases, Query};

use crate::notes::Rule;
use crate::written::{AnnotationLine, Argument, Asked, Source, WrittenAtom};
use line_lexer::Token;
use line_lexer::grammar::{any_quoted, any_word, ended, expect, name, names};
use std::alloc::{AllocError, Global};
use uml_model::kind_of;

fn argument<'t, 'a>(tokens: &'t [Token<'a>]) -> Option<(Argument<'a>, &'t [Token<'a>])>
    ensures { option_map (λ found. (shown_argument found.0, map seen found.1.now)) result ≡ argument (map seen tokens.now) }
{
    if let Some((text, rest)) = any_quoted(tokens) {
        return Some((Argument::Constant(text), rest));
    }
    if let Some(rest) = expect("iri", tokens) {
        let (text, rest) = any_quoted(rest)?;
        return Some((Argument::Iri(text), rest));
    }
    if let Some(rest) = expect("_", tokens) {
        return Some((Argument::Blank, rest));
    }
    let (v, rest) = name(tokens)?;
    Some((Argument::Variable(v), rest))
}

#[tactic(auto, unfolding(crate::specs::Grammar::atom))]
fn atom<'t, 'a>(tokens: &'t [Token<'a>]) -> Option<(WrittenAtom<'a>, &'t [Token<'a>])>
    ensures { option_map (λ found. (shown_atom found.0, map seen found.1.now)) result ≡ atom (map seen tokens.now) }
{
    let (p, rest) = name(tokens)?;
    let rest = expect("(", rest)?;
    let (a, rest) = argument(rest)?;
    if let Some(rest) = expect(",", rest) {
        let (b, rest) = argument(rest)?;
        let rest = expect(")", rest)?;
        return Some((WrittenAtom::Two(p, a, b), rest));
    }
    let rest = expect(")", rest)?;
    Some((WrittenAtom::One(p, a), rest))
}

/// The tokens that are still to be read.
#[derive(Drop)]
struct Cursor<'t, 'a> {
    rest: &'t [Token<'a>],
}

// One atom or more, with commas between.
fn atoms<'t, 'a>(
    alloc: Global,
    tokens: &'t [Token<'a>],
) -> Result<Option<(Vec<WrittenAtom<'a>>, &'t [Token<'a>])>, AllocError>
    ensures { IfOk result (λ o. option_map (λ found. (map shown_atom found.0.items, map seen found.1.now)) o ≡ separated (codes ",") atom (map seen tokens.now)) }
{
    let mut found = Vec::new(alloc);
    let mut left = Cursor { rest: tokens };
    for _i in 0..tokens.len() {
        let Some((next, rest)) = atom(left.rest) else {
            return Ok(None);
        };
        found.push(next)?;
        let Some(more) = expect(",", rest) else {
            return Ok(Some((found, rest)));
        };
        left.rest = more;
    }
    Ok(None)
}

// Behind a head: `where ATOMS` and nothing more.
fn asked<'a>(
    alloc: Global,
    head: Vec<&'a str>,
    tokens: &[Token<'a>],
) -> Result<Option<Asked<'a>>, AllocError>
    ensures { IfOk result (λ o. option_map shown_query o ≡ asked (map (λ v. v.now) head.entry.items) (map seen tokens.now)) }
{
    let Some(rest) = expect("where", tokens) else {
        return Ok(None);
    };
    let Some((atoms, rest)) = atoms(alloc, rest)? else {
        return Ok(None);
    };
    if ended(rest) {
        Ok(Some(Asked { head, atoms }))
    } else {
        Ok(None)
    }
}

// `v where ATOMS`.
#[tactic(auto, unfolding(crate::specs::Grammar::of_one))]
fn of_one<'a>(alloc: Global, tokens: &[Token<'a>]) -> Result<Option<Asked<'a>>, AllocError>
    ensures { IfOk result (λ o. option_map shown_query o ≡ of_one (map seen tokens.now)) }
{
    let Some((v, rest)) = name(tokens) else {
        return Ok(None);
    };
    let head = vec![in alloc; v]?;
    asked(alloc, head, rest)
}

// `(v, w) where ATOMS`.
#[tactic(auto, unfolding(crate::specs::Grammar::of_two))]
fn of_two<'a>(alloc: Global, tokens: &[Token<'a>]) -> Result<Option<Asked<'a>>, AllocError>
    ensures { IfOk result (λ o. option_map shown_query o ≡ of_two (map seen tokens.now)) }
{
    let Some((v, w, rest)) = pair(tokens) else {
        return Ok(None);
    };
    let head = vec![in alloc; v, w]?;
    asked(alloc, head, rest)
}

// Two variables in parentheses, and the tokens behind them.
#[tactic(auto, unfolding(crate::specs::Grammar::pair))]
fn pair<'t, 'a>(tokens: &'t [Token<'a>]) -> Option<(&'a str, &'a str, &'t [Token<'a>])>
    ensures { option_map (λ found. (found.0.now, found.1.now, map seen found.2.now)) result ≡ pair (map seen tokens.now) }
{
    let rest = expect("(", tokens)?;
    let (v, rest) = name(rest)?;
    let rest = expect(",", rest)?;
    let (w, rest) = name(rest)?;
    let rest = expect(")", rest)?;
    Some((v, w, rest))
}

// Variables in parentheses, maybe none, then `where ATOMS`.
#[tactic(auto, unfolding(crate::specs::Grammar::of_any))]
fn of_any<'a>(alloc: Global, tokens: &[Token<'a>]) -> Result<Option<Asked<'a>>, AllocError>
    ensures { IfOk result (λ o. option_map shown_query o ≡ of_any (map seen tokens.now)) }
{
    let Some(rest) = expect("(", tokens) else {
        return Ok(None);
    };
    if let Some(rest) = expect(")", rest) {
        return asked(alloc, Vec::new(alloc), rest);
    }
    of_some(alloc, rest)
}

// One variable or more and a closing parenthesis, then `where ATOMS`.
fn of_some<'a>(alloc: Global, tokens: &[Token<'a>]) -> Result<Option<Asked<'a>>, AllocError>
    ensures { IfOk result (λ o. option_map shown_query o ≡ of_some (map seen tokens.now)) }
{
    let Some((head, rest)) = names(alloc, tokens)? else {
        return Ok(None);
    };
    let Some(rest) = expect(")", rest) else {
        return Ok(None);
    };
    asked(alloc, head, rest)
}

fn rule_of(word: &str) -> Option<Rule>
    ensures { result ≡ rule_of word.now }
{
    if word == "mandatory" {
        return Some(Rule::Mandatory);
    }
    if word == "single" {
        return Some(Rule::Single);
    }
    if word == "many" {
        return Some(Rule::Many);
    }
    None
}

// Behind `is`: KIND "TEXT" and nothing more.
fn fixed<'a>(tokens: &[Token<'a>]) -> Option<Source<'a>>
    ensures { option_map shown_source result ≡ fixed (map seen tokens.now) }
{
    let (word, rest) = any_word(tokens)?;
    let kind = kind_of(word)?;
    let (text, rest) = any_quoted(rest)?;
    if ended(rest) {
        Some(Source::Is(kind, text))
    } else {
        None
    }
}

// Behind a rule: a constant, or a query of two variables.
fn source<'a>(alloc: Global, tokens: &[Token<'a>]) -> Result<Option<Source<'a>>, AllocError>
    ensures { IfOk result (λ o. option_map shown_source o ≡ source (map seen tokens.now)) }
{
    if let Some(rest) = expect("is", tokens) {
        return Ok(fixed(rest));
    }
    match of_two(alloc, tokens)? {
        Some(query) => Ok(Some(Source::Answers(query))),
        None => Ok(None),
    }
}

// The event, the key and the rule of a key line, and the tokens behind them.
#[tactic(auto, unfolding(crate::specs::Grammar::key_front))]
fn key_front<'t, 'a>(tokens: &'t [Token<'a>]) -> Option<(&'a str, &'a str, Rule, &'t [Token<'a>])>
    ensures { option_map (λ found. (found.0.now, found.1.now, found.2, map seen found.3.now)) result ≡ key_front (map seen tokens.now) }
{
    let (event, rest) = name(tokens)?;
    let (key, rest) = any_quoted(rest)?;
    let (word, rest) = any_word(rest)?;
    let rule = rule_of(word)?;
    Some((event, key, rule, rest))
}

// Behind `set`.
#[tactic(auto, unfolding(crate::specs::Grammar::key_line))]
fn key_line<'a>(
    alloc: Global,
    tokens: &[Token<'a>],
) -> Result<Option<AnnotationLine<'a>>, AllocError>
    ensures { IfOk result (λ o. option_map shown o ≡ key_line (map seen tokens.now)) }
{
    let Some((event, key, rule, rest)) = key_front(tokens) else {
        return Ok(None);
    };
    match source(alloc, rest)? {
        Some(source) => Ok(Some(AnnotationLine::Key(event, key, rule, source))),
        None => Ok(None),
    }
}

// Behind `case`.
fn case_line<'a>(
    alloc: Global,
    tokens: &[Token<'a>],
) -> Result<Option<AnnotationLine<'a>>, AllocError>
    ensures { IfOk result (λ o. option_map shown o ≡ option_map Case (of_one (map seen tokens.now))) }
{
    match of_one(alloc, tokens)? {
        Some(query) => Ok(Some(AnnotationLine::Case(query))),
        None => Ok(None),
    }
}

// Behind `casename`.
fn case_name_line<'a>(
    alloc: Global,
    tokens: &[Token<'a>],
) -> Result<Option<AnnotationLine<'a>>, AllocError>
    ensures { IfOk result (λ o. option_map shown o ≡ option_map CaseName (of_two (map seen tokens.now))) }
{
    match of_two(alloc, tokens)? {
        Some(query) => Ok(Some(AnnotationLine::CaseName(query))),
        None => Ok(None),
    }
}

// Behind `event`.
fn event_line<'a>(
    alloc: Global,
    tokens: &[Token<'a>],
) -> Result<Option<AnnotationLine<'a>>, AllocError>
    ensures { IfOk result (λ o. option_map shown o ≡ named Event of_one (map seen tokens.now)) }
{
    let Some((event, rest)) = name(tokens) else {
        return Ok(None);
    };
    match of_one(alloc, rest)? {
        Some(query) => Ok(Some(AnnotationLine::Event(event, query))),
        None => Ok(None),
    }
}

// Behind `cases`.
fn cases_line<'a>(
    alloc: Global,
    tokens: &[Token<'a>],
) -> Result<Option<AnnotationLine<'a>>, AllocError>
    ensures { IfOk result (λ o. option_map shown o ≡ named Cases of_two (map seen tokens.now)) }
{
    let Some((event, rest)) = name(tokens) else {
        return Ok(None);
    };
    match of_two(alloc, rest)? {
        Some(query) => Ok(Some(AnnotationLine::Cases(event, query))),
        None => Ok(None),
    }
}

// Behind `query`.
fn query_line<'a>(
    alloc: Global,
    tokens: &[Token<'a>],
) -> Result<Option<AnnotationLine<'a>>, AllocError>
    ensures { IfOk result (λ o. option_map shown o ≡ named Query of_any (map seen tokens.now)) }
{
    let Some((query_name, rest)) = name(tokens) else {
        return Ok(None);
    };
    match of_any(alloc, rest)? {
        Some(query) => Ok(Some(AnnotationLine::Query(query_name, query))),
        None => Ok(None),
    }
}

/// The annotation line that the tokens are, if they are one.
#[tactic(auto, unfolding(crate::specs::Grammar::annotation_line))]
pub(crate) fn annotation_line<'a>(
    alloc: Global,
    tokens: &[Token<'a>],
) -> Result<Option<AnnotationLine<'a>>, AllocError>
    ensures { IfOk result (λ o. option_map shown o ≡ annotation_line (map seen tokens.now)) }
{
    if let Some(rest) = expect("case", tokens) {
        return case_line(alloc, rest);
    }
    if let Some(rest) = expect("casename", tokens) {
        return case_name_line(alloc, rest);
    }
    if let Some(rest) = expect("event", tokens) {
        return event_line(alloc, rest);
    }
    if let Some(rest) = expect("cases", tokens) {
        return cases_line(alloc, rest);
    }
    if let Some(rest) = expect("set", tokens) {
        return key_line(alloc, rest);
    }
    match expect("query", tokens) {
        Some(rest) => query_line(alloc, rest),
        None => Ok(None),
    }
}
