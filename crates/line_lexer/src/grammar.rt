//! Pieces of the grammars of lines: what stands first in some tokens, and the tokens behind it.
ghost use Rattle.std.specs.Prelude.{◌≡◌, ◌≤◌, map, length, option_map, codes, IfOk, IfSome};
ghost use Rattle.line_lexer.specs.Tokens.{seen};
ghost use Rattle.line_lexer.specs.Grammar.{expect, any_word, any_quoted, any_number, name, is_reserved, is_name, ended};
ghost use Rattle.line_lexer.specs.Separated.{separated};
ghost use Rattle.line_lexer.specs.Shapes.{is_in_word, is_word};
ghost use Rattle.std.specs.List.{list_all};

use crate::runs::{Class, begins_word};
use crate::shape::Shape;
use crate::token::Token;
use crate::values::{inner, number};
use std::alloc::{AllocError, Global};

/// The tokens behind this text, if it is the first token and is not quoted.
pub fn expect<'t, 'a>(text: &str, tokens: &'t [Token<'a>]) -> Option<&'t [Token<'a>]>
    ensures { option_map (λ rest. map seen rest.now) result ≡ expect text.now (map seen tokens.now) }
{
    match tokens {
        [] => None,
        [token, rest @ ..] => match token.shape {
            Shape::Quoted => None,
            _ => { if token.text == text { Some(rest) } else { None } }
        },
    }
}

/// A word, reserved or not.
pub fn any_word<'t, 'a>(tokens: &'t [Token<'a>]) -> Option<(&'a str, &'t [Token<'a>])>
    ensures { option_map (λ found. (found.0.now, map seen found.1.now)) result ≡ any_word (map seen tokens.now) }
{
    match tokens {
        [] => None,
        [token, rest @ ..] => match token.shape {
            Shape::Word => Some((token.text, rest)),
            _ => None,
        },
    }
}

fn is_reserved(text: &str) -> bool
    ensures { result ≡ is_reserved text.now }
{
    text == "from"
        || text == "where"
        || text == "then"
        || text == "and"
        || text == "is"
        || text == "not"
        || text == "null"
        || text == "iri"
        || text == "offset"
        || text == "header"
        || text == "_"
}

fn are_in_word(text: &[u8]) -> bool
    ensures { result ≡ list_all is_in_word text.now }
{
    text.iter().all(|b| Class::InWord.has(*b))
}

fn is_word(text: &[u8]) -> bool
    ensures { result ≡ is_word text.now }
{
    match text {
        [] => false,
        [b, rest @ ..] => begins_word(*b) && are_in_word(rest),
    }
}

/// Whether the text is a word that is not reserved.
pub fn is_name(text: &str) -> bool
    ensures { result ≡ is_name text.now }
{
    is_word(text.as_bytes()) && !is_reserved(text)
}

/// A word that is not reserved: a name, an alias or a variable.
pub fn name<'t, 'a>(tokens: &'t [Token<'a>]) -> Option<(&'a str, &'t [Token<'a>])>
    ensures { option_map (λ found. (found.0.now, map seen found.1.now)) result ≡ name (map seen tokens.now) }
{
    match tokens {
        [] => None,
        [token, rest @ ..] => match token.shape {
            Shape::Word => {
                if is_reserved(token.text) {
                    None
                } else {
                    Some((token.text, rest))
                }
            }
            _ => None,
        },
    }
}

/// The tokens that are still to be read.
#[derive(Drop)]
struct Left<'t, 'a> {
    tokens: &'t [Token<'a>],
}

/// One name or more with commas between them, in their order.
pub fn names<'t, 'a>(
    alloc: Global,
    tokens: &'t [Token<'a>],
) -> Result<Option<(Vec<&'a str>, &'t [Token<'a>])>, AllocError>
    ensures names { IfOk result (λ found. option_map (λ f. (map (λ c. c.now) f.0.items, map seen f.1.now)) found ≡ separated (codes ",") name (map seen tokens.now)) }
    ensures some { IfOk result (λ found. IfSome found (λ f. 1 ≤ length f.0.items)) }
{
    let mut found = Vec::new(alloc);
    let mut left = Left { tokens };
    for _i in 0..tokens.len() {
        let Some((next, behind)) = name(left.tokens) else {
            return Ok(None);
        };
        found.push(next)?;
        let Some(rest) = expect(",", behind) else {
            return Ok(Some((found, behind)));
        };
        left.tokens = rest;
    }
    Ok(None)
}

/// A quoted text, without its quotes.
pub fn any_quoted<'t, 'a>(tokens: &'t [Token<'a>]) -> Option<(&'a str, &'t [Token<'a>])>
    ensures { option_map (λ found. (found.0.now, map seen found.1.now)) result ≡ any_quoted (map seen tokens.now) }
{
    match tokens {
        [] => None,
        [token, rest @ ..] => match token.shape {
            Shape::Quoted => Some((inner(token), rest)),
            _ => None,
        },
    }
}

/// A number that 64 bits hold.
pub fn any_number<'t, 'a>(tokens: &'t [Token<'a>]) -> Option<(u64, &'t [Token<'a>])>
    ensures { option_map (λ found. (found.0, map seen found.1.now)) result ≡ any_number (map seen tokens.now) }
{
    match tokens {
        [] => None,
        [token, rest @ ..] => match token.shape {
            Shape::Number => Some((number(token)?, rest)),
            _ => None,
        },
    }
}

/// Whether no token is left.
pub fn ended(tokens: &[Token<'_>]) -> bool
    ensures { result ≡ ended (map seen tokens.now) }
{
    tokens.is_empty()
}
