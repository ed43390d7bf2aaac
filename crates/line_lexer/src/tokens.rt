//! The tokens of a line, one by one.
ghost use Rattle.std.specs.Prelude.{◌≡◌, ◌<◌, ◌≤◌, ◌+◌, Some, None, IfSome, IfNone, length, take, drop, true};
ghost use Rattle.std.specs.List.{list_any, prefix_len};
ghost use Rattle.std.specs.Str.{chars, IsCharBoundary};
ghost use Rattle.std.specs.Char.{is_control};
ghost use Rattle.line_lexer.specs.Shapes.{is_token};
ghost use Rattle.line_lexer.specs.Tokens.{is_blank, quoted_len, pair_len, dots_len, is_short_sign, is_over, token_at};

use crate::runs::{Class, begins_word, run};
use crate::shape::Shape;
use crate::token::{LexFault, Token};
use std::marker::Model;

fn has_control(text: &str) -> bool
    ensures { result ≡ list_any is_control (chars text.now) }
{
    text.chars().any(|c| c.is_control())
}

// The length of a quoted text with its quotes, by what follows the first of them.
#[tactic(auto, using(crate::proofs::Ends::unquoted_boundary))]
fn quoted_len(rest: &str) -> Option<usize>
    ensures { result ≡ quoted_len rest.now }
{
    let inside = run(Class::Unquoted, rest.as_bytes());
    if inside == rest.len() {
        return None;
    }
    let (text, _) = rest.split_at(inside);
    if has_control(text) {
        None
    } else {
        Some(inside + 2)
    }
}

// The length of a sign of two bytes, by its second and what follows the first.
fn pair_len(second: u8, rest: &[u8]) -> Option<usize>
    ensures { result ≡ pair_len second rest.now }
{
    match rest {
        [c, ..] if *c == second => Some(2),
        _ => None,
    }
}

fn dots_len(rest: &[u8]) -> usize
    ensures { result ≡ dots_len rest.now }
{
    match rest {
        [b'.', ..] => 2,
        _ => 1,
    }
}

fn is_short_sign(b: u8) -> bool
    ensures { result ≡ is_short_sign b }
{
    b == b'(' || b == b')' || b == b',' || b == b'=' || b == b'*'
}

// The shape and the length of the token at the front.
#[tactic(auto, using(crate::proofs::Ends::quote_boundary), unfolding(crate::specs::Tokens::token_front))]
fn front_of(text: &str) -> Option<(Shape, usize)>
    ensures { result ≡ token_at text.now }
{
    match text.as_bytes() {
        [] => None,
        [b, behind @ ..] => {
            if begins_word(*b) {
                return Some((Shape::Word, run(Class::InWord, behind) + 1));
            }
            if Class::Digit.has(*b) {
                return Some((Shape::Number, run(Class::Digit, behind) + 1));
            }
            if *b == b'"' {
                let (_, behind) = text.split_at(1);
                let n = quoted_len(behind)?;
                return Some((Shape::Quoted, n));
            }
            if is_short_sign(*b) {
                return Some((Shape::Sign, 1));
            }
            if *b == b'.' {
                return Some((Shape::Sign, dots_len(behind)));
            }
            if *b == b'<' || *b == b'-' {
                let n = pair_len(b'>', behind)?;
                return Some((Shape::Sign, n));
            }
            None
        }
    }
}

// The same with the token's text.
#[tactic(auto, using(crate::proofs::Ends::token_boundary, crate::proofs::Longest::token_shaped, crate::proofs::Longest::longest))]
fn token_at(text: &str) -> Option<(Shape, &str)>
    ensures none { IfNone result (token_at text.now ≡ None) }
    ensures shape { IfSome result (λ found. token_at text.now ≡ Some (found.0, length found.1.now)) }
    ensures front { IfSome result (λ found. found.1.now ≡ take (length found.1.now) text.now) }
    ensures cut { IfSome result (λ found. IsCharBoundary text.now (length found.1.now)) }
    ensures token { IfSome result (λ found. is_token found.0 found.1.now ≡ true) }
    ensures positive { IfSome result (λ found. 0 < length found.1.now) }
{
    let (shape, n) = front_of(text)?;
    let (token, _) = text.split_at(n);
    Some((shape, token))
}

// How many blanks stand first, and what is behind them.
#[tactic(auto, using(crate::proofs::Ends::blanks_boundary))]
fn unblanked(text: &str) -> (usize, &str)
    ensures blanks { result.0 ≡ prefix_len is_blank text.now }
    ensures rest { result.1.now ≡ drop result.0 text.now }
    ensures within { result.0 + length result.1.now ≡ length text.now }
    ensures cut { IsCharBoundary text.now result.0 }
{
    let blanks = run(Class::Blank, text.as_bytes());
    let (_, rest) = text.split_at(blanks);
    (blanks, rest)
}

// The end of the line, or a comment.
fn is_over(text: &[u8]) -> bool
    ensures { result ≡ is_over text.now }
{
    match text {
        [] => true,
        [b, ..] => *b == b'#',
    }
}

/// The tokens of a line that are still to come.
#[derive(Drop)]
pub struct Tokens<'a> {
    line: &'a str,
    place: usize,
}

impl<'a> Model for Tokens<'a> {
    ghost use Rattle.std.specs.Str.{IsCharBoundary};
    ghost use Rattle.line_lexer.specs.Cursor.{Cursor};

    ghost Value = { Cursor };

    ghost view = { λ t. record { line = t.line.now; place = t.place } };

    ghost invariant = { λ t. IsCharBoundary t.line.now t.place };
}

impl<'a> Tokens<'a> {
    ghost use Rattle.line_lexer.specs.Cursor.{Cursor, rest_of};
    ghost use Rattle.line_lexer.specs.Tokens.{first_of, unblanked, IsNext, IsLongestNext, IsInOrder};

    /// All tokens of a line.
    #[tactic(auto, using(crate::proofs::Ends::start_boundary))]
    pub fn new(text: &'a str) -> Self
        ensures { result ≡ record { line = text.now; place = 0 } }
    {
        Tokens {
            line: text,
            place: 0,
        }
    }

    /// The next token, or where none begins. There is nothing more behind the last token, at a comment, and after a fault.
    #[tactic(auto, unfolding(crate::specs::Tokens::first_of))]
    pub fn next(&mut self) -> Option<Result<Token<'a>, LexFault>>
        ensures next { IsNext (first_of (rest_of self.old)) self.old self.new result }
        // Behind the blanks a token is the longest front that is one, and at a fault no front is a token.
        ensures longest { IsLongestNext (unblanked (rest_of self.old)) result }
        ensures in_order { IsInOrder self.old.place result }
        ensures within { self.new.place ≤ length self.new.line }
    {
        let (_, rest) = self.line.split_at(self.place);
        let (blanks, rest) = unblanked(rest);
        let start = self.place + blanks;
        if is_over(rest.as_bytes()) {
            self.place = self.line.len();
            return None;
        }
        match token_at(rest) {
            None => {
                self.place = self.line.len();
                Some(Err(LexFault { place: start }))
            }
            Some((shape, text)) => {
                let end = start + text.len();
                self.place = end;
                Some(Ok(Token {
                    shape,
                    text,
                    start,
                    end,
                }))
            }
        }
    }
}
