//! A token, and the place of a fault.
ghost use Rattle.std.specs.Prelude.{◌≡◌, ◌+◌, length, true};
ghost use Rattle.line_lexer.specs.Shapes.{is_token};

use crate::shape::Shape;

/// A token, with the slice of the line that it is. A quoted text has its quotes.
#[derive(Clone, Copy, Debug)]
pub struct Token<'a> {
    pub shape: Shape,
    pub text: &'a str,
    /// The byte of the line at which the token begins.
    pub start: usize,
    /// The byte of the line behind the token.
    pub end: usize,
    pub ghost shaped: { is_token shape text.now ≡ true },
    pub ghost spanned: { end ≡ start + length text.now },
}

/// Where no token begins, as a byte of the line. Of a quoted text that does not end, or has a control character in it, it
/// is the first quote.
#[derive(Clone, Copy, Debug, PartialEq, Eq)]
pub struct LexFault {
    pub place: usize,
}
