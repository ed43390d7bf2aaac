//! What quoted texts and numbers stand for.
ghost use Rattle.std.specs.Prelude.{◌≡◌, ◌<◌, ◌^◌, SomeIff};
ghost use Rattle.line_lexer.specs.declared.shape.Shape.TheVariants.{Quoted, Number};
ghost use Rattle.line_lexer.specs.Shapes.{inside, decimal};

use crate::token::Token;

/// The text of a quoted token, without its quotes. Nothing in it is escaped.
#[tactic(auto, using(crate::proofs::Meanings::open_boundary, crate::proofs::Meanings::close_boundary, crate::proofs::Meanings::inner_is))]
pub fn inner<'a>(token: &Token<'a>) -> &'a str
    requires { token.now.shape ≡ Quoted }
    ensures { result.now ≡ inside token.now.text.now }
{
    let (_, text) = token.text.split_at(1);
    let (text, _) = text.split_at(text.len() - 1);
    text
}

/// The number that a number token writes, where 64 bits hold it. Zeros may stand in front of it.
#[tactic(auto, using(crate::proofs::Meanings::number_parses))]
pub fn number(token: &Token<'_>) -> Option<u64>
    requires { token.now.shape ≡ Number }
    ensures { SomeIff result (decimal token.now.text.now < 2 ^ 64) (decimal token.now.text.now) }
{
    token.text.parse().ok()
}
