//! The shapes of tokens.

/// What a token looks like.
#[derive(Clone, Copy, Debug, PartialEq, Eq)]
pub enum Shape {
    /// An ASCII letter or `_`, then ASCII letters, digits and `_`.
    Word,
    /// A quote, characters other than quotes and control characters, and a quote.
    Quoted,
    /// One or more ASCII digits.
    Number,
    /// One of `(` `)` `,` `.` `=` `<>` `->` `..` `*`.
    Sign,
}
