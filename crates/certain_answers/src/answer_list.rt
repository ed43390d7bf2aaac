//! Lists of answers.
ghost use Rattle.std.specs.Prelude.{◌≡◌, length};

use vocabulary::{List, Term};

/// The answers of a query: tuples of terms in their order, each once.
#[derive(Debug, Drop)]
pub struct Answers {
    pub tuples: List<List<Term>>,
}

impl Answers {
    pub fn len(&self) -> usize
        ensures { result ≡ length self.now.tuples }
    {
        self.tuples.len()
    }

    /// The tuples in their order.
    pub fn tuples(&self) -> &[List<Term>]
        ensures { result.now ≡ self.now.tuples }
    {
        self.tuples.items()
    }
}
