//! Tables of texts, each with what stands beside it.
ghost use Rattle.std.specs.Prelude.{ℕ, List as ListOf, ◌≡◌, ◌++◌, ◌∷◌, [], length, None, Some, if◌then◌else◌, OnOk, IfErr};
ghost use Rattle.std.specs.Str.{bytes_eq};
ghost use Rattle.vocabulary.specs.Texts.{number_of};
ghost use Rattle.owl_functional.specs.Rules.{or_else};
ghost use Rattle.owl_functional.specs.Lookup.{beside};

use crate::fault::OwlFault;
use std::alloc::Global;
use vocabulary::{List, Names};

/// Different texts, each with what was put beside it first.
#[derive(Drop)]
pub struct Table<X> {
    pub texts: Names,
    pub values: List<X>,
}

impl<X: Copy + Drop> Table<X> {
    pub(crate) fn new(alloc: Global) -> Table<X>
        ensures { result ≡ record { texts = []; values = [] } }
    {
        Table {
            texts: Names::new(alloc),
            values: List::new(alloc),
        }
    }

    pub(crate) fn get(&self, text: &str) -> Option<X>
        ensures { result ≡ beside self.now.texts self.now.values text.now }
    {
        match self.texts.find(text) {
            Some(n) => match self.values.items().get(n as usize) {
                Some(value) => Some(*value),
                None => None,
            },
            None => None,
        }
    }

    fn add_new(&mut self, text: &str, value: X) -> Result<(), OwlFault>
        requires { number_of self.old.texts text.now ≡ None }
        ensures added { OnOk result (self.new ≡ record { texts = self.old.texts ++ text.now ∷ []; values = self.old.values ++ value ∷ [] }) }
        ensures memory { IfErr result (λ e. e ≡ OwlFault.NoMemory) }
    {
        if self.texts.len() == u32::MAX {
            return Err(OwlFault::NoMemory);
        }
        self.values.push(value)?;
        match self.texts.add(text) {
            Ok(_) => Ok(()),
            Err(_) => Err(OwlFault::NoMemory),
        }
    }

    /// Puts a value beside a text, unless there is one.
    pub(crate) fn add(&mut self, text: &str, value: X) -> Result<(), OwlFault>
        requires { length self.old.values ≡ length self.old.texts }
        ensures added { OnOk result ((other : ListOf ℕ) → beside self.new.texts self.new.values other ≡ or_else (beside self.old.texts self.old.values other) (if bytes_eq text.now other then Some value else None)) }
        ensures long { OnOk result (length self.new.values ≡ length self.new.texts) }
        ensures memory { IfErr result (λ e. e ≡ OwlFault.NoMemory) }
    {
        match self.texts.find(text) {
            Some(_) => Ok(()),
            None => self.add_new(text, value),
        }
    }
}
