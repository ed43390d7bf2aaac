//! The numbers of rows by the text of a variable's term.
ghost use Rattle.std.specs.Prelude.{◌≡◌, ◌++◌, ◌∷◌, [], if◌then◌else◌, ℕ, List as ListOf, IfOk, OnOk};
ghost use Rattle.std.specs.Option.{option_copied, option_map_or};
ghost use Rattle.std.specs.HashMap.{get_by_text};
ghost use Rattle.std.specs.Str.{bytes_eq};
ghost use Rattle.relation_join.specs.Listed.{has_text, listed, rows_with};

use crate::value::value_of;
use std::alloc::{AllocError, Global};
use std::collections::HashMap;
use vocabulary::{List, Term, VarId};

#[derive(Drop)]
pub struct Index {
    rows: HashMap<String, Vec<usize>>,
}

// Adds a row to those of a text.
#[tactic(auto, using(std::proofs::lemmas::Grind::text_groups))]
fn add_row(
    alloc: Global,
    rows: &mut HashMap<String, Vec<usize>>,
    text: &str,
    row: usize,
) -> Result<(), AllocError>
    ensures { OnOk result ((q : ListOf ℕ) → option_map_or (λ g. g.items) (get_by_text rows.new q) [] ≡ option_map_or (λ g. g.items) (get_by_text rows.old q) [] ++ (if bytes_eq q text.now then row ∷ [] else [])) }
{
    rows.entry(String::from_str(alloc, text)?)?
        .or_default()
        .push(row)?;
    Ok(())
}

// Adds a row to those of its term's text, if there is a term.
fn add_key(
    alloc: Global,
    rows: &mut HashMap<String, Vec<usize>>,
    term: Option<&Term>,
    row: usize,
) -> Result<(), AllocError>
    ensures { OnOk result ((q : ListOf ℕ) → option_map_or (λ g. g.items) (get_by_text rows.new q) [] ≡ option_map_or (λ g. g.items) (get_by_text rows.old q) [] ++ (if has_text q (option_copied term.entry) then row ∷ [] else [])) }
{
    match term {
        Some(term) => add_row(alloc, rows, term.text().text(), row),
        None => Ok(()),
    }
}

impl Index {
    /// The index of these rows by the term of a variable.
    #[tactic(auto, unfolding(crate::specs::Listed::listed))]
    pub(crate) fn build(
        alloc: Global,
        vars: &[VarId],
        rows: &[List<Term>],
        var: VarId,
    ) -> Result<Index, AllocError>
        ensures { IfOk result (λ index. (text : ListOf ℕ) → listed index text ≡ rows_with vars.now rows.now var text) }
    {
        let mut found = HashMap::new(alloc);
        for row in 0..rows.len() {
            add_key(
                alloc,
                &mut found,
                value_of(vars, rows[row].items(), var),
                row,
            )?;
        }
        Ok(Index { rows: found })
    }

    /// The numbers of the rows in which the variable's term has this text, in their order.
    #[tactic(auto, unfolding(crate::specs::Listed::listed))]
    pub(crate) fn find(&self, text: &str) -> &[usize]
        ensures { result.now ≡ listed self.now text.now }
    {
        match self.rows.get(text) {
            Some(rows) => rows.as_slice(),
            None => &[],
        }
    }
}
