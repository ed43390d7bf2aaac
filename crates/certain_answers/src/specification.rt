//! Axioms and mappings that are ready to be asked.
ghost use Rattle.std.specs.Prelude.{◌≡◌, ◌<◌, ◌≤◌, ◌+◌, ◌-◌, ◌^◌, length, IfOk};
ghost use Rattle.vocabulary.specs.Lists.{In};
ghost use Rattle.dllite_axioms.specs.declared.axioms.Axiom.{Axiom as AxiomOf};
ghost use Rattle.dllite_axioms.specs.Within.{IsAxiomWithin};
ghost use Rattle.mapping_facts.specs.declared.mapping.Mapping.{Mapping as MappingOf};
ghost use Rattle.mapping_facts.specs.Fits.{AreFit};
ghost use Rattle.mapping_saturation.specs.Saturation.{GiveTheKnown};
ghost use Rattle.mapping_facts.specs.Within.{AreTargetsWithin, with_targets};
ghost use Rattle.certain_answers.specs.Specified.{AreReady};

use dllite_axioms::Tbox;
use mapping_facts::Mapping;
use mapping_saturation::saturate;
use negative_closure::Downs;
use std::alloc::{AllocError, Global};
use std::marker::Model;
use vocabulary::List;

/// Axioms and mappings, with what queries need of them: it is made once, and may then be asked any
/// number of queries over any tables.
#[derive(Drop)]
pub struct Specification {
    downs: Downs,
    saturated: List<Mapping>,
    // how many of them are given: they stand first
    given: usize,
}

impl Model for Specification {
    ghost use Rattle.std.specs.Prelude.{take};
    ghost use Rattle.std.specs.Coded.{codes};
    ghost use Rattle.vocabulary.specs.contracts.term.Term as term;
    ghost use Rattle.certain_answers.specs.Specified.{AreReady, Specified};

    ghost Value = { Specified };

    ghost coded = { Prim.hlevel (codes, term.the_row.coded) };

    ghost view = { λ s. record { axioms = s.downs.axioms; mappings = take s.given s.saturated } };

    ghost invariant = { λ s. AreReady s.downs s.given s.saturated };
}

impl Specification {
    /// The axioms and the mappings are over so many classes and links.
    pub fn of(
        alloc: Global,
        tbox: &Tbox,
        classes: u32,
        links: u32,
        mappings: &[Mapping],
    ) -> Result<Specification, AllocError>
        requires few_classes { classes ≤ 400 }
        requires few_links { links ≤ 600 }
        requires few_axioms { length tbox.now.axioms < 2 ^ 32 - 1 }
        requires within { (a : AxiomOf) → In a tbox.now.axioms → IsAxiomWithin classes links a }
        requires targets { (m : MappingOf) → In m mappings.now → AreTargetsWithin classes links m.targets }
        requires fit { AreFit mappings.now }
        requires few_mappings { length mappings.now + length (with_targets mappings.now) < 2 ^ 32 }
        ensures { IfOk result (λ s. s ≡ record { axioms = tbox.now.axioms; mappings = mappings.now }) }
    {
        let downs = Downs::of(alloc, tbox, classes, links)?;
        let saturated = saturate(alloc, mappings, &downs)?;
        Ok(Specification {
            downs,
            saturated,
            given: mappings.len(),
        })
    }

    pub(crate) fn downs(&self) -> &Downs
        ensures axioms { result.now.axioms ≡ self.now.axioms }
        ensures within { (a : AxiomOf) → In a result.now.axioms → IsAxiomWithin result.now.classes result.now.links a }
    {
        &self.downs
    }

    /// The further mappings alone: they have what the given ones give, so that no fact comes of both.
    pub(crate) fn further(&self) -> &[Mapping]
        ensures fit { AreFit result.now }
        ensures given_fit { AreFit self.now.mappings }
        ensures known { GiveTheKnown self.now.axioms self.now.mappings result.now }
    {
        &self.saturated.items()[self.given..]
    }
}
