//! Which classes and links the mappings give facts of.
ghost use Rattle.std.specs.Prelude.{◌≡◌, ℕ, true, IfOk};
ghost use Rattle.vocabulary.specs.Lists.{In};
ghost use Rattle.mapping_facts.specs.declared.mapping.Target.{Target as TargetOf};
ghost use Rattle.consistency_check.specs.Given.{AreMarked, IsMarked, is_marked, may_match, may_meet};

use dllite_axioms::Basic;
use mapping_facts::{Mapping, Target};
use negative_closure::Source;
use std::alloc::{AllocError, Global};
use vocabulary::Dir;

/// A mark for each class and each link that some target gives facts of. What has no place counts as
/// marked.
#[derive(Drop)]
pub struct Given {
    pub classes: Vec<bool>,
    pub links: Vec<bool>,
}

fn mark(marks: &mut Vec<bool>, number: u32)
    ensures marked { is_marked marks.new.items number ≡ true }
    ensures kept { (n : ℕ) → is_marked marks.old.items n ≡ true → is_marked marks.new.items n ≡ true }
{
    if let Some(mark) = marks.get_mut(number as usize) {
        *mark = true;
    }
}

fn is_marked(marks: &[bool], number: u32) -> bool
    ensures { result ≡ is_marked marks.now number }
{
    match marks.get(number as usize) {
        Some(mark) => *mark,
        None => true,
    }
}

impl Given {
    fn mark(&mut self, target: &Target)
        ensures marked { IsMarked self.new target.now }
        ensures kept { (g : TargetOf) → IsMarked self.old g → IsMarked self.new g }
    {
        match target {
            Target::InClass(class, _) => mark(&mut self.classes, class.0),
            Target::Linked(link, _, _) => mark(&mut self.links, link.0),
        }
    }

    fn mark_all(&mut self, targets: &[Target])
        ensures marked { (g : TargetOf) → In g targets.now → IsMarked self.new g }
        ensures kept { (g : TargetOf) → IsMarked self.old g → IsMarked self.new g }
    {
        for target in targets {
            self.mark(target);
        }
    }

    /// The marks of the mappings' targets among so many classes and links.
    pub(crate) fn by(
        alloc: Global,
        classes: u32,
        links: u32,
        mappings: &[Mapping],
    ) -> Result<Given, AllocError>
        ensures { IfOk result (AreMarked mappings.now) }
    {
        let mut given = Given {
            classes: vec![in alloc; false; classes as usize]?,
            links: vec![in alloc; false; links as usize]?,
        };
        for mapping in mappings {
            given.mark_all(mapping.targets.items());
        }
        Ok(given)
    }

    fn may_match(&self, basic: Basic) -> bool
        ensures { result ≡ may_match self.now basic }
    {
        match basic {
            Basic::Class(class) => is_marked(self.classes.as_slice(), class.0),
            Basic::Has(link, _) => is_marked(self.links.as_slice(), link.0),
        }
    }

    /// Whether targets give facts of all that a source speaks of. If not, no mapped facts meet it,
    /// and nothing has to be joined.
    pub(crate) fn may_meet(&self, source: &Source) -> bool
        ensures { result ≡ may_meet self.now source.now }
    {
        match *source {
            Source::One(basic) => self.may_match(basic),
            Source::Two(first, second) => self.may_match(first) && self.may_match(second),
            Source::TwoFillers(link, dir) => self.may_match(Basic::Has(link, dir)),
            Source::TwoLinks(one, dir, two) => {
                self.may_match(Basic::Has(one, Dir::Fwd)) && self.may_match(Basic::Has(two, dir))
            }
        }
    }
}
