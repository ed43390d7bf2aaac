//! Making one atom of two.
ghost use Rattle.std.specs.Prelude.{◌≡◌, ◌≢◌, ◌<◌, ◌-◌, ◌^◌, ◌∷◌, IfOk, length, map, option_map};
ghost use Rattle.queries.specs.Changes.{changed, changed_atom};
ghost use Rattle.queries.specs.Unifying.{atoms_met, changed_both, changed_both_atom, class_met, fixed, further_met, joined, kept_arg, link_met, links_met, lower, met, others, unified};

use crate::order::compare_terms;
use crate::query::copy_atoms;
use crate::replace::{replace, replace_in_atom};
use crate::{Arg, Atom, Query};
use std::alloc::{AllocError, Global};
use std::cmp::Ordering;
use vocabulary::{ClassId, LinkId, List, Term, VarId};

/// What is replaced where two arguments become one: nothing, or a variable by an argument.
#[derive(Debug, Drop)]
pub enum Change {
    Keep,
    Put(VarId, Arg),
}

/// What two arguments become, and what is replaced for it.
#[derive(Debug, Drop)]
pub struct Meeting {
    pub change: Change,
    pub arg: Arg,
}

/// What two atoms become, and what is replaced for it, one after the other.
#[derive(Debug, Drop)]
pub struct Union {
    pub first: Change,
    pub second: Change,
    pub atom: Atom,
}

impl Query {
    /// The unify step for the atoms at two places, in normal form: the two become one, a Blank the
    /// other argument, of two variables the higher number the lower, a variable the constant, and
    /// so in the whole query, the head included. `None` exactly where they do not unify.
    pub fn unify_atoms(&self, alloc: Global, i: u32, j: u32) -> Result<Option<Query>, AllocError>
        requires first { i < length self.now.atoms }
        requires second { j < length self.now.atoms }
        requires apart { i ≢ j }
        requires head { length self.now.head < 2 ^ 32 - 1 }
        requires atoms { length self.now.atoms < 2 ^ 32 - 1 }
        ensures { IfOk result (λ out. out ≡ unified self.now i j) }
    {
        let atoms = self.atoms.items();
        let (i, j) = (i as usize, j as usize);
        match meet_atoms(alloc, &atoms[i], &atoms[j])? {
            Some(union) => Ok(Some(self.join(alloc, i, j, union)?.normal(alloc)?)),
            None => Ok(None),
        }
    }

    fn join(&self, alloc: Global, i: usize, j: usize, union: Union) -> Result<Query, AllocError>
        requires first { i < length self.now.atoms }
        requires second { j < length self.now.atoms }
        requires apart { i ≢ j }
        ensures { IfOk result (λ q. q ≡ joined self.now i j union) }
    {
        let head = union.on_args(alloc, self.head.items())?;
        let atoms = union.on_others(alloc, self.atoms.items(), i, j)?;
        query_of(head, union.into_atom(), atoms)
    }
}

fn query_of(head: Vec<Arg>, first: Atom, mut atoms: Vec<Atom>) -> Result<Query, AllocError>
    ensures { IfOk result (λ q. q ≡ record { head = head.items; atoms = first ∷ atoms.items }) }
{
    atoms.insert(0, first)?;
    Ok(Query {
        head: List::from_vec(head),
        atoms: List::from_vec(atoms),
    })
}

impl Union {
    fn into_atom(self) -> Atom
        ensures { result ≡ self.atom }
    {
        self.atom
    }

    fn on_arg(&self, alloc: Global, arg: &Arg) -> Result<Arg, AllocError>
        ensures { IfOk result (λ x. x ≡ changed_both self.now arg.now) }
    {
        let once = self.first.on(alloc, arg)?;
        self.second.on(alloc, &once)
    }

    fn on_atom(&self, alloc: Global, atom: &Atom) -> Result<Atom, AllocError>
        ensures { IfOk result (λ a. a ≡ changed_both_atom self.now atom.now) }
    {
        let once = self.first.on_atom(alloc, atom)?;
        self.second.on_atom(alloc, &once)
    }

    // The atoms but those at two places.
    fn on_others(
        &self,
        alloc: Global,
        atoms: &[Atom],
        i: usize,
        j: usize,
    ) -> Result<Vec<Atom>, AllocError>
        requires first { i < length atoms.now }
        requires second { j < length atoms.now }
        requires apart { i ≢ j }
        ensures { IfOk result (λ out. out.items ≡ map (changed_both_atom self.now) (others i j atoms.now)) }
    {
        let rest = without(alloc, atoms, i, j)?;
        self.on_atoms(alloc, rest.as_slice())
    }

    fn on_args(&self, alloc: Global, args: &[Arg]) -> Result<Vec<Arg>, AllocError>
        ensures { IfOk result (λ out. out.items ≡ map (changed_both self.now) args.now) }
    {
        let mut out = Vec::new(alloc);
        for x in args {
            out.push(self.on_arg(alloc, x)?)?;
        }
        Ok(out)
    }

    fn on_atoms(&self, alloc: Global, atoms: &[Atom]) -> Result<Vec<Atom>, AllocError>
        ensures { IfOk result (λ out. out.items ≡ map (changed_both_atom self.now) atoms.now) }
    {
        let mut out = Vec::new(alloc);
        for a in atoms {
            out.push(self.on_atom(alloc, a)?)?;
        }
        Ok(out)
    }
}

impl Change {
    fn on(&self, alloc: Global, arg: &Arg) -> Result<Arg, AllocError>
        ensures { IfOk result (λ x. x ≡ changed self.now arg.now) }
    {
        match self {
            Change::Keep => arg.copy(alloc),
            Change::Put(v, by) => replace(alloc, *v, by, arg),
        }
    }

    fn on_atom(&self, alloc: Global, atom: &Atom) -> Result<Atom, AllocError>
        ensures { IfOk result (λ a. a ≡ changed_atom self.now atom.now) }
    {
        match self {
            Change::Keep => atom.copy(alloc),
            Change::Put(v, by) => replace_in_atom(alloc, *v, by, atom),
        }
    }
}

fn without(alloc: Global, atoms: &[Atom], i: usize, j: usize) -> Result<Vec<Atom>, AllocError>
    requires first { i < length atoms.now }
    requires second { j < length atoms.now }
    requires apart { i ≢ j }
    ensures { IfOk result (λ out. out.items ≡ others i j atoms.now) }
{
    let mut rest = copy_atoms(alloc, atoms)?;
    let (low, high) = if i < j { (i, j) } else { (j, i) };
    rest.remove(high);
    rest.remove(low);
    Ok(rest)
}

fn meet_atoms(alloc: Global, a: &Atom, b: &Atom) -> Result<Option<Union>, AllocError>
    ensures { IfOk result (λ made. made ≡ atoms_met a.now b.now) }
{
    match (a, b) {
        (Atom::InClass(c, x), Atom::InClass(d, y)) => {
            if c.0 == d.0 {
                meet_at_class(alloc, *c, x, y)
            } else {
                Ok(None)
            }
        }
        (Atom::InClass(_, _), Atom::Linked(_, _, _)) => Ok(None),
        (Atom::Linked(_, _, _), Atom::InClass(_, _)) => Ok(None),
        (Atom::Linked(p, x, y), Atom::Linked(q, z, w)) => {
            if p.0 == q.0 {
                meet_at_link(alloc, *p, x, y, z, w)
            } else {
                Ok(None)
            }
        }
    }
}

fn meet_at_class(
    alloc: Global,
    class: ClassId,
    x: &Arg,
    y: &Arg,
) -> Result<Option<Union>, AllocError>
    ensures { IfOk result (λ made. made ≡ option_map (class_met class) (met x.now y.now)) }
{
    match meet(alloc, x, y)? {
        Some(met) => Ok(Some(class_union(class, met))),
        None => Ok(None),
    }
}

fn meet_at_link(
    alloc: Global,
    link: LinkId,
    x: &Arg,
    y: &Arg,
    z: &Arg,
    w: &Arg,
) -> Result<Option<Union>, AllocError>
    ensures { IfOk result (λ made. made ≡ links_met link x.now y.now z.now w.now) }
{
    match meet(alloc, x, z)? {
        Some(first) => meet_further(alloc, link, first, y, w),
        None => Ok(None),
    }
}

fn class_union(class: ClassId, met: Meeting) -> Union
    ensures { result ≡ class_met class met }
{
    let Meeting { change, arg } = met;
    Union {
        first: change,
        second: Change::Keep,
        atom: Atom::InClass(class, arg),
    }
}

// The second arguments meet as the first change leaves them.
fn meet_further(
    alloc: Global,
    link: LinkId,
    first: Meeting,
    y: &Arg,
    w: &Arg,
) -> Result<Option<Union>, AllocError>
    ensures { IfOk result (λ made. made ≡ further_met link y.now w.now first) }
{
    match meet_changed(alloc, &first.change, y, w)? {
        Some(second) => Ok(Some(link_union(alloc, link, first, second)?)),
        None => Ok(None),
    }
}

fn meet_changed(
    alloc: Global,
    change: &Change,
    y: &Arg,
    w: &Arg,
) -> Result<Option<Meeting>, AllocError>
    ensures { IfOk result (λ made. made ≡ met (changed change.now y.now) (changed change.now w.now)) }
{
    let left = change.on(alloc, y)?;
    let right = change.on(alloc, w)?;
    meet(alloc, &left, &right)
}

fn link_union(
    alloc: Global,
    link: LinkId,
    first: Meeting,
    second: Meeting,
) -> Result<Union, AllocError>
    ensures { IfOk result (λ union. union ≡ link_met link first second) }
{
    let near = second.change.on(alloc, &first.arg)?;
    Ok(Union {
        first: first.change,
        second: second.change,
        atom: Atom::Linked(link, near, second.arg),
    })
}

/// What two arguments become, a Blank the other, of two variables the higher number the lower, a
/// variable the constant. `None` for two different constants.
pub fn meet(alloc: Global, x: &Arg, y: &Arg) -> Result<Option<Meeting>, AllocError>
    ensures { IfOk result (λ made. made ≡ met x.now y.now) }
{
    match (x, y) {
        (Arg::Blank, _) => Ok(Some(kept(y.copy(alloc)?))),
        (_, Arg::Blank) => Ok(Some(kept(x.copy(alloc)?))),
        (Arg::Var(v), Arg::Var(w)) => Ok(Some(lower_stays(*v, *w))),
        (Arg::Var(v), Arg::Fixed(t)) => Ok(Some(constant_stays(alloc, *v, t)?)),
        (Arg::Fixed(t), Arg::Var(w)) => Ok(Some(constant_stays(alloc, *w, t)?)),
        (Arg::Fixed(t), Arg::Fixed(u)) => {
            if compare_terms(t, u).is_eq() {
                Ok(Some(kept(x.copy(alloc)?)))
            } else {
                Ok(None)
            }
        }
    }
}

fn kept(arg: Arg) -> Meeting
    ensures { result ≡ kept_arg arg }
{
    Meeting {
        change: Change::Keep,
        arg,
    }
}

fn lower_stays(v: VarId, w: VarId) -> Meeting
    ensures { result ≡ lower v w }
{
    match v.0.cmp(&w.0) {
        Ordering::Less => Meeting {
            change: Change::Put(w, Arg::Var(v)),
            arg: Arg::Var(v),
        },
        Ordering::Equal => kept(Arg::Var(v)),
        Ordering::Greater => Meeting {
            change: Change::Put(v, Arg::Var(w)),
            arg: Arg::Var(w),
        },
    }
}

fn constant_stays(alloc: Global, v: VarId, t: &Term) -> Result<Meeting, AllocError>
    ensures { IfOk result (λ made. made ≡ fixed v t.now) }
{
    let by = Arg::Fixed(t.copy(alloc)?);
    Ok(Meeting {
        change: Change::Put(v, by),
        arg: Arg::Fixed(t.copy(alloc)?),
    })
}
