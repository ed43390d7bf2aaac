//! Annotation lines as they are written.
ghost use Rattle.std.specs.Prelude.{◌≡◌};
ghost use Rattle.annotation_language.specs.Lines.{atom_name};
ghost use Rattle.annotation_language.specs.Shown.{shown_atom};

use crate::notes::Rule;
use vocabulary::ValueKind;

/// An argument of an atom.
#[derive(Clone, Copy)]
pub(crate) enum Argument<'a> {
    /// `_`.
    Blank,
    Variable(&'a str),
    /// `"TEXT"`.
    Constant(&'a str),
    /// `iri "TEMPLATE"`.
    Iri(&'a str),
}

/// An atom of a query, by the name of its class or link.
#[derive(Clone, Copy)]
pub(crate) enum WrittenAtom<'a> {
    /// `A(ARG)`.
    One(&'a str, Argument<'a>),
    /// `P(ARG, ARG)`.
    Two(&'a str, Argument<'a>, Argument<'a>),
}

impl<'a> WrittenAtom<'a> {
    pub(crate) fn name(&self) -> &'a str
        ensures { result.now ≡ atom_name (shown_atom self.now) }
    {
        match self {
            WrittenAtom::One(p, _) => p,
            WrittenAtom::Two(p, _, _) => p,
        }
    }
}

/// Head variables, and the atoms behind `where`.
#[derive(Drop)]
pub(crate) struct Asked<'a> {
    pub(crate) head: Vec<&'a str>,
    pub(crate) atoms: Vec<WrittenAtom<'a>>,
}

/// Where the values of a key come from.
#[derive(Drop)]
pub(crate) enum Source<'a> {
    /// `(v, w) where ATOMS`.
    Answers(Asked<'a>),
    /// `is KIND "TEXT"`.
    Is(ValueKind, &'a str),
}

/// An annotation line, by the names that stand in it.
#[derive(Drop)]
pub(crate) enum AnnotationLine<'a> {
    /// `case v where ATOMS`.
    Case(Asked<'a>),
    /// `casename (v, w) where ATOMS`.
    CaseName(Asked<'a>),
    /// `event E v where ATOMS`.
    Event(&'a str, Asked<'a>),
    /// `cases E (v, w) where ATOMS`.
    Cases(&'a str, Asked<'a>),
    /// `set E "KEY" RULE` and a source.
    Key(&'a str, &'a str, Rule, Source<'a>),
    /// `query Q (v, ..) where ATOMS`.
    Query(&'a str, Asked<'a>),
}
