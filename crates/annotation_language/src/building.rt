//! The query that a written one is.
ghost use Rattle.std.specs.Prelude.{◌≡◌, ◌<◌, ◌^◌, ◌++◌, length, map, IfOk, OnOk};
ghost use Rattle.std.specs.List.{flat_map};
ghost use Rattle.uml_model.specs.Rules.{class_named, link_named};
ghost use Rattle.annotation_language.specs.Lines.{constant, kind_of_side, variable, argument_of, atom_of, query_of};
ghost use Rattle.annotation_language.specs.Shown.{shown_argument, shown_atom, shown_query};
ghost use Rattle.annotation_language.specs.Resolved.{HasVariables, texts};

use crate::resolved::Resolved;
use crate::variables::number_of;
use crate::written::{Argument, WrittenAtom};
use queries::{Arg, Atom, Query};
use source_tables::read_value;
use std::alloc::{AllocError, Global};
use uml_model::Model;
use vocabulary::{List, Name, Side, Term, ValueKind, VarId};

// The canonical text of a constant.
pub(crate) fn constant(alloc: Global, kind: ValueKind, text: &str) -> Result<Name, AllocError>
    ensures { IfOk result (λ n. n ≡ constant kind text.now) }
{
    match read_value(alloc, kind, text, 0)? {
        Some(value) => Ok(value),
        None => Name::new(alloc, ""),
    }
}

fn kind_of_side(side: Side) -> ValueKind
    ensures { result ≡ kind_of_side side }
{
    match side {
        Side::Object => ValueKind::Text,
        Side::Value(kind) => kind,
    }
}

impl<'q, 'a> Resolved<'q, 'a> {
    fn variable(&self, v: &str) -> Arg
        requires own { HasVariables self.now }
        ensures { result ≡ variable (shown_query self.now.query.now) v.now }
    {
        match number_of(self.variables.as_slice(), v) {
            Some(n) => Arg::Var(VarId(n as u32)),
            None => Arg::Var(VarId(0)),
        }
    }

    fn argument(
        &self,
        alloc: Global,
        argument: &Argument<'a>,
        side: Side,
    ) -> Result<Arg, AllocError>
        requires own { HasVariables self.now }
        ensures { IfOk result (λ x. x ≡ argument_of (shown_query self.now.query.now) (shown_argument argument.now) side) }
    {
        match argument {
            Argument::Blank => Ok(Arg::Blank),
            Argument::Variable(v) => Ok(self.variable(v)),
            Argument::Constant(text) => {
                let kind = kind_of_side(side);
                Ok(Arg::Fixed(Term::Value(kind, constant(alloc, kind, text)?)))
            }
            Argument::Iri(text) => Ok(Arg::Fixed(Term::Named(Name::new(alloc, text)?))),
        }
    }

    fn push_atom(
        &self,
        alloc: Global,
        model: &Model,
        atom: &WrittenAtom<'a>,
        atoms: &mut Vec<Atom>,
    ) -> Result<(), AllocError>
        requires own { HasVariables self.now }
        ensures { OnOk result (atoms.new.items ≡ atoms.old.items ++ atom_of (class_named model.now) (link_named model.now) (shown_query self.now.query.now) (shown_atom atom.now)) }
    {
        match atom {
            WrittenAtom::One(p, a) => match model.class_named(p) {
                Some(class) => {
                    let a = self.argument(alloc, a, Side::Object)?;
                    atoms.push(Atom::InClass(class, a))?;
                    Ok(())
                }
                None => Ok(()),
            },
            WrittenAtom::Two(p, a, b) => match model.link_named(p) {
                Some((link, side)) => {
                    let a = self.argument(alloc, a, Side::Object)?;
                    let b = self.argument(alloc, b, side)?;
                    atoms.push(Atom::Linked(link, a, b))?;
                    Ok(())
                }
                None => Ok(()),
            },
        }
    }

    fn atoms(&self, alloc: Global, model: &Model) -> Result<Vec<Atom>, AllocError>
        requires own { HasVariables self.now }
        ensures { IfOk result (λ v. v.items ≡ flat_map (atom_of (class_named model.now) (link_named model.now) (shown_query self.now.query.now)) (map shown_atom self.now.query.now.atoms.items)) }
    {
        let mut atoms = Vec::new(alloc);
        for atom in &self.query.atoms {
            self.push_atom(alloc, model, atom, &mut atoms)?;
        }
        Ok(atoms)
    }

    fn head(&self, alloc: Global) -> Result<Vec<Arg>, AllocError>
        requires own { HasVariables self.now }
        ensures { IfOk result (λ v. v.items ≡ map (variable (shown_query self.now.query.now)) (texts self.now.query.now.head.items)) }
    {
        let mut head = Vec::new(alloc);
        for v in &self.query.head {
            head.push(self.variable(v))?;
        }
        Ok(head)
    }

    /// The query, with numbers for names. Names that the model does not have leave no atoms.
    pub(crate) fn query(&self, alloc: Global, model: &Model) -> Result<Query, AllocError>
        requires own { HasVariables self.now }
        ensures { IfOk result (λ q. q ≡ query_of (class_named model.now) (link_named model.now) (shown_query self.now.query.now)) }
    {
        let head = self.head(alloc)?;
        let atoms = self.atoms(alloc, model)?;
        Ok(Query {
            head: List::from_vec(head),
            atoms: List::from_vec(atoms),
        })
    }
}
