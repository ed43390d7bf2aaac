//! Annotations with the names of the variables of the queries that can be asked by name.
ghost use Rattle.std.specs.Prelude.{◌≡◌, ◌∷◌, ◌++◌, [], Some, map, option_map, position, IfOk, OnOk};
ghost use Rattle.std.specs.Str.{bytes_eq};
ghost use Rattle.annotation_language.specs.Lines.{nothing};
ghost use Rattle.annotation_language.specs.Askable.{AreAskable};
ghost use Rattle.annotation_language.specs.Resolved.{texts};
ghost use Rattle.annotation_language.specs.Changing.{with_cases, with_key};
ghost use Rattle.annotation_language.specs.Named.{variables_named};

use crate::notes::{Annotations, EventNote, KeyNote, KeySource, NamedQuery};
use queries::Query;
use std::alloc::{AllocError, Global};
use std::marker::Model;
use vocabulary::{List, Name};

/// The variables of a query, by their numbers.
#[derive(Drop)]
pub(crate) struct Variables {
    name: Name,
    variables: List<Name>,
}

impl Model for Variables {
    ghost use Rattle.annotation_language.specs.Lines.{VariablesOf};

    ghost Value = { VariablesOf };

    ghost view = { λ v. record { name = v.name; variables = v.variables } };
}

impl Variables {
    pub(crate) fn new(
        alloc: Global,
        name: &str,
        variables: &[&str],
    ) -> Result<Variables, AllocError>
        ensures { IfOk result (λ v. v ≡ record { name = name.now; variables = texts variables.now }) }
    {
        let names = copied(alloc, variables)?;
        let name = Name::new(alloc, name)?;
        Ok(Variables {
            name,
            variables: List::from_vec(names),
        })
    }

    fn is_of(&self, name: &str) -> bool
        ensures { result ≡ bytes_eq self.now.name name.now }
    {
        self.name.text() == name
    }

    fn names(&self) -> &[Name]
        ensures { result.now ≡ self.now.variables }
    {
        self.variables.items()
    }
}

fn place_of(found: &[Variables], name: &str) -> Option<usize>
    ensures { result ≡ position (λ v. bytes_eq v.name name.now) found.now }
{
    found.iter().position(|variables| variables.is_of(name))
}

fn copied(alloc: Global, names: &[&str]) -> Result<Vec<Name>, AllocError>
    ensures { IfOk result (λ v. v.items ≡ texts names.now) }
{
    let mut copies = Vec::new(alloc);
    for name in names {
        copies.push(Name::new(alloc, name)?)?;
    }
    Ok(copies)
}

/// What the annotation lines so far say.
#[derive(Drop)]
pub struct Noted {
    notes: Annotations,
    variables: List<Variables>,
}

impl Model for Noted {
    ghost use Rattle.std.specs.Coded.{codes};
    ghost use Rattle.vocabulary.specs.contracts.term.Term as term;
    ghost use Rattle.annotation_language.specs.Lines.{Noted as NotedOf};

    ghost Value = { NotedOf };

    ghost coded = { Prim.hlevel (codes, term.the_row.coded) };

    ghost view = { λ n. record { notes = n.notes; variables = n.variables } };
}

impl Noted {
    /// What no line says.
    pub fn new(alloc: Global) -> Noted
        ensures made { result ≡ nothing }
        ensures askable { AreAskable result.notes }
    {
        Noted {
            notes: Annotations::new(alloc),
            variables: List::new(alloc),
        }
    }

    pub fn notes(&self) -> &Annotations
        ensures { result.now ≡ self.now.notes }
    {
        &self.notes
    }

    /// The variables, by their numbers, of the query that can be asked by this name.
    pub fn variables(&self, name: &str) -> Option<&[Name]>
        ensures { option_map (λ found. found.now) result ≡ variables_named self.now.variables name.now }
    {
        let found = self.variables.items();
        let at = place_of(found, name)?;
        match found.get(at) {
            Some(variables) => Some(variables.names()),
            None => None,
        }
    }

    pub(crate) fn add_case(&mut self, query: Query, variables: Variables) -> Result<(), AllocError>
        ensures { OnOk result (self.new ≡ record { notes = record self.old.notes { case_query = Some query }; variables = self.old.variables ++ variables ∷ [] }) }
    {
        self.variables.push(variables)?;
        self.notes.case_query = Some(query);
        Ok(())
    }

    pub(crate) fn add_case_name(&mut self, query: Query)
        ensures { self.new ≡ record self.old { notes = record self.old.notes { case_name = Some query } } }
    {
        self.notes.case_name = Some(query);
    }

    pub(crate) fn add_event(
        &mut self,
        event: EventNote,
        variables: Variables,
    ) -> Result<(), AllocError>
        ensures { OnOk result (self.new ≡ record { notes = record self.old.notes { events = self.old.notes.events ++ event ∷ [] }; variables = self.old.variables ++ variables ∷ [] }) }
    {
        self.variables.push(variables)?;
        self.notes.events.push(event)?;
        Ok(())
    }

    /// Gives these cases to the event of the name. Want of memory leaves no events.
    pub(crate) fn add_cases(
        &mut self,
        alloc: Global,
        name: &str,
        query: &Query,
    ) -> Result<(), AllocError>
        ensures { OnOk result (self.new ≡ record self.old { notes = record self.old.notes { events = map (with_cases name.now query.now) self.old.notes.events } }) }
    {
        let events = std::mem::replace(&mut self.notes.events, List::new(alloc));
        let mut events = events.into_vec();
        give_cases(alloc, events.as_mut_slice(), name, query)?;
        self.notes.events = List::from_vec(events);
        Ok(())
    }

    /// Gives this key to the event of the name. Want of memory leaves no events.
    pub(crate) fn add_key(
        &mut self,
        alloc: Global,
        name: &str,
        key: &KeyNote,
    ) -> Result<(), AllocError>
        ensures { OnOk result (self.new ≡ record self.old { notes = record self.old.notes { events = map (with_key name.now key.now) self.old.notes.events } }) }
    {
        let events = std::mem::replace(&mut self.notes.events, List::new(alloc));
        let mut events = events.into_vec();
        give_key(alloc, events.as_mut_slice(), name, key)?;
        self.notes.events = List::from_vec(events);
        Ok(())
    }

    pub(crate) fn add_query(
        &mut self,
        query: NamedQuery,
        variables: Variables,
    ) -> Result<(), AllocError>
        ensures { OnOk result (self.new ≡ record { notes = record self.old.notes { queries = self.old.notes.queries ++ query ∷ [] }; variables = self.old.variables ++ variables ∷ [] }) }
    {
        self.variables.push(variables)?;
        self.notes.queries.push(query)?;
        Ok(())
    }
}

// Gives these cases to each event of the name.
fn give_cases(
    alloc: Global,
    events: &mut [EventNote],
    name: &str,
    query: &Query,
) -> Result<(), AllocError>
    ensures { OnOk result (events.new ≡ map (with_cases name.now query.now) events.old) }
{
    for event in events.iter_mut() {
        event.give_cases(alloc, name, query)?;
    }
    Ok(())
}

// Gives this key to each event of the name.
fn give_key(
    alloc: Global,
    events: &mut [EventNote],
    name: &str,
    key: &KeyNote,
) -> Result<(), AllocError>
    ensures { OnOk result (events.new ≡ map (with_key name.now key.now) events.old) }
{
    for event in events.iter_mut() {
        event.give_key(alloc, name, key)?;
    }
    Ok(())
}

impl EventNote {
    fn give_cases(&mut self, alloc: Global, name: &str, query: &Query) -> Result<(), AllocError>
        ensures { OnOk result (self.new ≡ with_cases name.now query.now self.old) }
    {
        if self.name.text() == name {
            let query = query.copy(alloc)?;
            self.cases = Some(query);
        }
        Ok(())
    }

    fn give_key(&mut self, alloc: Global, name: &str, key: &KeyNote) -> Result<(), AllocError>
        ensures { OnOk result (self.new ≡ with_key name.now key.now self.old) }
    {
        if self.name.text() == name {
            let key = key.copy(alloc)?;
            self.keys.push(key)?;
        }
        Ok(())
    }
}

impl KeyNote {
    fn copy(&self, alloc: Global) -> Result<KeyNote, AllocError>
        ensures { IfOk result (λ k. k ≡ self.now) }
    {
        let source = self.source.copy(alloc)?;
        let key = self.key.copy(alloc)?;
        Ok(KeyNote {
            key,
            rule: self.rule,
            source,
        })
    }
}

impl KeySource {
    fn copy(&self, alloc: Global) -> Result<KeySource, AllocError>
        ensures { IfOk result (λ s. s ≡ self.now) }
    {
        match self {
            KeySource::Fixed(kind, text) => Ok(KeySource::Fixed(*kind, text.copy(alloc)?)),
            KeySource::Asked(query, side) => Ok(KeySource::Asked(query.copy(alloc)?, *side)),
        }
    }
}
