//! What annotations have by a name.
ghost use Rattle.std.specs.Prelude.{◌≡◌, ◌<◌, ◌^◌, position, is_some};
ghost use Rattle.std.specs.List.{list_any};
ghost use Rattle.std.specs.Option.{option_copied};
ghost use Rattle.std.specs.Str.{bytes_eq};
ghost use Rattle.annotation_language.specs.Complete.{has_key};
ghost use Rattle.annotation_language.specs.Lines.{event_named, is_taken, of_event, keys_in};
ghost use Rattle.annotation_language.specs.Named.{query_named, noted_query};

use crate::notes::{Annotations, EventNote, NamedQuery};
use queries::Query;

impl Annotations {
    /// The query that can be asked by this name: the case query by `case`, the objects of an event and the query of a
    /// `query` line by their names.
    pub fn query_named(&self, name: &str) -> Option<&Query>
        ensures { option_copied result ≡ query_named self.now name.now }
    {
        if name == "case" {
            return self.case_query.as_ref();
        }
        if let Some(event) = self.event_named(name) {
            return Some(&event.objects);
        }
        noted_query(self.queries.items(), name)
    }

    fn event_named(&self, name: &str) -> Option<&EventNote>
        ensures { option_copied result ≡ event_named self.now name.now }
    {
        let events = self.events.items();
        let at = place_of(events, name)?;
        events.get(at)
    }

    /// There is an event of the name.
    pub(crate) fn is_event(&self, name: &str) -> bool
        ensures { result ≡ is_some (event_named self.now name.now) }
    {
        match self.event_named(name) {
            Some(_) => true,
            None => false,
        }
    }

    /// An event or a query has the name, or it is `case`.
    pub(crate) fn is_taken(&self, name: &str) -> bool
        ensures { result ≡ is_taken self.now name.now }
    {
        name == "case"
            || has_event(self.events.items(), name)
            || has_query(self.queries.items(), name)
    }

    /// The event of the name has the key.
    pub(crate) fn has_key(&self, event: &str, key: &str) -> bool
        ensures { result ≡ of_event (event_named self.now event.now) (has_key key.now) }
    {
        match self.event_named(event) {
            Some(event) => event.has_key(key),
            None => false,
        }
    }

    /// The event of the name has cases.
    pub(crate) fn has_cases(&self, event: &str) -> bool
        ensures { result ≡ of_event (event_named self.now event.now) (λ event. is_some event.cases) }
    {
        match self.event_named(event) {
            Some(event) => event.cases.is_some(),
            None => false,
        }
    }

    /// How many keys the event of the name has.
    pub(crate) fn keys_in(&self, event: &str) -> usize
        ensures value { result ≡ keys_in (event_named self.now event.now) }
        ensures small { result < 2 ^ 63 }
    {
        match self.event_named(event) {
            Some(event) => event.keys.items().len(),
            None => 0,
        }
    }
}

impl EventNote {
    pub(crate) fn has_key(&self, key: &str) -> bool
        ensures { result ≡ has_key key.now self.now }
    {
        self.keys.items().iter().any(|k| k.key.text() == key)
    }
}

fn place_of(events: &[EventNote], name: &str) -> Option<usize>
    ensures { result ≡ position (λ event. bytes_eq event.name name.now) events.now }
{
    events.iter().position(|event| event.name.text() == name)
}

fn has_event(events: &[EventNote], name: &str) -> bool
    ensures { result ≡ list_any (λ event. bytes_eq event.name name.now) events.now }
{
    events.iter().any(|event| event.name.text() == name)
}

fn noted_query<'s>(queries: &'s [NamedQuery], name: &str) -> Option<&'s Query>
    ensures { option_copied result ≡ noted_query queries.now name.now }
{
    let at = place_of_query(queries, name)?;
    match queries.get(at) {
        Some(query) => Some(&query.query),
        None => None,
    }
}

fn place_of_query(queries: &[NamedQuery], name: &str) -> Option<usize>
    ensures { result ≡ position (λ q. bytes_eq q.name name.now) queries.now }
{
    queries.iter().position(|query| query.name.text() == name)
}

fn has_query(queries: &[NamedQuery], name: &str) -> bool
    ensures { result ≡ list_any (λ query. bytes_eq query.name name.now) queries.now }
{
    queries.iter().any(|query| query.name.text() == name)
}
