//! The parts of annotations.
ghost use Rattle.std.specs.Prelude.{◌≡◌, [], None};
ghost use Rattle.std.specs.Option.{option_copied};

use queries::Query;
use std::alloc::Global;
use vocabulary::{List, Name, Side, ValueKind};

/// How many values of a key an event may have.
#[derive(Clone, Copy, Debug, PartialEq, Eq)]
pub enum Rule {
    /// Exactly one, else the event is left out.
    Mandatory,
    /// At most one; with several the key is not written.
    Single,
    /// Any number.
    Many,
}

/// Where the values of a key come from.
#[derive(Debug, Drop)]
pub enum KeySource {
    /// This one value, in canonical text.
    Fixed(ValueKind, Name),
    /// The second terms of the query's answers whose first term is the object; their sort.
    Asked(Query, Side),
}

/// A key of an event.
#[derive(Debug, Drop)]
pub struct KeyNote {
    pub key: Name,
    pub rule: Rule,
    pub source: KeySource,
}

/// An event annotation: its name, its line in the project, the query of its objects, the query of
/// their cases, and its keys in the order of their lines.
#[derive(Debug, Drop)]
pub struct EventNote {
    pub name: Name,
    pub line: u32,
    pub objects: Query,
    pub cases: Option<Query>,
    pub keys: List<KeyNote>,
}

/// A query that is only asked by its name.
#[derive(Debug, Drop)]
pub struct NamedQuery {
    pub name: Name,
    pub query: Query,
}

/// What a project's lines of annotations say, each list in the order of the lines.
#[derive(Debug, Drop)]
pub struct Annotations {
    pub case_query: Option<Query>,
    pub case_name: Option<Query>,
    pub events: List<EventNote>,
    pub queries: List<NamedQuery>,
}

impl Annotations {
    pub fn new(alloc: Global) -> Annotations
        ensures { result ≡ record { case_query = None; case_name = None; events = []; queries = [] } }
    {
        Annotations {
            case_query: None,
            case_name: None,
            events: List::new(alloc),
            queries: List::new(alloc),
        }
    }

    /// The query of the cases, where a line gives one.
    pub fn case_query(&self) -> Option<&Query>
        ensures { option_copied result ≡ self.now.case_query }
    {
        self.case_query.as_ref()
    }

    /// The query of the names of cases, where a line gives one.
    pub fn case_name(&self) -> Option<&Query>
        ensures { option_copied result ≡ self.now.case_name }
    {
        self.case_name.as_ref()
    }

    pub fn events(&self) -> &[EventNote]
        ensures { result.now ≡ self.now.events }
    {
        self.events.items()
    }
}
