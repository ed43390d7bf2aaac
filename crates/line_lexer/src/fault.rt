//! What a line may break, and what is counted.
ghost use Rattle.std.specs.Prelude.{◌≡◌, nat_lt};
ghost use Rattle.line_lexer.specs.declared.fault.LineFault.TheVariants.{NoMemory};

use std::alloc::{AllocError, AllocFailed};

/// What is counted against a limit, in the order of the table of limits.
#[derive(Clone, Copy, Debug, PartialEq, Eq)]
pub enum Counted {
    File,
    TablesTogether,
    Lines,
    Tables,
    Columns,
    Keys,
    Rows,
    Classes,
    Links,
    Axioms,
    Constraints,
    Mappings,
    TablesOfMapping,
    Conditions,
    Targets,
    Atoms,
    Variables,
    Events,
    EventKeys,
    Queries,
    Rewriting,
    Steps,
    IdentifyingAttributes,
}

impl Counted {
    ghost use Rattle.line_lexer.specs.Faults.{name_of, limit_of};

    /// The name in the line `limit: NAME`.
    pub fn name(&self) -> &'static str
        ensures { result.now ≡ name_of self.now }
    {
        match self {
            Counted::File => "file",
            Counted::TablesTogether => "tables together",
            Counted::Lines => "lines",
            Counted::Tables => "tables",
            Counted::Columns => "columns",
            Counted::Keys => "keys",
            Counted::Rows => "rows",
            Counted::Classes => "classes",
            Counted::Links => "links",
            Counted::Axioms => "axioms",
            Counted::Constraints => "constraints",
            Counted::Mappings => "mappings",
            Counted::TablesOfMapping => "tables of a mapping",
            Counted::Conditions => "conditions",
            Counted::Targets => "targets",
            Counted::Atoms => "atoms",
            Counted::Variables => "variables",
            Counted::Events => "events",
            Counted::EventKeys => "event keys",
            Counted::Queries => "queries",
            Counted::Rewriting => "rewriting",
            Counted::Steps => "steps",
            Counted::IdentifyingAttributes => "identifying attributes",
        }
    }

    /// The number that the count may reach and not pass: bytes for a file and for the tables together, else pieces.
    pub fn limit(&self) -> u64
        ensures { result ≡ limit_of self.now }
    {
        match self {
            Counted::File => 67_108_864,
            Counted::TablesTogether => 268_435_456,
            Counted::Lines => 20_000,
            Counted::Tables => 64,
            Counted::Columns => 64,
            Counted::Keys => 8,
            Counted::Rows => 1_000_000,
            Counted::Classes => 400,
            Counted::Links => 600,
            Counted::Axioms => 6_000,
            Counted::Constraints => 3_000,
            Counted::Mappings => 500,
            Counted::TablesOfMapping => 6,
            Counted::Conditions => 32,
            Counted::Targets => 32,
            Counted::Atoms => 16,
            Counted::Variables => 16,
            Counted::Events => 64,
            Counted::EventKeys => 64,
            Counted::Queries => 256,
            Counted::Rewriting => 4_000,
            Counted::Steps => 8_000,
            Counted::IdentifyingAttributes => 3,
        }
    }

    /// The count passes its number.
    pub fn is_passed_by(self, count: u32) -> bool
        ensures { result ≡ nat_lt (limit_of self) count }
    {
        self.limit() < count as u64
    }
}

/// What a line may break. A line's fault is the first kind that it has over the whole line, in the order Syntax,
/// Unknown, Double, TypeMismatch, FunctionalSpecialised, BadTemplate, NotBounded, MixedSort, HeadUnbound,
/// BadKey, Limit. NoCase, NoCases, NoTime and NoActivity are faults of a project, found behind its last line. Want of
/// memory may come at any time.
#[derive(Clone, Copy, Debug, PartialEq, Eq)]
pub enum LineFault {
    /// The line is in no form.
    Syntax,
    /// A name that nothing declares.
    Unknown,
    /// A name, or a line of which there may be one, a second time.
    Double,
    /// A constant, a name or a number of arguments that does not fit its place.
    TypeMismatch,
    /// A text that is no IRI template.
    BadTemplate,
    /// A hole whose ends cannot be told.
    NotBounded,
    /// A variable that stands for objects and for values.
    MixedSort,
    /// A head variable that is in no atom.
    HeadUnbound,
    /// A key of an event, or a case name, that logs cannot have.
    BadKey,
    /// A project without a `case` line.
    NoCase,
    /// An event without its `cases` line.
    NoCases,
    /// An event without a time.
    NoTime,
    /// An event without an activity name.
    NoActivity,
    /// A functional association or attribute that has one below it.
    FunctionalSpecialised,
    /// A count that passes its number.
    Limit(Counted),
    /// No memory was left.
    NoMemory,
}

impl LineFault {
    ghost use Rattle.line_lexer.specs.Faults.{kind_of};

    /// The name of the fault in the line `refused: P line L: KIND`.
    pub fn kind(&self) -> &'static str
        ensures { result.now ≡ kind_of self.now }
    {
        match self {
            LineFault::Syntax => "Syntax",
            LineFault::Unknown => "Unknown",
            LineFault::Double => "Double",
            LineFault::TypeMismatch => "TypeMismatch",
            LineFault::BadTemplate => "BadTemplate",
            LineFault::NotBounded => "NotBounded",
            LineFault::MixedSort => "MixedSort",
            LineFault::HeadUnbound => "HeadUnbound",
            LineFault::BadKey => "BadKey",
            LineFault::NoCase => "NoCase",
            LineFault::NoCases => "NoCases",
            LineFault::NoTime => "NoTime",
            LineFault::NoActivity => "NoActivity",
            LineFault::FunctionalSpecialised => "FunctionalSpecialised",
            LineFault::Limit(_) => "Limit",
            LineFault::NoMemory => "NoMemory",
        }
    }
}

impl From<AllocError> for LineFault {
    ghost from_gives = { λ _ e. e ≡ NoMemory };

    fn from(_: AllocError) -> Self {
        LineFault::NoMemory
    }
}

impl<T: Drop> From<AllocFailed<T>> for LineFault {
    ghost from_gives = { λ _ e. e ≡ NoMemory };

    fn from(_: AllocFailed<T>) -> Self {
        LineFault::NoMemory
    }
}
