//! Source lines and mapping lines as they are written.
use vocabulary::ValueKind;

/// A source line, by the names and texts that stand in it.
#[derive(Drop)]
pub(crate) enum SourceLine<'a> {
    /// `table T "FILE"`, with the text behind `offset`.
    Table(&'a str, &'a str, Option<&'a str>),
    /// `column T C KIND`, with the text behind `header`.
    Column(&'a str, &'a str, ValueKind, Option<&'a str>),
    /// `key T (C, C)`.
    Key(&'a str, Vec<&'a str>),
}

/// `a.c`: an alias, and a column of its table.
#[derive(Clone, Copy)]
pub(crate) struct Cell<'a> {
    pub(crate) alias: &'a str,
    pub(crate) column: &'a str,
}

/// What a cell is compared with.
#[derive(Clone, Copy)]
pub(crate) enum Other<'a> {
    Cell(Cell<'a>),
    Text(&'a str),
}

#[derive(Clone, Copy)]
pub(crate) enum Condition<'a> {
    /// `a.c = b.d` or `a.c = "TEXT"`.
    Same(Cell<'a>, Other<'a>),
    /// `a.c <> b.d` or `a.c <> "TEXT"`.
    Differs(Cell<'a>, Other<'a>),
    /// `a.c is null`.
    Null(Cell<'a>),
    /// `a.c is not null`.
    NotNull(Cell<'a>),
}

#[derive(Clone, Copy)]
pub(crate) enum Term<'a> {
    /// `iri "TEMPLATE"`.
    Iri(&'a str),
    /// `a.c`.
    Column(Cell<'a>),
    /// `"TEXT"`.
    Constant(&'a str),
}

/// An atom of a mapping.
#[derive(Clone, Copy)]
pub(crate) enum Target<'a> {
    /// `A(TERM)`.
    One(&'a str, Term<'a>),
    /// `P(TERM, TERM)`.
    Two(&'a str, Term<'a>, Term<'a>),
}

/// `T a`: a table under an alias.
#[derive(Clone, Copy)]
pub(crate) struct Source<'a> {
    pub(crate) table: &'a str,
    pub(crate) alias: &'a str,
}

/// `map N from T a, T b where COND and COND then ATOMS`.
#[derive(Drop)]
pub(crate) struct MapLine<'a> {
    pub(crate) name: &'a str,
    pub(crate) sources: Vec<Source<'a>>,
    pub(crate) conditions: Vec<Condition<'a>>,
    pub(crate) targets: Vec<Target<'a>>,
}
