//! Lines of tables and mappings: that they are read where there is memory, and their faults.
ghost use Rattle.std.specs.Prelude.{IfOk};
ghost use Rattle.mapping_language.specs.Changes.{HaveOffsets};

use crate::cases::is_shown;
use crate::models::model_of;
use line_lexer::{Counted, Line, LineFault};
use mapping_facts::{Condition, RowTerm, Target};
use mapping_language::{Sources, read_mapping_line, read_source_line};
use std::alloc::Global;
use std::test::Fail;
use vocabulary::{ClassId, ColId, LinkId, Term};

const PAPERS_AND_PERSONS: &str = "class Paper
class Person
assoc writes Person * -> Paper *
attr Paper title text *
attr Paper made time *";

// A table of papers, whose times have the offset +01:00.
const PAPERS: &str = "table paper \"paper.csv\" offset \"+01:00\"
column paper id int header \"Number\"
column paper title text # of the paper

column paper made time
key paper (id)";

const JOINED: &str =
    "map m from paper p, paper q where p.id = q.id and p.id <> \"007\" and q.made = \"2024-01-02T03:04\" and p.title is null and q.title is not null then made(iri \"http://e/{p.id}\", \"2024-01-02T03:04\")";

const TWO_TARGETS: &str =
    "map m from paper p then Paper(iri \"http://e/{p.id}\"), made(iri \"http://e/{p.id}\", \"2024-01-02T03:04\")";

// Source lines behind the papers, each with its fault.
const SOURCE_FAULTS: &str = "key paper ()
=> Some(Syntax)

column paper null text
=> Some(Syntax)

key paper (id, name)
=> Some(Unknown)

column person id int
=> Some(Unknown)

table paper \"p.csv\" offset \"soon\"
=> Some(Double)

column paper new text header \"title\"
=> Some(Double)

table person \"p.csv\" offset \"+15:00\"
=> Some(TypeMismatch)

key paper (id, id)
=> Some(TypeMismatch)

key paper (title, id)
=> None";

// Mapping lines over the papers, each with its fault.
const MAPPING_FAULTS: &str = "map m from paper p then
=> Some(Syntax)

map m from person p then Paper(\"x\")
=> Some(Unknown)

map m from paper p, paper p then Paper(iri \"e:{q.id}\")
=> Some(Unknown)

map m from paper p, paper p then Paper(\"x\")
=> Some(Double)

map m from paper p then writes(iri \"e:p\")
=> Some(TypeMismatch)

map m from paper p where p.id = p.title then Paper(iri \"e:{\")
=> Some(TypeMismatch)

map m from paper p then Paper(iri \"e:{\"), Paper(iri \"e:x{p.id}\")
=> Some(BadTemplate)

map w from paper p then Paper(iri \"http://e/p{p.id}\")
=> Some(NotBounded)

map m from paper a, paper b, paper c, paper d, paper e, paper f, paper g then Paper(iri \"e:p\")
=> Some(Limit(TablesOfMapping))";

fn papers(alloc: Global) -> Result<Sources, LineFault>
    ensures { IfOk result HaveOffsets }
{
    let mut sources = Sources::new(alloc);
    for text in PAPERS.lines() {
        read_source_line(alloc, &mut sources, &Line { number: 1, text })?;
    }
    Ok(sources)
}

// The papers and what a source line behind them declares.
fn declared(alloc: Global, text: &str) -> Result<Sources, LineFault> {
    let mut sources = papers(alloc)?;
    read_source_line(alloc, &mut sources, &Line { number: 1, text })?;
    Ok(sources)
}

// The papers and the mapping of a line.
fn mapped(alloc: Global, text: &str) -> Result<Sources, LineFault> {
    let mut sources = papers(alloc)?;
    let model = model_of(alloc, PAPERS_AND_PERSONS)?;
    read_mapping_line(alloc, &mut sources, &model, &Line { number: 1, text })?;
    Ok(sources)
}

fn is_source_fault(alloc: Global, case: &str) -> Result<bool, LineFault> {
    match case.split_once("\n=> ") {
        Some((line, want)) => { Ok(is_shown(alloc, &declared(alloc, line).err(), want)?) }
        None => Ok(false),
    }
}

fn is_mapping_fault(alloc: Global, case: &str) -> Result<bool, LineFault> {
    match case.split_once("\n=> ") {
        Some((line, want)) => { Ok(is_shown(alloc, &mapped(alloc, line).err(), want)?) }
        None => Ok(false),
    }
}

// A mapping line with so many pieces between two texts.
fn repeated(
    alloc: Global,
    front: &str,
    piece: &str,
    count: u32,
    end: &str,
) -> Result<String, LineFault> {
    let mut text = String::from_str(alloc, front)?;
    for _i in 0..count {
        text.push_str(piece)?;
    }
    text.push_str(end)?;
    Ok(text)
}

fn with_conditions(alloc: Global, count: u32) -> Result<Option<LineFault>, LineFault> {
    let front = "map m from paper p where p.id is null";
    let piece = " and p.id is null";
    let line = repeated(alloc, front, piece, count, " then Paper(iri \"e:p\")")?;
    Ok(mapped(alloc, line.as_str()).err())
}

fn with_targets(alloc: Global, count: u32) -> Result<Option<LineFault>, LineFault> {
    let front = "map m from paper p then Paper(iri \"e:p\")";
    let line = repeated(alloc, front, ", Paper(iri \"e:p\")", count, "")?;
    Ok(mapped(alloc, line.as_str()).err())
}

// The constant of a condition has the offset of its table.
fn is_early_time(condition: Option<&Condition>) -> bool {
    match condition {
        Some(Condition::EqualText(place, text)) => {
            place.table == 1
                && place.col == ColId(2)
                && text.text() == "2024-01-02T02:04:00.000+00:00"
        }
        _ => false,
    }
}

fn is_paper(target: Option<&Target>) -> bool {
    match target {
        Some(Target::InClass(class, RowTerm::Iri(_, places))) => {
            *class == ClassId(0) && places.len() == 1
        }
        _ => false,
    }
}

// Another constant has the offset of UTC.
fn is_made_late(target: Option<&Target>) -> bool {
    match target {
        Some(Target::Linked(link, _, RowTerm::Fixed(Term::Value(_, text)))) => {
            *link == LinkId(2) && text.text() == "2024-01-02T03:04:00.000+00:00"
        }
        _ => false,
    }
}

fn is_the_table_of_papers(sources: &Sources) -> bool {
    match sources.tables() {
        [table] => {
            table.file.text() == "paper.csv"
                && table.offset == 60
                && table.columns.len() == 3
                && table.keys.len() == 1
        }
        _ => false,
    }
}

fn is_joined(sources: &Sources) -> bool {
    match sources.mappings() {
        [mapping] => {
            mapping.name.text() == "m"
                && mapping.query.tables.len() == 2
                && mapping.query.conditions.len() == 5
                && is_early_time(mapping.query.conditions.items().get(2))
        }
        _ => false,
    }
}

fn has_two_targets(sources: &Sources) -> bool {
    match sources.mappings() {
        [mapping] => {
            is_paper(mapping.targets.items().get(0)) && is_made_late(mapping.targets.items().get(1))
        }
        _ => false,
    }
}

fn is_empty(sources: &Sources) -> bool {
    sources.tables().is_empty() && sources.mappings().is_empty()
}

#[test]
fn sources_begin_empty(rt: HostRuntime) {
    assert!(rt; is_empty(&Sources::new(rt.alloc())));
}

#[test]
fn source_lines_declare_tables(rt: HostRuntime) -> Result<(), Fail> {
    assert!(rt; is_the_table_of_papers(&papers(rt.alloc())?));
    Ok(())
}

#[test]
fn source_lines_have_their_first_fault(rt: HostRuntime) -> Result<(), Fail> {
    for case in SOURCE_FAULTS.split("\n\n") {
        assert!(rt; is_source_fault(rt.alloc(), case)?, "{case}");
    }
    Ok(())
}

#[test]
fn mapping_lines_give_mappings(rt: HostRuntime) -> Result<(), Fail> {
    assert!(rt; is_joined(&mapped(rt.alloc(), JOINED)?));
    Ok(())
}

#[test]
fn targets_have_their_terms(rt: HostRuntime) -> Result<(), Fail> {
    assert!(rt; has_two_targets(&mapped(rt.alloc(), TWO_TARGETS)?));
    Ok(())
}

#[test]
fn mapping_lines_have_their_first_fault(rt: HostRuntime) -> Result<(), Fail> {
    for case in MAPPING_FAULTS.split("\n\n") {
        assert!(rt; is_mapping_fault(rt.alloc(), case)?, "{case}");
    }
    Ok(())
}

#[test]
fn mapping_lines_have_limits(rt: HostRuntime) -> Result<(), Fail> {
    let alloc = rt.alloc();
    let many = Some(LineFault::Limit(Counted::Conditions));
    assert!(rt; with_conditions(alloc, 31)? == None);
    assert!(rt; with_conditions(alloc, 32)? == many);
    assert!(rt; with_targets(alloc, 32)? == Some(LineFault::Limit(Counted::Targets)));
    Ok(())
}
