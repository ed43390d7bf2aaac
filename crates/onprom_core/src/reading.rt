//! Reading what a run needs.
ghost use Rattle.std.specs.Prelude.{◌≡◌, ◌≢◌, ◌+◌, ◌≤◌, IfSome, IfOk, IfErr, Ok, Err, length, map};
ghost use Rattle.onprom_core.specs.Causes.{CountsReading, IsLocal, SaysUsage};
ghost use Rattle.onprom_core.specs.Outputs.{Adds, Passes, Refuses};
ghost use Rattle.onprom_core.specs.Steps.{Gives};
ghost use Rattle.onprom_core.specs.Walk.{complete_step, file_step, given_step, one_table, ontology_step, project_of, project_step, read_step, spell_step, spelled_step, table_step, tables_step, together_step};
ghost use Rattle.jiff_core.specs.Calendar.{IsWithin};
ghost use Rattle.line_lexer.specs.Faults.{limit_of};
ghost use Rattle.line_lexer.specs.declared.fault.Counted.TheVariants.{File, TablesTogether};
ghost use Rattle.derivation_text.specs.Reading.{derivations_of};
ghost use Rattle.onprom_core.specs.Meaning.{mapping_names};
ghost use Rattle.owl_functional.specs.Ontology.{read_ontology};
ghost use Rattle.owl_functional.specs.Sound.{IsOntology};
ghost use Rattle.project_language.specs.Project.{bad_line, ontology_file};
ghost use Rattle.project_language.specs.Sound.{IsSound};
ghost use Rattle.std.specs.List.{All};
ghost use Rattle.std.specs.Str.Lossy.{utf8_valid_len};

use crate::Status;
use crate::halt::{Halt, Stopped};
use crate::lines::{limit_line, line_of, line_refused, named_line, table_refused};
use annotation_language::complete;
use conflict_checker::Derivation;
use derivation_text::{DerivationFault, read};
use line_lexer::{Counted, LineFault};
use outside::{Bytes, FileFault, Shelf, read_file};
use owl_functional::{Ontology, OwlFault, read_ontology};
use project_language::{Project, ProjectFault, ontology_file, read_project, read_project_over};
use source_tables::{Table, TableDecl, TableFault, load};
use std::alloc::{AllocError, Global};
use vocabulary::List;

#[tactic(auto, unfolding(crate::specs::Walk::project_step))]
pub(crate) fn project_read<S: Shelf>(
    alloc: Global,
    shelf: &mut S,
    name: &str,
) -> Result<Project, Halt>
    ensures held { S.held shelf.new ≡ S.held shelf.old }
    ensures told { IfSome (S.held shelf.old) (λ files. Gives (λ p. p) result (project_step files name.now)) }
    ensures sound { IfOk result IsSound }
    ensures usage { IfErr result (λ h. SaysUsage h → ⊥) }
    ensures counts { CountsReading (S.faults shelf.old) (S.faults shelf.new)
        (S.absences shelf.old) (S.absences shelf.new) (S.failed shelf.new) result }
{
    let bytes = read_named(alloc, shelf, name)?;
    let given = given_to(alloc, shelf, bytes.slice())?;
    project_of(alloc, name, bytes.slice(), given)
}

// The ontology that a text names, where it names one.
#[tactic(auto, unfolding(crate::specs::Walk::given_step))]
fn given_to<S: Shelf>(alloc: Global, shelf: &mut S, bytes: &[u8]) -> Result<Option<Ontology>, Halt>
    requires { length bytes.now ≤ limit_of File }
    ensures held { S.held shelf.new ≡ S.held shelf.old }
    ensures told { IfSome (S.held shelf.old) (λ files. Gives (λ given. given) result (given_step files (ontology_file bytes.now))) }
    ensures sound { IfOk result (λ given. IfSome given IsOntology) }
    ensures usage { IfErr result (λ h. SaysUsage h → ⊥) }
    ensures counts { CountsReading (S.faults shelf.old) (S.faults shelf.new)
        (S.absences shelf.old) (S.absences shelf.new) (S.failed shelf.new) result }
{
    let Some(file) = ontology_file(alloc, bytes)? else {
        return Ok(None);
    };
    let text = read_named(alloc, shelf, file.text())?;
    let ontology = ontology_of(alloc, file.text(), text.slice())?;
    Ok(Some(ontology))
}

fn ontology_of(alloc: Global, file: &str, bytes: &[u8]) -> Result<Ontology, Halt>
    requires { length bytes.now ≤ limit_of File }
    ensures told { Gives (λ ontology. ontology) result (ontology_step file.now (read_ontology bytes.now)) }
    ensures sound { IfOk result IsOntology }
    ensures usage { IfErr result (λ h. SaysUsage h → ⊥) }
    ensures local { IfErr result IsLocal }
{
    match read_ontology(alloc, bytes) {
        Ok(ontology) => Ok(ontology),
        Err(OwlFault::NotUtf8(line)) => refuse(line_refused(alloc, file, line, "NotUtf8")?),
        Err(OwlFault::Syntax(line)) => refuse(line_refused(alloc, file, line, "Syntax")?),
        Err(OwlFault::Unsupported(line)) => refuse(line_refused(alloc, file, line, "Unsupported")?),
        Err(OwlFault::BadName(line)) => refuse(line_refused(alloc, file, line, "BadName")?),
        Err(OwlFault::DoubleName(line)) => refuse(line_refused(alloc, file, line, "DoubleName")?),
        Err(OwlFault::Undeclared(line)) => refuse(line_refused(alloc, file, line, "Undeclared")?),
        Err(OwlFault::FunctionalSpecialised(line)) => refuse(line_refused(
            alloc,
            file,
            line,
            "FunctionalSpecialised",
        )?),
        Err(OwlFault::Limit(what)) => passed(alloc, what),
        Err(OwlFault::NoMemory) => Err(Halt::NoMemory),
    }
}

// The project that a text is, over an ontology if there is one.
fn project_in(alloc: Global, bytes: &[u8], given: Option<Ontology>) -> Result<Project, ProjectFault>
    requires short { length bytes.now ≤ limit_of File }
    requires given { IfSome given IsOntology }
    ensures read { IfOk result (λ p. project_of bytes.now given ≡ Ok p) }
    ensures fault { IfErr result (λ e. e ≢ ProjectFault.NoMemory → project_of bytes.now given ≡ Err e) }
    ensures sound { IfOk result IsSound }
{
    match given {
        Some(ontology) => read_project_over(alloc, bytes, ontology),
        None => read_project(alloc, bytes),
    }
}

fn project_of(
    alloc: Global,
    name: &str,
    bytes: &[u8],
    given: Option<Ontology>,
) -> Result<Project, Halt>
    requires short { length bytes.now ≤ limit_of File }
    requires given { IfSome given IsOntology }
    ensures told { Gives (λ p. p) result (read_step name.now (project_of bytes.now given)) }
    ensures sound { IfOk result IsSound }
    ensures usage { IfErr result (λ h. SaysUsage h → ⊥) }
    ensures local { IfErr result IsLocal }
{
    match project_in(alloc, bytes, given) {
        Ok(project) => Ok(project),
        Err(ProjectFault::NotUtf8(line)) => refuse(line_refused(alloc, name, line, "NotUtf8")?),
        Err(ProjectFault::Line(line, fault)) => refuse(line_refused(
            alloc,
            name,
            line,
            fault.kind(),
        )?),
        Err(ProjectFault::Limit(what)) => passed(alloc, what),
        Err(ProjectFault::NoMemory) => Err(Halt::NoMemory),
    }
}

pub(crate) fn refuse<T>(line: Bytes) -> Result<T, Halt>
    ensures { Refuses line result }
{
    Err(Halt::Stopped(Stopped {
        status: Status::Refused,
        line,
    }))
}

fn passed<T>(alloc: Global, what: Counted) -> Result<T, Halt>
    ensures { Passes what result }
{
    Err(Halt::Stopped(Stopped {
        status: Status::Limit,
        line: limit_line(alloc, what)?,
    }))
}

pub(crate) fn completed(alloc: Global, name: &str, project: &Project) -> Result<(), Halt>
    ensures told { Gives (λ done. project.now) result (complete_step name.now project.now) }
    ensures usage { IfErr result (λ h. SaysUsage h → ⊥) }
    ensures local { IfErr result IsLocal }
{
    match complete(project.noted.notes()) {
        Ok(()) => Ok(()),
        Err((line, fault)) => refuse(line_refused(alloc, name, line, fault.kind())?),
    }
}

pub(crate) fn tables_read<S: Shelf>(
    alloc: Global,
    shelf: &mut S,
    decls: &[TableDecl],
) -> Result<List<Table>, Halt>
    requires { All (λ decl. IsWithin 840 decl.offset) decls.now }
    ensures held { S.held shelf.new ≡ S.held shelf.old }
    ensures told { IfSome (S.held shelf.old) (λ files. Gives (λ tables. tables) result (tables_step files 0 decls.now)) }
    ensures usage { IfErr result (λ h. SaysUsage h → ⊥) }
    ensures counts { CountsReading (S.faults shelf.old) (S.faults shelf.new)
        (S.absences shelf.old) (S.absences shelf.new) (S.failed shelf.new) result }
{
    let mut tables = List::new(alloc);
    add_tables(alloc, shelf, 0, decls, &mut tables)?;
    Ok(tables)
}

// Adds the tables, behind some that have so many bytes together.
#[tactic(auto, unfolding(crate::specs::Walk::tables_step))]
fn add_tables<S: Shelf>(
    alloc: Global,
    shelf: &mut S,
    before: u64,
    decls: &[TableDecl],
    tables: &mut List<Table>,
) -> Result<(), Halt>
    requires before { before ≤ limit_of TablesTogether }
    requires offsets { All (λ decl. IsWithin 840 decl.offset) decls.now }
    ensures held { S.held shelf.new ≡ S.held shelf.old }
    ensures told { IfSome (S.held shelf.old) (λ files. Adds tables.old tables.new result (tables_step files before decls.now)) }
    ensures usage { IfErr result (λ h. SaysUsage h → ⊥) }
    ensures counts { CountsReading (S.faults shelf.old) (S.faults shelf.new)
        (S.absences shelf.old) (S.absences shelf.new) (S.failed shelf.new) result }
{
    let [decl, rest @ ..] = decls else {
        return Ok(());
    };
    let (table, total) = table_read(alloc, shelf, before, decl)?;
    tables.push(table)?;
    add_tables(alloc, shelf, total, rest, tables)
}

#[tactic(auto, unfolding(crate::specs::Walk::one_table))]
fn table_read<S: Shelf>(
    alloc: Global,
    shelf: &mut S,
    before: u64,
    decl: &TableDecl,
) -> Result<(Table, u64), Halt>
    requires before { before ≤ limit_of TablesTogether }
    requires offset { IsWithin 840 decl.now.offset }
    ensures held { S.held shelf.new ≡ S.held shelf.old }
    ensures told { IfSome (S.held shelf.old) (λ files. Gives (λ read. read) result (one_table files before decl.now)) }
    ensures within { IfOk result (λ read. read.1 ≤ limit_of TablesTogether) }
    ensures usage { IfErr result (λ h. SaysUsage h → ⊥) }
    ensures counts { CountsReading (S.faults shelf.old) (S.faults shelf.new)
        (S.absences shelf.old) (S.absences shelf.new) (S.failed shelf.new) result }
{
    let bytes = read_named(alloc, shelf, decl.file.text())?;
    let total = together(alloc, before, bytes.len())?;
    let table = loaded(alloc, decl, bytes.slice())?;
    Ok((table, total))
}

fn together(alloc: Global, before: u64, more: usize) -> Result<u64, Halt>
    requires before { before ≤ limit_of TablesTogether }
    requires more { more ≤ limit_of File }
    ensures told { Gives (λ total. total) result (together_step (before + more)) }
    ensures within { IfOk result (λ total. total ≤ limit_of TablesTogether) }
    ensures usage { IfErr result (λ h. SaysUsage h → ⊥) }
    ensures local { IfErr result IsLocal }
{
    let total = before + more as u64;
    if total > Counted::TablesTogether.limit() {
        return passed(alloc, Counted::TablesTogether);
    }
    Ok(total)
}

fn loaded(alloc: Global, decl: &TableDecl, bytes: &[u8]) -> Result<Table, Halt>
    requires { IsWithin 840 decl.now.offset }
    ensures told { Gives (λ table. table) result (table_step decl.now bytes.now) }
    ensures usage { IfErr result (λ h. SaysUsage h → ⊥) }
    ensures local { IfErr result IsLocal }
{
    match load(alloc, decl, bytes) {
        Ok(table) => Ok(table),
        Err(TableFault::NoMemory) => Err(Halt::NoMemory),
        Err(TableFault::TooManyRows) => passed(alloc, Counted::Rows),
        Err(fault) => refuse(table_refused(alloc, decl, fault)?),
    }
}

pub(crate) fn read_named<S: Shelf>(alloc: Global, shelf: &mut S, name: &str) -> Result<Bytes, Halt>
    ensures held { S.held shelf.new ≡ S.held shelf.old }
    ensures bound { IfOk result (λ bytes. length bytes ≤ limit_of File) }
    ensures told { IfSome (S.held shelf.old) (λ files. Gives (λ bytes. bytes) result (file_step files name.now)) }
    ensures usage { IfErr result (λ h. SaysUsage h → ⊥) }
    ensures counts { CountsReading (S.faults shelf.old) (S.faults shelf.new)
        (S.absences shelf.old) (S.absences shelf.new) (S.failed shelf.new) result }
{
    match read_file(alloc, shelf, name, Counted::File.limit()) {
        Ok(bytes) => Ok(bytes),
        Err(FileFault::Absent) => Err(Halt::Stopped(Stopped {
            status: Status::Absent,
            line: named_line(alloc, b"absent: ", name.as_bytes(), b"\n")?,
        })),
        Err(FileFault::Read) => Err(Halt::ReadFault(line_of(alloc, name.as_bytes())?)),
        Err(FileFault::TooLong) => passed(alloc, Counted::File),
        Err(FileFault::NoMemory) => Err(Halt::NoMemory),
    }
}

/// The derivations that the bytes of the named file are, by the names of the project's mappings.
pub(crate) fn spelled_in(
    alloc: Global,
    project: &Project,
    name: &str,
    bytes: &[u8],
) -> Result<List<Derivation>, Halt>
    requires sound { IsSound project.now }
    requires short { length bytes.now ≤ limit_of File }
    ensures told { Gives (λ ds. ds) result (spell_step project.now name.now bytes.now) }
    ensures usage { IfErr result (λ h. SaysUsage h → ⊥) }
    ensures local { IfErr result IsLocal }
{
    match str::from_utf8(bytes) {
        Ok(text) => spelled(alloc, project, name, text),
        Err(e) => {
            let line = bad_line(bytes, e.valid_up_to());
            refuse(line_refused(alloc, name, line, "NotUtf8")?)
        }
    }
}

fn spelled(
    alloc: Global,
    project: &Project,
    name: &str,
    text: &str,
) -> Result<List<Derivation>, Halt>
    requires sound { IsSound project.now }
    requires short { length text.now ≤ limit_of File }
    ensures told { Gives (λ ds. ds) result (spelled_step name.now (derivations_of (mapping_names project.now) text.now)) }
    ensures usage { IfErr result (λ h. SaysUsage h → ⊥) }
    ensures local { IfErr result IsLocal }
{
    match read(alloc, text, project.sources.mappings()) {
        Ok(derivations) => Ok(derivations),
        Err(DerivationFault::Syntax(line)) => refuse(line_refused(alloc, name, line, "Syntax")?),
        Err(DerivationFault::Unknown(line)) => refuse(line_refused(alloc, name, line, "Unknown")?),
        Err(DerivationFault::BadStep(line)) => refuse(line_refused(alloc, name, line, "BadStep")?),
        Err(DerivationFault::TooLong) => passed(alloc, Counted::Steps),
        Err(DerivationFault::NoMemory) => Err(Halt::NoMemory),
    }
}

// The line of the byte at this place.
fn bad_line(bytes: &[u8], at: usize) -> u32
    requires short { length bytes.now ≤ limit_of File }
    requires place { at ≡ utf8_valid_len bytes.now }
    requires within { at ≤ length bytes.now }
    ensures { result ≡ bad_line bytes.now }
{
    let feeds = bytes[..at].iter().filter(|b| **b == b'\n').count();
    feeds as u32 + 1
}
