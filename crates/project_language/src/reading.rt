//! Reading a project text.
ghost use Rattle.std.specs.Prelude.{◌≡◌, ◌≢◌, ◌<◌, ◌≤◌, ◌^◌, ◌-◌, ◌+◌, length, IfOk, IfErr, Ok, Err};
ghost use Rattle.std.specs.Str.Lossy.{utf8_valid_len};
ghost use Rattle.line_lexer.specs.Lines.{lines_of};
ghost use Rattle.project_language.specs.Sound.{IsSound};
ghost use Rattle.owl_functional.specs.Sound.{IsOntology};
ghost use Rattle.project_language.specs.Project.{bad_line, name_text, ontology_file, open_counted, open_lines, open_text, read_lines, read_project, read_project_over};

use crate::line::opening;
use crate::naming::name_lines;
use crate::{Project, ProjectFault};
use line_lexer::{Counted, LineFault, Lines};
use owl_functional::Ontology;
use std::alloc::{AllocError, Global};
use vocabulary::Name;

/// The project that the bytes are. Limits and want of memory come as such and not as faults of a line.
#[tactic(auto, unfolding(crate::specs::Project::read_project))]
pub fn read_project(alloc: Global, bytes: &[u8]) -> Result<Project, ProjectFault>
    requires { length bytes.now < 2 ^ 32 - 1 }
    ensures read { IfOk result (λ p. read_project bytes.now ≡ Ok p) }
    ensures fault { IfErr result (λ e. e ≢ ProjectFault.NoMemory → read_project bytes.now ≡ Err e) }
    ensures sound { IfOk result IsSound }
{
    let lines = open_text(alloc, bytes)?;
    read_lines(alloc, lines, Project::new(alloc))
}

/// The file of the line `ontology "FILE"`, where it is the second line with tokens and the bytes are UTF-8 in few enough
/// lines. The project is then to be read over the ontology of that file.
pub fn ontology_file(alloc: Global, bytes: &[u8]) -> Result<Option<Name>, AllocError>
    requires { length bytes.now < 2 ^ 32 - 1 }
    ensures { IfOk result (λ file. file ≡ ontology_file bytes.now) }
{
    match name_text(alloc, bytes) {
        Ok((file, _)) => Ok(Some(Name::new(alloc, file)?)),
        Err(ProjectFault::NoMemory) => Err(AllocError),
        Err(_) => Ok(None),
    }
}

/// The project that the bytes are over the ontology that they name.
#[tactic(auto, unfolding(crate::specs::Project::read_project_over))]
pub fn read_project_over(
    alloc: Global,
    bytes: &[u8],
    ontology: Ontology,
) -> Result<Project, ProjectFault>
    requires short { length bytes.now < 2 ^ 32 - 1 }
    requires ontology { IsOntology ontology }
    ensures read { IfOk result (λ p. read_project_over bytes.now ontology ≡ Ok p) }
    ensures fault { IfErr result (λ e. e ≢ ProjectFault.NoMemory → read_project_over bytes.now ontology ≡ Err e) }
    ensures sound { IfOk result IsSound }
{
    let (_, lines) = name_text(alloc, bytes)?;
    let project = Project::over(alloc, ontology)?;
    read_lines(alloc, lines, project)
}

// The file of the line `ontology "FILE"`, and what is left behind that line.
#[tactic(auto, unfolding(crate::specs::Project::name_text))]
fn name_text<'a>(alloc: Global, bytes: &'a [u8]) -> Result<(&'a str, Lines<'a>), ProjectFault>
    requires { length bytes.now < 2 ^ 32 - 1 }
    ensures named { IfOk result (λ found. name_text bytes.now ≡ Ok (found.0.now, found.1)) }
    ensures fault { IfErr result (λ e. e ≢ ProjectFault.NoMemory → name_text bytes.now ≡ Err e) }
{
    let lines = open_text(alloc, bytes)?;
    name_lines(alloc, lines)
}

// The lines behind `onprom 1`.
fn open_text<'a>(alloc: Global, bytes: &'a [u8]) -> Result<Lines<'a>, ProjectFault>
    requires { length bytes.now < 2 ^ 32 - 1 }
    ensures opened { IfOk result (λ lines. open_text bytes.now ≡ Ok lines) }
    ensures fault { IfErr result (λ e. e ≢ ProjectFault.NoMemory → open_text bytes.now ≡ Err e) }
{
    match str::from_utf8(bytes) {
        Ok(text) => open_counted(alloc, text),
        Err(e) => Err(ProjectFault::NotUtf8(bad_line(bytes, e.valid_up_to()))),
    }
}

fn open_counted<'a>(alloc: Global, text: &'a str) -> Result<Lines<'a>, ProjectFault>
    requires { length text.now < 2 ^ 32 - 1 }
    ensures opened { IfOk result (λ lines. open_counted (lines_of text.now) ≡ Ok lines) }
    ensures fault { IfErr result (λ e. e ≢ ProjectFault.NoMemory → open_counted (lines_of text.now) ≡ Err e) }
{
    if Counted::Lines.is_passed_by(count_lines(text)) {
        return Err(ProjectFault::Limit(Counted::Lines));
    }
    open_lines(alloc, text)
}

#[tactic(auto, using(crate::proofs::Next::next_line, crate::proofs::Next::no_line))]
fn count_lines(text: &str) -> u32
    requires { length text.now < 2 ^ 32 - 1 }
    ensures { result ≡ length (lines_of text.now) }
{
    let mut lines = Lines::new(text);
    let mut count = 0;
    while let Some(line) = lines.next() {
        count = line.number;
    }
    count
}

// Passes over the lines up to `onprom 1`.
fn open_lines<'a>(alloc: Global, text: &'a str) -> Result<Lines<'a>, ProjectFault>
    requires { length text.now < 2 ^ 32 - 1 }
    ensures opened { IfOk result (λ lines. open_lines 1 (lines_of text.now) ≡ Ok lines) }
    ensures fault { IfErr result (λ e. e ≢ ProjectFault.NoMemory → open_lines 1 (lines_of text.now) ≡ Err e) }
{
    let mut lines = Lines::new(text);
    while let Some(line) = lines.next() {
        match opening(alloc, &line) {
            Ok(false) => {}
            Ok(true) => return Ok(lines),
            Err(fault) => return Err(ProjectFault::of_line(line.number, fault)),
        }
    }
    Err(ProjectFault::Line(1, LineFault::Syntax))
}

// Reads the lines that are still to come, behind what was read before.
fn read_lines(alloc: Global, lines: Lines<'_>, begun: Project) -> Result<Project, ProjectFault>
    requires { IsSound begun }
    ensures read { IfOk result (λ p. read_lines (lines.entry.number + 1) begun lines.entry.lines ≡ Ok p) }
    ensures fault { IfErr result (λ e. e ≢ ProjectFault.NoMemory → read_lines (lines.entry.number + 1) begun lines.entry.lines ≡ Err e) }
    ensures sound { IfOk result IsSound }
{
    let mut lines = lines;
    let mut project = begun;
    while let Some(line) = lines.next() {
        match project.read_line(alloc, &line) {
            Ok(()) => {}
            Err(fault) => return Err(ProjectFault::of_line(line.number, fault)),
        }
    }
    Ok(project)
}

// The number of the line in which the byte at this place stands.
fn bad_line(bytes: &[u8], at: usize) -> u32
    requires short { length bytes.now < 2 ^ 32 - 1 }
    requires place { at ≡ utf8_valid_len bytes.now }
    requires within { at ≤ length bytes.now }
    ensures { result ≡ bad_line bytes.now }
{
    let feeds = bytes[..at].iter().filter(|b| **b == b'\n').count();
    feeds as u32 + 1
}
