//! The files of a made project of three documents.
use big_project::{doc_text, file, first_line, project_text, shelf, step_text};
use outside::{Bytes, FileFault, SureShelf, read_file};
use std::alloc::{AllocError, Global};
use std::test::Fail;
use vocabulary::List;

const DOCS: &str = "id,made
1,2024-01-02T01:00
2,2024-01-03T02:00
3,2024-01-04T03:00
";

const STEPS: &str = "id,doc,done
1,2,2024-02-02T01:00
2,3,2024-02-03T02:00
3,1,2024-02-04T03:00
4,2,2024-02-05T04:00
5,3,
6,1,2024-02-07T06:00
";

// The text of each file.
fn text_of(name: &str) -> Option<&str> {
    match name {
        "project.txt" => Some(project_text()),
        "doc.csv" => Some(DOCS),
        "step.csv" => Some(STEPS),
        _ => None,
    }
}

fn is_text(found: &Option<List<u8>>, want: Option<&str>) -> bool {
    match (found, want) {
        (Some(found), Some(want)) => found.items() == want.as_bytes(),
        (None, None) => true,
        _ => false,
    }
}

fn is_file(alloc: Global, name: &str) -> Result<bool, AllocError> {
    let found = file(alloc, 3, name)?;
    Ok(is_text(&found, text_of(name)))
}

#[test]
fn files_are_made_by_their_names(rt: HostRuntime) -> Result<(), Fail> {
    for name in ["project.txt", "doc.csv", "step.csv", "steps.csv"] {
        assert!(rt; is_file(rt.alloc(), name)?, "{name}");
    }
    Ok(())
}

fn are_docs(alloc: Global) -> Result<bool, AllocError> {
    let text = doc_text(alloc, 3)?;
    Ok(text.items() == DOCS.as_bytes())
}

fn are_steps(alloc: Global) -> Result<bool, AllocError> {
    let text = step_text(alloc, 3)?;
    Ok(text.items() == STEPS.as_bytes())
}

#[test]
fn tables_are_made(rt: HostRuntime) -> Result<(), Fail> {
    assert!(rt; are_docs(rt.alloc())?);
    assert!(rt; are_steps(rt.alloc())?);
    Ok(())
}

fn is_answer(answer: &Result<Bytes, FileFault>, want: Option<&str>) -> bool {
    match (answer, want) {
        (Ok(bytes), Some(want)) => bytes.slice() == want.as_bytes(),
        (Err(fault), None) => *fault == FileFault::Absent,
        _ => false,
    }
}

fn is_on(alloc: Global, shelf: &mut SureShelf, name: &str) -> bool {
    let answer = read_file(alloc, shelf, name, 9_999);
    is_answer(&answer, text_of(name))
}

#[test]
fn the_shelf_has_the_files(rt: HostRuntime) -> Result<(), Fail> {
    let mut shelf = shelf(rt.alloc(), 3)?;
    for name in ["project.txt", "doc.csv", "step.csv", "steps.csv"] {
        assert!(rt; is_on(rt.alloc(), &mut shelf, name), "{name}");
    }
    Ok(())
}

fn is_first_line(alloc: Global, text: &str, want: &str) -> Result<bool, AllocError> {
    let line = first_line(alloc, text.as_bytes())?;
    Ok(line.items() == want.as_bytes())
}

#[test]
fn the_first_line_has_an_end(rt: HostRuntime) -> Result<(), Fail> {
    for (text, want) in [("traces 3\nmore\n", "traces 3\n"), ("x", "x\n"), ("", "\n")] {
        assert!(rt; is_first_line(rt.alloc(), text, want)?, "{text}");
    }
    Ok(())
}
