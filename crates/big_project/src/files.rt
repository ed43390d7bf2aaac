//! The files by their names.
ghost use Rattle.std.specs.Prelude.{◌≡◌, IfOk};
ghost use Rattle.big_project.specs.Files.{file_of, made_files};

use crate::{doc_text, project_text, step_text};
use outside::SureShelf;
use std::alloc::{AllocError, Global};
use vocabulary::List;

/// The file of this name in the project of so many documents, in time linear in its length.
pub fn file(alloc: Global, docs: u32, name: &str) -> Result<Option<List<u8>>, AllocError>
    ensures { IfOk result (λ made. made ≡ file_of docs name.now) }
{
    if name == "project.txt" {
        let mut text = Vec::new(alloc);
        text.extend_from_slice(project_text().as_bytes())?;
        return Ok(Some(List::from_vec(text)));
    }
    if name == "doc.csv" {
        return Ok(Some(doc_text(alloc, docs)?));
    }
    if name == "step.csv" {
        return Ok(Some(step_text(alloc, docs)?));
    }
    Ok(None)
}

/// All three files, in memory.
pub fn shelf(alloc: Global, docs: u32) -> Result<SureShelf, AllocError>
    ensures { IfOk result (λ shelf. shelf.opened.files ≡ made_files docs) }
{
    let mut shelf = SureShelf::new(alloc);
    shelf.add_file("project.txt", project_text().as_bytes())?;
    let table = doc_text(alloc, docs)?;
    shelf.add_file("doc.csv", table.items())?;
    let table = step_text(alloc, docs)?;
    shelf.add_file("step.csv", table.items())?;
    Ok(shelf)
}
