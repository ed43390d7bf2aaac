//! Derivations and their texts.
ghost use Rattle.std.specs.Prelude.{◌≡◌, ◌≤◌, ◌∷◌, [], codes, length, map, IfOk};
ghost use Rattle.line_lexer.specs.Names.{AreNames};
ghost use Rattle.derivation_text.specs.Spelling.{AreWellFormed};

use conflict_checker::Derivation;
use derivation_text::{read, write};
use mapping_facts::{Mapping, SourceQuery};
use std::alloc::{AllocError, Global};
use std::test::Fail;
use vocabulary::{List, Name};

// Texts that are read, and written again as they were.
const WRITTEN: &str = "conflict 1
1 map m 1 rows 1
2 rule 3 from 1
3 rule 2 from 2
4 rule 4 from 3
clash 3 4
end

conflict 2
1 map m 1 rows 1 7
clash 1 1
conflict 4
1 map m 2 rows 3
2 rule 1 from 1
clash 1 2 2 1
end";

// Texts, and their first faults.
const FAULTS: &str = "conflict 1
1 map m 1 rows 1
2 rule 1 from 0
=> BadStep(3)

conflict 1
1 map \"m\" 1 rows 1
=> Syntax(2)

conflict 1
1 map k 1 rows 1
=> Unknown(2)

conflict 1
1 map m 1 rows 1
clash 1 1
=> Syntax(4)";

// A mapping of the name m.
fn one(alloc: Global) -> Result<Mapping, AllocError>
    ensures { IfOk result (λ m. m.name ≡ codes "m") }
{
    let name = Name::new(alloc, "m")?;
    Ok(Mapping {
        name,
        query: SourceQuery {
            tables: List::new(alloc),
            conditions: List::new(alloc),
        },
        targets: List::new(alloc),
    })
}

fn named(alloc: Global) -> Result<Vec<Mapping>, AllocError>
    ensures { IfOk result (λ v. map (λ m. m.name) v.items ≡ codes "m" ∷ []) }
{
    let mut mappings = Vec::new(alloc);
    mappings.push(one(alloc)?)?;
    Ok(mappings)
}

fn is_text(
    alloc: Global,
    list: &[Derivation],
    mappings: &[Mapping],
    want: &str,
) -> Result<bool, AllocError>
    requires names { map (λ m. m.name) mappings.now ≡ codes "m" ∷ [] }
    requires some { 1 ≤ length list.now }
    requires well_formed { AreWellFormed (length mappings.now) list.now }
{
    let text = write(alloc, list, mappings)?;
    Ok(text.text().strip_suffix('\n') == Some(want))
}

fn is_written_again(alloc: Global, mappings: &[Mapping], case: &str) -> Result<bool, AllocError>
    requires { map (λ m. m.name) mappings.now ≡ codes "m" ∷ [] }
{
    if case.len() > 999 || mappings.len() > 99 {
        return Ok(false);
    }
    match read(alloc, case, mappings) {
        Ok(list) => is_text(alloc, list.items(), mappings, case),
        Err(_) => Ok(false),
    }
}

#[test]
fn texts_are_written_again(rt: HostRuntime) -> Result<(), Fail> {
    let mappings = named(rt.alloc())?;
    for case in WRITTEN.split("\n\n") {
        assert!(rt;
            is_written_again(rt.alloc(), mappings.as_slice(), case)?,
            "{case}"
        );
    }
    Ok(())
}

fn is_fault(
    alloc: Global,
    mappings: &[Mapping],
    text: &str,
    want: &str,
) -> Result<bool, AllocError> {
    if text.len() > 999_999 || mappings.len() > 99 {
        return Ok(false);
    }
    match read(alloc, text, mappings) {
        Ok(_) => Ok(false),
        Err(fault) => Ok(format!(in alloc; "{fault:?}")?.as_str() == want),
    }
}

fn is_refused(alloc: Global, mappings: &[Mapping], case: &str) -> Result<bool, AllocError> {
    match case.split_once("\n=> ") {
        Some((text, want)) => is_fault(alloc, mappings, text, want),
        None => Ok(false),
    }
}

#[test]
fn faults_have_their_lines(rt: HostRuntime) -> Result<(), Fail> {
    let mappings = named(rt.alloc())?;
    for case in FAULTS.split("\n\n") {
        assert!(rt;
            is_refused(rt.alloc(), mappings.as_slice(), case)?,
            "{case}"
        );
    }
    Ok(())
}

fn long_text(alloc: Global, steps: u32) -> Result<String, AllocError> {
    let mut text = String::new(alloc);
    text.push_str("conflict 1\n")?;
    for before in 0..steps {
        let step = before + 1;
        text.push_str(format!(in alloc; "{step} map m 1 rows 1\n")?.as_str())?;
    }
    Ok(text)
}

fn has_fault(
    alloc: Global,
    mappings: &[Mapping],
    steps: u32,
    want: &str,
) -> Result<bool, AllocError> {
    let text = long_text(alloc, steps)?;
    is_fault(alloc, mappings, text.as_str(), want)
}

// One step fewer is not too long: only the end is missing.
#[test]
fn steps_are_limited(rt: HostRuntime) -> Result<(), Fail> {
    let mappings = named(rt.alloc())?;
    for (steps, want) in [(8_000, "Syntax(8002)"), (8_001, "TooLong")] {
        assert!(rt;
            has_fault(rt.alloc(), mappings.as_slice(), steps, want)?,
            "{steps}"
        );
    }
    Ok(())
}
