//! The made project, as `make` writes it and as it is extracted.
use crate::cases::{shelf_of, tells, tells_over, words_of};
use big_project::project_text;
use onprom_core::{Status, run};
use outside::{SureShelf, SureSink};
use std::alloc::{AllocError, Global};
use std::test::Fail;

// What `make` writes; the file of the last word is the text.
const FILES: &str = "make 3 doc.csv
id,made
1,2024-01-02T01:00
2,2024-01-03T02:00
3,2024-01-04T03:00
~
make 3 step.csv
id,doc,done
1,2,2024-02-02T01:00
2,3,2024-02-03T02:00
3,1,2024-02-04T03:00
4,2,2024-02-05T04:00
5,3,
6,1,2024-02-07T06:00
~
make 1 doc.csv
id,made
1,2024-01-02T01:00
~
make 1 step.csv
id,doc,done
1,1,2024-02-02T01:00
2,1,2024-02-03T02:00
~
make 1 summary
traces 1 events 3 left out 0
~
make 3 summary
traces 3 events 8 left out 1
~
make 10 summary
traces 10 events 25 left out 5
~
make 1000 summary
traces 1000 events 2500 left out 500";

fn is_made(alloc: Global, case: &str) -> Result<bool, AllocError> {
    match case.split_once('\n') {
        Some((words, text)) => {
            let want = format!(in alloc; "0\n{text}\n--")?;
            tells_over(alloc, &[], words, want.as_str())
        }
        None => Ok(false),
    }
}

#[test]
fn files_are_made(rt: HostRuntime) -> Result<(), Fail> {
    for case in FILES.split("\n~\n") {
        assert!(rt; is_made(rt.alloc(), case)?, "{case}");
    }
    Ok(())
}

fn is_made_project(alloc: Global, words: &str) -> Result<bool, AllocError> {
    let project = project_text();
    let want = format!(in alloc; "0\n{project}--")?;
    tells_over(alloc, &[], words, want.as_str())
}

#[test]
fn one_project_is_made(rt: HostRuntime) -> Result<(), Fail> {
    for words in [
        "make 1 project.txt",
        "make 99 project.txt",
        "make 100000 project.txt",
    ] {
        assert!(rt; is_made_project(rt.alloc(), words)?, "{words}");
    }
    Ok(())
}

// The tables of three documents, by hand.
fn shelf_of_three(alloc: Global) -> Result<SureShelf, AllocError> {
    let mut cases = FILES.split("\n~\n");
    let docs = cases
        .next()
        .unwrap_or("")
        .split_once('\n')
        .unwrap_or(("", ""));
    let steps = cases
        .next()
        .unwrap_or("")
        .split_once('\n')
        .unwrap_or(("", ""));
    let files = [
        ("project.txt", project_text()),
        ("doc.csv", docs.1),
        ("step.csv", steps.1),
    ];
    shelf_of(alloc, "", &files)
}

const REPORT: &str = "traces 3 events 8 left out 1
left out: work <http://big.org/step/5>: none time:timestamp
";

fn is_extracted(alloc: Global) -> Result<bool, AllocError> {
    let words = words_of(alloc, "extract project.txt")?;
    let mut shelf = shelf_of_three(alloc)?;
    let mut out = SureSink::new(alloc);
    let mut report = SureSink::new(alloc);
    let status = run(alloc, &words, &mut shelf, &mut out, &mut report);
    Ok(status == Status::Done && report.written() == REPORT.as_bytes())
}

fn is_consistent(alloc: Global) -> Result<bool, AllocError> {
    let mut shelf = shelf_of_three(alloc)?;
    tells(alloc, &mut shelf, "check project.txt", "0\n--\nconsistent")
}

#[test]
fn what_is_made_is_a_project(rt: HostRuntime) -> Result<(), Fail> {
    assert!(rt; is_extracted(rt.alloc())?);
    assert!(rt; is_consistent(rt.alloc())?);
    Ok(())
}
