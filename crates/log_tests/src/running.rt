//! The top call over files and sinks in memory. The texts are those of the first example.
use crate::cases::{shelf_of, words_of};
use onprom_core::{Status, run};
use outside::{MemoryShelf, MemorySink, Shelf, Sink, SureShelf, SureSink};
use std::alloc::{AllocError, Global};
use std::test::Fail;

const PROJECT: &str = "onprom 1
table doc \"doc.csv\"
column doc id text
column doc made time
class Doc
attr Doc made time *
map m from doc a then Doc(iri \"http://e/{a.id}\"), made(iri \"http://e/{a.id}\", a.made)
case v where Doc(v)
event create v where Doc(v)
cases create (v, v) where Doc(v)
set create \"concept:name\" mandatory is text \"create\"
set create \"time:timestamp\" mandatory (v, w) where made(v, w)
";

const TABLE: &str = "id,made\nb,2024-01-02T03:04:05.006+00:00\na,\n";

const TABLE_OF_TWO_TIMES: &str =
    "id,made\nb,2024-01-02T03:04:05.006+00:00\na,\nb,2024-01-03T00:00:00.000+00:00\n";

const FRONT: &str = "<?xml version=\"1.0\" encoding=\"UTF-8\"?>
<log xes.version=\"1849.2016\" xes.features=\"\">
  <extension name=\"Concept\" prefix=\"concept\" uri=\"http://www.xes-standard.org/concept.xesext\"/>
  <extension name=\"Time\" prefix=\"time\" uri=\"http://www.xes-standard.org/time.xesext\"/>
  <extension name=\"Organizational\" prefix=\"org\" uri=\"http://www.xes-standard.org/org.xesext\"/>
  <extension name=\"Lifecycle\" prefix=\"lifecycle\" uri=\"http://www.xes-standard.org/lifecycle.xesext\"/>
  <trace>
    <string key=\"object\" value=\"http://e/a\"/>
    <string key=\"concept:name\" value=\"http://e/a\"/>
  </trace>
  <trace>
    <string key=\"object\" value=\"http://e/b\"/>
    <string key=\"concept:name\" value=\"http://e/b\"/>
";

const EVENT: &str = "    <event>
      <string key=\"object\" value=\"http://e/b\"/>
      <string key=\"concept:name\" value=\"create\"/>
      <date key=\"time:timestamp\" value=\"2024-01-02T03:04:05.006+00:00\"/>
    </event>
";

const BACK: &str = "  </trace>\n</log>\n";

const USAGE: &str =
    "usage: extract P | check P | verify P D | answer P Q | rewrite P Q | make N F | why P Q N | lint P | contained P Q Q\n";

// Whether the command ends so over the shelf, with this text and this report.
fn ends<S: Shelf>(
    alloc: Global,
    shelf: &mut S,
    words: &str,
    status: Status,
    text: &str,
    line: &str,
) -> Result<bool, AllocError> {
    let words = words_of(alloc, words)?;
    let mut out = SureSink::new(alloc);
    let mut report = SureSink::new(alloc);
    let ended = run(alloc, &words, shelf, &mut out, &mut report);
    Ok(ended == status && out.written() == text.as_bytes() && report.written() == line.as_bytes())
}

// The same over files.
fn ends_over(
    alloc: Global,
    files: &[(&str, &str)],
    words: &str,
    status: Status,
    text: &str,
    line: &str,
) -> Result<bool, AllocError> {
    let mut shelf = shelf_of(alloc, "", files)?;
    ends(alloc, &mut shelf, words, status, text, line)
}

fn writes_first_log(
    alloc: Global,
    table: &str,
    event: &str,
    report: &str,
) -> Result<bool, AllocError> {
    let text = format!(in alloc; "{FRONT}{event}{BACK}")?;
    let files = [("p1.txt", PROJECT), ("doc.csv", table)];
    ends_over(
        alloc,
        &files,
        "extract p1.txt",
        Status::Done,
        text.as_str(),
        report,
    )
}

#[test]
fn writes_the_log_of_the_first_example(rt: HostRuntime) -> Result<(), Fail> {
    let report =
        "traces 2 events 1 left out 1\nleft out: create <http://e/a>: none time:timestamp\n";
    assert!(rt; writes_first_log(rt.alloc(), TABLE, EVENT, report)?);
    Ok(())
}

#[test]
fn leaves_out_an_object_of_two_times(rt: HostRuntime) -> Result<(), Fail> {
    let report = "traces 2 events 0 left out 2
left out: create <http://e/a>: none time:timestamp
left out: create <http://e/b>: several time:timestamp
";
    assert!(rt; writes_first_log(rt.alloc(), TABLE_OF_TWO_TIMES, "", report)?);
    Ok(())
}

fn refuses(alloc: Global, files: &[(&str, &str)], line: &str) -> Result<bool, AllocError> {
    ends_over(alloc, files, "extract p", Status::Refused, "", line)
}

#[test]
fn refuses_with_the_first_fault_of_the_project(rt: HostRuntime) -> Result<(), Fail> {
    let cases = [
        ("", "refused: p line 1: Syntax\n"),
        ("# none\n\nclass A\n", "refused: p line 3: Syntax\n"),
        (
            "onprom 1\r\nclass A\r\nclass A",
            "refused: p line 3: Double\n",
        ),
        (
            "onprom 1\ncolumn t c text\n",
            "refused: p line 2: Unknown\n",
        ),
        (
            "onprom 1\nclass A\nattr A u int *\nidentify A (u, u)\n",
            "refused: p line 4: TypeMismatch\n",
        ),
        ("onprom 1\nclass A\n", "refused: p line 0: NoCase\n"),
        (
            "onprom 1\nclass A\ncase v where A(v)\nevent e v where A(v)\n",
            "refused: p line 4: NoCases\n",
        ),
    ];
    for (project, line) in cases {
        assert!(rt; refuses(rt.alloc(), &[("p", project)], line)?, "{line}");
    }
    Ok(())
}

fn refuses_table<'a>(
    alloc: Global,
    project: &'a str,
    table: &'a str,
    line: &str,
) -> Result<bool, AllocError> {
    refuses(alloc, &[("p", project), ("doc.csv", table)], line)
}

#[test]
fn refuses_with_the_first_fault_of_a_table(rt: HostRuntime) -> Result<(), Fail> {
    let cases = [
        ("", "refused: doc.csv column id: Header\n"),
        ("id,made\na,\nb\n", "refused: doc.csv row 2: Width\n"),
        (
            "id,made\nb,soon\n",
            "refused: doc.csv row 1 column made: BadCell\n",
        ),
        ("made,id\n,\n", "refused: doc.csv row 1: NullKey\n"),
        (
            "id,made\na,\nb,\na,\n",
            "refused: doc.csv rows 1 3: DoubleKey\n",
        ),
    ];
    let project = format!(in rt.alloc(); "{PROJECT}key doc (id)\n")?;
    for (table, line) in cases {
        assert!(rt;
            refuses_table(rt.alloc(), project.as_str(), table, line)?,
            "{line}"
        );
    }
    Ok(())
}

// A project that is not there.
const ABSENT: &str = "extract q
check q
verify q p
answer q case
rewrite q case
why q case 1";

// A project whose table is not there.
const WITHOUT_TABLE: &str = "extract p
check p
verify p q
answer p case
answer p create
why p case 1";

// Words that are in no line of the table; the first are none.
const NO_COMMANDS: &str = "
extract
extract p q
Extract p
check
check p q
verify p
verify p q r
answer p
answer p case case
rewrite p
make
make 5
make 0 doc.csv
make 007 doc.csv
make +5 doc.csv
make 5 x
make 5 Summary
make 5.0 summary
make 100001 doc.csv
make 18446744073709551617 doc.csv
make doc.csv 5
make 5 doc.csv x
why p case
why p case one
help
p";

// The project alone is on the shelf.
fn ends_early(alloc: Global, words: &str, status: Status, line: &str) -> Result<bool, AllocError> {
    ends_over(alloc, &[("p", PROJECT)], words, status, "", line)
}

#[test]
fn names_what_is_absent_and_what_is_no_command(rt: HostRuntime) -> Result<(), Fail> {
    for words in ABSENT.lines() {
        assert!(rt;
            ends_early(rt.alloc(), words, Status::Absent, "absent: q\n")?,
            "{words}"
        );
    }
    for words in WITHOUT_TABLE.lines() {
        assert!(rt;
            ends_early(rt.alloc(), words, Status::Absent, "absent: doc.csv\n")?,
            "{words}"
        );
    }
    for words in NO_COMMANDS.lines() {
        assert!(rt;
            ends_early(rt.alloc(), words, Status::Usage, USAGE)?,
            "{words}"
        );
    }
    Ok(())
}

fn failing_shelf(alloc: Global, call: u64) -> Result<MemoryShelf, AllocError> {
    let mut shelf = MemoryShelf::new(alloc);
    shelf.fail_at(call)?;
    for (name, text) in [("p1.txt", PROJECT), ("doc.csv", TABLE)] {
        if !shelf.holds(name) {
            shelf.add_file(name, text.as_bytes())?;
        }
    }
    Ok(shelf)
}

fn names_failed_read(alloc: Global, call: u64, line: &str) -> Result<bool, AllocError> {
    let mut shelf = failing_shelf(alloc, call)?;
    ends(
        alloc,
        &mut shelf,
        "extract p1.txt",
        Status::ReadFault,
        "",
        line,
    )
}

#[test]
fn names_the_file_whose_reading_failed(rt: HostRuntime) -> Result<(), Fail> {
    // A file is begun, read, and read once more to see its end.
    for (call, line) in [
        (1, "read fault: p1.txt\n"),
        (2, "read fault: p1.txt\n"),
        (4, "read fault: doc.csv\n"),
        (5, "read fault: doc.csv\n"),
    ] {
        assert!(rt; names_failed_read(rt.alloc(), call, line)?, "{call}");
    }
    Ok(())
}

// A sink that takes so many bytes at once and fails at this call.
fn failing_sink(alloc: Global, most: usize, call: u64) -> Result<MemorySink, AllocError> {
    let mut sink = MemorySink::new(alloc, most);
    sink.fail_at(call)?;
    Ok(sink)
}

fn leaves_front_of_text(alloc: Global) -> Result<bool, AllocError> {
    let words = words_of(alloc, "extract p1.txt")?;
    let mut shelf = shelf_of(alloc, "", &[("p1.txt", PROJECT), ("doc.csv", TABLE)])?;
    let mut out = failing_sink(alloc, 64, 2)?;
    let mut report = failing_sink(alloc, 64, 9)?;
    let ended = run(alloc, &words, &mut shelf, &mut out, &mut report);
    Ok(
        ended == Status::WriteFault
            && FRONT.as_bytes().starts_with(out.written())
            && out.written().len() == 64
            && report.written().len() == 0,
    )
}

#[test]
fn leaves_a_front_where_a_write_failed(rt: HostRuntime) -> Result<(), Fail> {
    assert!(rt; leaves_front_of_text(rt.alloc())?);
    Ok(())
}

fn leaves_front_of_report(alloc: Global) -> Result<bool, AllocError> {
    let words = words_of(alloc, "check")?;
    let mut shelf = SureShelf::new(alloc);
    let mut out = SureSink::new(alloc);
    let mut report = failing_sink(alloc, 64, 2)?;
    let ended = run(alloc, &words, &mut shelf, &mut out, &mut report);
    Ok(ended == Status::ReportFault && report.written().len() == 64)
}

#[test]
fn leaves_a_front_where_a_report_failed(rt: HostRuntime) -> Result<(), Fail> {
    assert!(rt; leaves_front_of_report(rt.alloc())?);
    Ok(())
}

const CONTRADICTED: &str = "onprom 1
table t \"t.csv\"
column t a text
class A
disjoint A A
map m from t x then A(iri \"http://e/{x.a}\")
";

// Whether the text is derivations, or where it is cut has so many bytes.
fn is_written(text: &[u8], cut: Option<usize>) -> bool {
    match cut {
        Some(len) => text.len() == len && b"conflict 1\n1 map".starts_with(text),
        None => text.starts_with(b"conflict 1\n") && text.ends_with(b"\nend\n"),
    }
}

// A run of `check` over one contradiction, whose text fails at one call and whose report at another.
fn checks_to(
    alloc: Global,
    calls: (u64, u64),
    status: Status,
    cut: Option<usize>,
    line: &str,
) -> Result<bool, AllocError> {
    let words = words_of(alloc, "check p")?;
    let mut shelf = shelf_of(alloc, "", &[("p", CONTRADICTED), ("t.csv", "a\n1\n")])?;
    let mut out = failing_sink(alloc, 16, calls.0)?;
    let mut report = failing_sink(alloc, 8, calls.1)?;
    let ended = run(alloc, &words, &mut shelf, &mut out, &mut report);
    Ok(ended == status && is_written(out.written(), cut) && report.written() == line.as_bytes())
}

#[test]
fn a_conflict_is_written_and_then_reported(rt: HostRuntime) -> Result<(), Fail> {
    for (out, report, status, cut, line) in [
        (99, 99, Status::Conflict, None, "contradicted 1\n"),
        (1, 1, Status::WriteFault, Some(0), ""),
        (2, 99, Status::WriteFault, Some(16), ""),
        (99, 1, Status::ReportFault, None, ""),
        (99, 2, Status::ReportFault, None, "contradi"),
    ] {
        assert!(rt;
            checks_to(rt.alloc(), (out, report), status, cut, line)?,
            "{out} {report}"
        );
    }
    Ok(())
}

#[test]
fn codes_are_in_order(rt: HostRuntime) {
    for (status, code) in [
        (Status::Done, 0),
        (Status::Usage, 2),
        (Status::NotAccepted, 10),
    ] {
        assert!(rt; status.code() == code);
    }
}
