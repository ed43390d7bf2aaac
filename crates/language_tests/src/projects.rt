//! Whole texts that are projects, and the first faults of others.
ghost use Rattle.std.specs.Prelude.{◌<◌, ◌^◌, ◌-◌, length};

use crate::cases::is_shown;
use line_lexer::LineFault;
use project_language::{Project, ProjectFault, read_project};
use std::alloc::{AllocError, Global};
use std::test::Fail;
use uml_model::Element;
use vocabulary::{ClassId, LinkId, Side};

const DOCUMENTS: &str = "# The documents of a table.

onprom 1
table doc \"doc.csv\"
column doc id text
column doc made time
class Doc
attr Doc made time *
map m from doc a then Doc(iri \"http://e/{a.id}\"), made(iri \"http://e/{a.id}\", a.made)
case v where Doc(v)
event create v where Doc(v)
cases create (v, v) where Doc(v)
set create \"concept:name\" mandatory is text \"create\"
set create \"time:timestamp\" mandatory (v, w) where made(v, w)
";

const STEPS: &str = "onprom 1
table t \"t.csv\"
column t d text header \"Doc\"
column t s text
column t at time
key t (d, s)
class Doc
class Step
class Review
sub Review Step
assoc of Step * -> Doc *
attr Step done time *
map m from t x then of(iri \"http://e/s/{x.s}\", iri \"http://e/d/{x.d}\"), done(iri \"http://e/s/{x.s}\", x.at)
case c where Doc(c)
event work x where Step(x)
cases work (x, c) where of(x, c)
set work \"concept:name\" mandatory is text \"work\"
set work \"time:timestamp\" mandatory (x, t) where done(x, t)";

// Texts between lines of a tilde, each with its first fault.
const FAULTS: &str = "
=> Some(Line(1, Syntax))
~

# nothing

=> Some(Line(1, Syntax))
~

# one class
onprom 1
class A
=> None
~
onprom 1
onprom 1
class
=> Some(Line(2, Double))
~
onprom 1
table t \"t\"
column t a text
map m from t x then A(x.a)
class A
=> Some(Line(4, Unknown))
~
onprom 1
class A
attr A u text 0..1
=> None
~
onprom 1
class A
assoc p A 1 -> A *
=> None
~
onprom 1
class A
attr A u text 1..*
=> None
~
onprom 1
class A
class B
disjoint A B

=> None
~
onprom 1
class A
assoc p A * -> A *
assoc q A * -> A *
subassoc q inverse p
subassoc q p
=> None
~
onprom 1
class A
attr A u text *
attr A v int *
subattr u v
=> Some(Line(5, TypeMismatch))
~
onprom 1
class A
assoc p A * -> A *
subassoc p u
=> Some(Line(4, Unknown))
~
onprom 1
class A
assoc p A * -> A *
disjointassoc p Zed
=> Some(Line(4, Unknown))
~
onprom 1
class A
attr A u text *
identify A (u, u)
=> Some(Line(4, TypeMismatch))
~
onprom 1
table t \"t.csv\"
column t a text
column t b text
class A
class B
assoc p A * -> B 0..1
assoc q A * -> B *
subassoc q p
=> Some(Line(9, FunctionalSpecialised))
~
onprom 1
class A
attr A u text *
attr A v text *
attr A w text *
attr A x text *
identify A (u, v, w, x)
=> Some(Limit(IdentifyingAttributes))
~
onprom 1
class A
identify A u
=> Some(Line(3, Syntax))";

// How many tables, mappings, classes, links, statements and events there are.
fn sizes(project: &Project) -> [usize; 6] {
    [
        project.sources.tables().len(),
        project.sources.mappings().len(),
        project.model.classes() as usize,
        project.model.links() as usize,
        project.model.lines().len(),
        project.noted.notes().events().len(),
    ]
}

fn are_documents(project: &Project) -> bool {
    match project.noted.notes().events() {
        [event] => {
            sizes(project) == [1, 1, 1, 1, 2, 1]
                && event.name.text() == "create"
                && event.line == 11
                && event.keys.items().len() == 2
        }
        _ => false,
    }
}

fn has_steps(project: &Project) -> bool {
    sizes(project) == [1, 1, 3, 2, 6, 1]
        && project.model.find("Review") == Some(Element::Class(ClassId(2)))
        && project.model.link_named("of") == Some((LinkId(0), Side::Object))
}

fn has_one_key(project: &Project) -> bool {
    match project.sources.tables() {
        [table] => table.columns.items().len() == 3 && table.keys.items().len() == 1,
        _ => false,
    }
}

fn fault_of(alloc: Global, text: &[u8]) -> Option<ProjectFault>
    requires { length text.now < 2 ^ 32 - 1 }
{
    read_project(alloc, text).err()
}

fn has_fault(alloc: Global, case: &str) -> Result<bool, AllocError> {
    match case.split_once("\n=> ") {
        Some((text, want)) if text.len() < 1000 => {
            is_shown(alloc, &fault_of(alloc, text.as_bytes()), want)
        }
        _ => Ok(false),
    }
}

fn reads_documents(alloc: Global) -> bool {
    match read_project(alloc, DOCUMENTS.as_bytes()) {
        Ok(project) => are_documents(&project),
        Err(_) => false,
    }
}

fn reads_steps(alloc: Global) -> bool {
    match read_project(alloc, STEPS.as_bytes()) {
        Ok(project) => has_steps(&project) && has_one_key(&project),
        Err(_) => false,
    }
}

#[test]
fn one_table_is_read(rt: HostRuntime) {
    assert!(rt; reads_documents(rt.alloc()));
}

#[test]
fn steps_of_documents_are_read(rt: HostRuntime) {
    assert!(rt; reads_steps(rt.alloc()));
}

#[test]
fn the_first_fault_is_told(rt: HostRuntime) -> Result<(), Fail> {
    for case in FAULTS.split("\n~\n") {
        assert!(rt; has_fault(rt.alloc(), case)?, "{case}");
    }
    Ok(())
}

#[test]
fn other_bytes_are_no_text(rt: HostRuntime) {
    let fault = fault_of(rt.alloc(), b"onprom 1\nclass\nclass A \xFF\nclass B");
    assert!(rt; fault == Some(ProjectFault::NotUtf8(3)));
}
