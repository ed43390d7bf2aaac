//! Projects whose model is an ontology.
use crate::cases::{changed, holds, tells};
use crate::conference::{LOG, PAPER, PERSON, PROJECT, REPORT, REVIEW};
use crate::models::shows;
use outside::MemoryShelf;
use std::alloc::{AllocError, Global};
use std::test::Fail;

// Each A has a B as its partner, each B is a C, and nothing is both.
const CLASHING: &str = "Prefix(:=<http://e/onto#>)
Prefix(owl:=<http://www.w3.org/2002/07/owl#>)
Ontology(<http://e/onto>
Declaration(Class(:A))
Declaration(Class(:B))
Declaration(Class(:C))
Declaration(ObjectProperty(:p))
DisjointClasses(:B :C)
ObjectPropertyDomain(:p :A)
ObjectPropertyRange(:p :B)
SubClassOf(:A ObjectSomeValuesFrom(:p owl:Thing))
SubClassOf(Annotation(:note \"as \\\"m8\\\"\") :B :C) # the fourth axiom
)
";

const OVER: &str = "onprom 1
ontology \"m8.ofn\"
table t \"t.csv\"
column t a text
map m from t x then A(iri \"http://e/a/{x.a}\")
query partner (x) where p(x, y), C(y)
query both (x) where B(x), C(x)
";

const ROWS: &str = "a\n1\n";

const DERIVATION: &str = "conflict 1
1 map m 1 rows 1
2 rule 3 from 1
3 rule 2 from 2
4 rule 4 from 3
clash 3 4
end
";

fn files() -> [(&'static str, &'static str); 4] {
    [
        ("p", OVER),
        ("m8.ofn", CLASHING),
        ("t.csv", ROWS),
        ("d", DERIVATION),
    ]
}

// What is contradicted, and what no consistent tables can say.
const SHAPES: &str = "check p
=> 1
conflict 1
clash
end
--
contradicted 1
~
lint p
=> 0
void class A
clash
void class B
clash
void link p
clash
end
--
void 3";

#[test]
fn an_ontology_is_contradicted_as_a_model_is(rt: HostRuntime) -> Result<(), Fail> {
    for case in SHAPES.split("\n~\n") {
        assert!(rt; shows(rt.alloc(), &files(), case)?, "{case}");
    }
    Ok(())
}

// Every command that reads a project, the order in which files are begun, and where the line may stand.
const TOLD: &str = "verify p d
=> 0
--
accepted 1
~
answer p partner
=> 0
<http://e/a/1>
--
answers 1
~
answer p both
=> 0
--
answers 0
~
rewrite p both
=> 0
(x) where B(x)
(x) where p(_, x)
--
queries 2
~
contained p both partner
=> 0
not contained
--
contained 0
~
answer p both
@ t.csv
b
=> 3
--
refused: t.csv column a: Header
~
check p
@ p
onprom 1

# the model
ontology \"m8.ofn\" # of an editor
=> 0
--
consistent
~
check p
@ p
onprom 1
ontology \"n.ofn\"
class
=> 4
--
absent: n.ofn
~
lint p
@ p
onprom 1
ontology \"n.ofn\"
=> 4
--
absent: n.ofn
~
check p
@ p
onprom 1
ontology \"m8.ofn\"
class D
=> 3
--
refused: p line 3: Syntax
~
check p
@ p
onprom 1
ontology \"m8.ofn\"
sub A C
=> 3
--
refused: p line 3: Syntax
~
check p
@ p
onprom 1
ontology \"m8.ofn\"
ontology \"m8.ofn\"
=> 3
--
refused: p line 3: Syntax
~
check p
@ p
onprom 1
ontology \"m8.ofn\"
onprom 1
=> 3
--
refused: p line 3: Double
~
check p
@ p
onprom 1
class D
ontology \"m8.ofn\"
=> 3
--
refused: p line 3: Syntax
~
check p
@ p
ontology \"m8.ofn\"
onprom 1
=> 3
--
refused: p line 1: Syntax
~
check p
@ p
onprom 1
ontology m8.ofn
=> 3
--
refused: p line 2: Syntax
~
check p
@ p
onprom 1
ontology \"m8.ofn\" \"n.ofn\"
=> 3
--
refused: p line 2: Syntax
~
check p
@ p
onprom 1
ontology \"m8.ofn\"
query q (x) where D(x)
=> 3
--
refused: p line 3: Unknown
~
extract p
@ p
onprom 1
ontology \"m8.ofn\"
=> 3
--
refused: p line 0: NoCase";

#[test]
fn the_line_names_the_model_of_every_command(rt: HostRuntime) -> Result<(), Fail> {
    for case in TOLD.split("\n~\n") {
        assert!(rt; holds(rt.alloc(), &files(), case)?, "{case}");
    }
    Ok(())
}

// Whether such an ontology is refused so, before the lines of the project are read.
fn is_refused(alloc: Global, old: &str, new: &str, want: &str) -> Result<bool, AllocError> {
    let ontology = changed(alloc, CLASHING, &[(old, new)])?;
    let project = "onprom 1\nontology \"m8.ofn\"\nclass\n";
    let case = format!(in alloc; "check p\n@ p\n{project}=> 3\n--\nrefused: m8.ofn line {want}")?;
    holds(alloc, &[("m8.ofn", ontology.as_str())], case.as_str())
}

#[test]
fn an_ontology_is_refused_by_its_first_fault(rt: HostRuntime) -> Result<(), Fail> {
    for (old, new, want) in [
        (
            "SubClassOf(Annotation(:note \"as \\\"m8\\\"\") :B :C)",
            "EquivalentClasses(:B :C)",
            "12: Unsupported",
        ),
        ("Declaration(ObjectProperty(:p))\n", "", "8: Undeclared"),
        (
            "axiom\n",
            "axiom\nFunctionalObjectProperty(:p)\nSubObjectPropertyOf(ObjectInverseOf(:p) :p)\n",
            "14: FunctionalSpecialised",
        ),
        ("axiom\n)\n", "axiom\n", "13: Syntax"),
        ("(Class(:C))", "(Class(:from))", "6: BadName"),
        ("(Class(:C))", "(Class(<http://f#A>))", "6: DoubleName"),
    ] {
        assert!(rt; is_refused(rt.alloc(), old, new, want)?, "{want}");
    }
    Ok(())
}

fn failing(alloc: Global, call: u64) -> Result<MemoryShelf, AllocError> {
    let mut shelf = MemoryShelf::new(alloc);
    shelf.fail_at(call)?;
    for (name, text) in files() {
        if !shelf.holds(name) {
            shelf.add_file(name, text.as_bytes())?;
        }
    }
    Ok(shelf)
}

fn is_named(alloc: Global, call: u64, want: &str) -> Result<bool, AllocError> {
    let mut shelf = failing(alloc, call)?;
    tells(alloc, &mut shelf, "check p", want)
}

// A file is begun, read, and read once more to see its end.
#[test]
fn the_file_of_the_model_is_begun_second(rt: HostRuntime) -> Result<(), Fail> {
    for (call, want) in [
        (3, "5\n--\nread fault: p"),
        (4, "5\n--\nread fault: m8.ofn"),
        (6, "5\n--\nread fault: m8.ofn"),
        (7, "5\n--\nread fault: t.csv"),
    ] {
        assert!(rt; is_named(rt.alloc(), call, want)?, "{call}");
    }
    Ok(())
}

// The model of the conference, in the order of its lines.
const CONFERENCE: &str = "Prefix(:=<http://conf.org/model#>)
Prefix(owl:=<http://www.w3.org/2002/07/owl#>)
Prefix(rdfs:=<http://www.w3.org/2000/01/rdf-schema#>)
Prefix(xsd:=<http://www.w3.org/2001/XMLSchema#>)
Ontology(<http://conf.org/model>
Declaration(Class(:Paper))
Declaration(Class(:Person))
Declaration(Class(:Review))
Declaration(ObjectProperty(:writes))
Declaration(ObjectProperty(:about))
Declaration(ObjectProperty(:doneBy))
Declaration(DataProperty(:title))
Declaration(DataProperty(:submittedAt))
Declaration(DataProperty(:doneAt))
Declaration(DataProperty(:reviewerName))
Declaration(DataProperty(:name))
DisjointClasses(:Paper :Person)
ObjectPropertyDomain(:writes :Person)
ObjectPropertyRange(:writes :Paper)
SubClassOf(:Paper ObjectSomeValuesFrom(ObjectInverseOf(:writes) owl:Thing))
ObjectPropertyDomain(:about :Review)
ObjectPropertyRange(:about :Paper)
SubClassOf(:Review ObjectSomeValuesFrom(:about owl:Thing))
FunctionalObjectProperty(:about)
ObjectPropertyDomain(:doneBy :Review)
ObjectPropertyRange(:doneBy :Person)
SubClassOf(:Review ObjectSomeValuesFrom(:doneBy owl:Thing))
FunctionalObjectProperty(:doneBy)
DataPropertyDomain(:title :Paper)
SubClassOf(:Paper DataSomeValuesFrom(:title rdfs:Literal))
FunctionalDataProperty(:title)
DataPropertyDomain(:submittedAt :Paper)
DataPropertyRange(:submittedAt xsd:dateTime)
FunctionalDataProperty(:submittedAt)
DataPropertyDomain(:doneAt :Review)
DataPropertyRange(:doneAt xsd:dateTime)
FunctionalDataProperty(:doneAt)
DataPropertyDomain(:reviewerName :Review)
DataPropertyDomain(:name :Person)
SubClassOf(:Person DataSomeValuesFrom(:name rdfs:Literal))
FunctionalDataProperty(:name)
)
";

// The conference without its model lines, over the ontology.
fn conference(alloc: Global) -> Result<String, AllocError> {
    let (front, rest) = PROJECT.split_once("class Paper\n").unwrap_or(("", ""));
    let (_, back) = rest.split_once("map m1 ").unwrap_or(("", ""));
    let lines = front.strip_prefix("onprom 1\n").unwrap_or("");
    format!(in alloc; "onprom 1\nontology \"conf.ofn\"\n{lines}map m1 {back}")
}

fn has_its_log(alloc: Global) -> Result<bool, AllocError> {
    let project = conference(alloc)?;
    let case = format!(in alloc; "extract conf.txt\n=> 0\n{LOG}--\n{REPORT}")?;
    let files = [
        ("conf.txt", project.as_str()),
        ("conf.ofn", CONFERENCE),
        ("paper.csv", PAPER),
        ("person.csv", PERSON),
        ("review.csv", REVIEW),
    ];
    holds(alloc, &files, case.as_str())
}

#[test]
fn the_conference_has_its_log_over_an_ontology(rt: HostRuntime) -> Result<(), Fail> {
    assert!(rt; has_its_log(rt.alloc())?);
    Ok(())
}
