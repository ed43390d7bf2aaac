//! The first fault of a text, with its line.
use crate::cases::has_fault;
use std::alloc::{AllocError, Global};
use std::test::Fail;

// Texts between lines of a tilde, each with its first fault.
const WHOLE: &str = "Prefix(:=<http://e/onto#>)
Prefix(owl:=<http://www.w3.org/2002/07/owl#>)
Ontology(<http://e/onto>
Declaration(Class(:A))
Declaration(Class(:B))
Declaration(Class(:C))
Declaration(ObjectProperty(:p))
DisjointClasses(:B :C)
ObjectPropertyDomain(:p :A)
ObjectPropertyRange(:p :B)
SubClassOf(:A ObjectSomeValuesFrom(:p owl:Thing))
EquivalentClasses(:B :C)
)
=> Some(Unsupported(12))
~
Prefix(:=<http://e/onto#>)
Prefix(owl:=<http://www.w3.org/2002/07/owl#>)
Ontology(<http://e/onto>
Declaration(Class(:A))
Declaration(Class(:B))
Declaration(Class(:C))
DisjointClasses(:B :C)
ObjectPropertyDomain(:p :A)
ObjectPropertyRange(:p :B)
SubClassOf(:A ObjectSomeValuesFrom(:p owl:Thing))
SubClassOf(Annotation(:note \"as \\\"m8\\\"\") :B :C) # the fourth axiom
)
=> Some(Undeclared(8))
~
Prefix(:=<http://e/onto#>)
Prefix(owl:=<http://www.w3.org/2002/07/owl#>)
Ontology(<http://e/onto>
Declaration(Class(:A))
Declaration(Class(:B))
Declaration(Class(:C))
Declaration(ObjectProperty(:p))
DisjointClasses(:B :C)
ObjectPropertyDomain(:p :A)
ObjectPropertyRange(:p :B)
SubClassOf(:A ObjectSomeValuesFrom(:p owl:Thing))
SubClassOf(Annotation(:note \"as \\\"m8\\\"\") :B :C) # the fourth axiom
FunctionalObjectProperty(:p)
SubObjectPropertyOf(ObjectInverseOf(:p) :p)
)
=> Some(FunctionalSpecialised(14))
~
Prefix(:=<http://e/onto#>)
Prefix(owl:=<http://www.w3.org/2002/07/owl#>)
Ontology(<http://e/onto>
Declaration(Class(:A))
Declaration(Class(:B))
Declaration(Class(:C))
Declaration(ObjectProperty(:p))
DisjointClasses(:B :C)
ObjectPropertyDomain(:p :A)
ObjectPropertyRange(:p :B)
SubClassOf(:A ObjectSomeValuesFrom(:p owl:Thing))
SubClassOf(Annotation(:note \"as \\\"m8\\\"\") :B :C) # the fourth axiom

=> Some(Syntax(13))
~
Ontology(

=> Some(Syntax(2))
~
Prefix(a:=<http://x/>)
Prefix(a:=<http://x/>)
Ontology()
=> Some(Syntax(2))
~
Ontology()
Prefix(a:=<http://x/>)
=> Some(Syntax(2))
~
Ontology(Declaration(Class(a:A)))
=> Some(Syntax(1))
~
<?xml version=\"1.0\"?>
<rdf:RDF/>
=> Some(Syntax(1))";

// An ontology of two classes and three properties, and the lines that stand in it, from line 4 on.
const HEAD: &str =
    "Prefix(:=<http://e#>) Prefix(o:=<http://www.w3.org/2002/07/owl#>) Prefix(x:=<http://www.w3.org/2001/XMLSchema#>)
Ontology( Declaration(Class(:A)) Declaration(Class(:B)) Declaration(ObjectProperty(:p))
Declaration(DataProperty(:u)) Declaration(DataProperty(:v))
";

const LINES: &str = "=> None
SubClassOf(:A :B) => None
SubClassOf(:A :B) ) => Some(Syntax(5))
SubClassOf(:A) => Some(Syntax(4))
SubClassOf(:A :B :A) => Some(Syntax(4))
SubClassOf(word :B) => Some(Syntax(4))
word => Some(Syntax(5))
DisjointClasses(:A) => Some(Syntax(4))
ObjectPropertyDomain(Foo(:p) :A) => Some(Syntax(4))
SubObjectPropertyOf(:p ObjectPropertyChain(:p :p)) => Some(Syntax(4))
ObjectPropertyDomain(ObjectInverseOf(ObjectInverseOf(:p)) :A) => Some(Syntax(4))
HasKey(:A () (:u)) SubClassOf(:A) => Some(Syntax(4))
SubClassOf(:A :B) \"never closed => Some(Syntax(5))
HasKey(:A () (:u)) => Some(Unsupported(4))
Import(<http://e/other>) => Some(Unsupported(4))
SubClassOf(:A ObjectUnionOf(:A :B)) => Some(Unsupported(4))
SubClassOf(:A ObjectSomeValuesFrom(:p :B)) => Some(Unsupported(4))
SubClassOf(:A o:Nothing) => Some(Unsupported(4))
SubClassOf(o:Thing :A) => Some(Unsupported(4))
DisjointClasses(:A o:Thing) => Some(Unsupported(4))
ObjectPropertyDomain(o:Nothing :A) => Some(Unsupported(4))
SubObjectPropertyOf(ObjectPropertyChain(:p :p) :p) => Some(Unsupported(4))
DataPropertyRange(:u x:decimal) => Some(Unsupported(4))
DataPropertyRange(:u DataOneOf(\"a\")) => Some(Unsupported(4))
DataPropertyRange(:u x:integer) DataPropertyRange(:u x:string) => Some(Unsupported(4))
SubDataPropertyOf(:u :v) DataPropertyRange(:v x:integer) => Some(Unsupported(4))
SubDataPropertyOf(:u :v) => None
SubClassOf(:a-b :Z) => Some(BadName(4))
SubClassOf(:from :A) => Some(BadName(4))
Declaration(Class(:9)) => Some(BadName(4))
Declaration(NamedIndividual(:9)) => None
Declaration(ObjectProperty(:A)) => Some(DoubleName(4))
Declaration(Class(<http://f/A>)) => Some(DoubleName(4))
Declaration(Class(:A)) => None
Declaration(Class(:-)) Declaration(Class(<http://f/A>)) => Some(BadName(4))
SubClassOf(:Z :A) => Some(Undeclared(4))
SubClassOf(:p :A) => Some(Undeclared(4))
SubClassOf(:Z :A) Declaration(Class(:Z)) => None
DataPropertyDomain(:p :A) => Some(Undeclared(4))
FunctionalDataProperty(:u) SubDataPropertyOf(:v :u) => Some(FunctionalSpecialised(4))
SubDataPropertyOf(:v :u) FunctionalDataProperty(:u) SubClassOf(:Z :A) => Some(Undeclared(4))
FunctionalDataProperty(:u) SubDataPropertyOf(:u :v) => None
InverseFunctionalObjectProperty(:p) SubObjectPropertyOf(:p :p) => Some(FunctionalSpecialised(4))
# ) => None
SubClassOf(Annotation(:n \"a \\\" ) b\"@en) :A :B) => None
SubClassOf(Annotation(:n \"a \\\\\") :A :B) => None
SubClassOf(Annotation(:n \"\\a ( \"^^x:string) Annotation(Annotation(:m <(#)>) :n :k) :A :B) => None
AnnotationAssertion(o:x :A \"unary ) ( \") => None
AnnotationAssertion(o:x :A > < <a \"(\" (< (\")\") >) ) => None
SubClassOf(:A:B :B) => Some(BadName(4))
SubClassOf(<A#B> :B) => Some(Undeclared(4))
SubClassOf( <http://e#A><http://e#B>) => None
SubClassOf(:A=:B) => Some(Syntax(4))
SubClassOf(:A >:B) => Some(Syntax(4))
SubClassOf(< A> :B) => Some(Syntax(4))";

fn is_right(alloc: Global, case: &str) -> Result<bool, AllocError> {
    match case.trim().split_once("\n=> ") {
        Some((text, want)) => has_fault(alloc, text.as_bytes(), want),
        None => Ok(false),
    }
}

fn is_line_right(alloc: Global, case: &str) -> Result<bool, AllocError> {
    match case.split_once("=> ") {
        Some((line, want)) => {
            let text = format!(in alloc; "{HEAD}{line}\n)")?;
            has_fault(alloc, text.as_bytes(), want)
        }
        None => Ok(false),
    }
}

#[test]
fn whole_texts_have_their_first_faults(rt: HostRuntime) -> Result<(), Fail> {
    for case in WHOLE.split('~') {
        assert!(rt; is_right(rt.alloc(), case)?, "{case}");
    }
    Ok(())
}

#[test]
fn lines_have_their_first_faults(rt: HostRuntime) -> Result<(), Fail> {
    for case in LINES.split('\n') {
        assert!(rt; is_line_right(rt.alloc(), case)?, "{case}");
    }
    Ok(())
}

#[test]
fn bytes_that_are_no_text_are_refused(rt: HostRuntime) -> Result<(), Fail> {
    assert!(rt; has_fault(rt.alloc(), b"Ontology(\n#\n\xFF", "Some(NotUtf8(3))")?);
    assert!(rt; has_fault(rt.alloc(), b"\xEF\xBB\xBFOntology(\r\n)", "None")?);
    assert!(rt; has_fault(rt.alloc(), b"Ontology(\r)", "Some(Syntax(1))")?);
    Ok(())
}
