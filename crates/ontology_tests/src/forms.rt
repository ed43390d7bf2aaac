//! What the forms of an ontology give.
use crate::cases::gives;
use std::alloc::{AllocError, Global};
use std::test::Fail;

// Ontologies between lines of a tilde: each with its classes and links, the sorts of the links, its axioms, its constraints.
const GIVEN: &str = "Prefix(:=<http://e/onto#>)
Prefix(owl:=<http://www.w3.org/2002/07/owl#>)
Ontology(<http://e/onto>
Declaration(Class(:A))
Declaration(Class(:B))
Declaration(Class(:C))
Declaration(ObjectProperty(:p))
DisjointClasses(:B :C)
ObjectPropertyDomain(:p :A)
ObjectPropertyRange(:p :B)
SubClassOf(:A ObjectSomeValuesFrom(:p owl:Thing))
SubClassOf(Annotation(:note \"as \\\"m8\\\"\") :B :C) # the fourth axiom
)
=> A B C - p [Object]
[Sub(Has(LinkId(0), Fwd), Class(ClassId(0))), Sub(Has(LinkId(0), Back), Class(ClassId(1))), Sub(Class(ClassId(0)), Has(LinkId(0), Fwd)), Sub(Class(ClassId(1)), Class(ClassId(2)))]
[Disjoint(Class(ClassId(1)), Class(ClassId(2)))]
~
Ontology()
=> - []
[]
[]
~
Prefix(:=<http://e/onto#>) Prefix(x:=<http://www.w3.org/2001/XMLSchema#>) Prefix(o:=<http://www.w3.org/2002/07/owl#>)
Ontology(
Declaration(DataProperty(:at)) Declaration(ObjectProperty(:p)) Declaration(ObjectProperty(:q))
Declaration(DataProperty(:n)) Declaration(Class(:A)) Declaration(DataProperty(:t)) Declaration(DataProperty(:b))
DataPropertyRange(:at x:dateTime) DataPropertyRange(:n x:integer) DataPropertyRange(:b x:boolean) DataPropertyRange(:at x:dateTime)
SubObjectPropertyOf(:p :q) SubObjectPropertyOf(ObjectInverseOf(:p) :q)
SubObjectPropertyOf(:p ObjectInverseOf(:q)) SubObjectPropertyOf(ObjectInverseOf(:p) ObjectInverseOf(:q))
SubDataPropertyOf(:t :t)
FunctionalObjectProperty(:p) InverseFunctionalObjectProperty(:p)
FunctionalObjectProperty(ObjectInverseOf(:p)) InverseFunctionalObjectProperty(ObjectInverseOf(:p))
FunctionalDataProperty(:n))
=> A - at p q n t b [Value(Time), Object, Object, Value(Int), Value(Text), Value(Bool)]
[SubLink(LinkId(1), Fwd, LinkId(2)), SubLink(LinkId(1), Back, LinkId(2)), SubLink(LinkId(1), Back, LinkId(2)), SubLink(LinkId(1), Fwd, LinkId(2)), SubLink(LinkId(4), Fwd, LinkId(4))]
[Func(LinkId(1), Fwd), Func(LinkId(1), Back), Func(LinkId(1), Back), Func(LinkId(1), Fwd), Func(LinkId(3), Fwd)]
~
Prefix(:=<http://e/onto#>) Prefix(o:=<http://www.w3.org/2002/07/owl#>) Prefix(r:=<http://www.w3.org/2000/01/rdf-schema#>)
Ontology(
Declaration(Class(:A)) Declaration(Class(:B)) Declaration(Class(:A)) Declaration(ObjectProperty(:p)) Declaration(DataProperty(:u))
DisjointClasses(:A ObjectSomeValuesFrom(ObjectInverseOf(:p) o:Thing) DataSomeValuesFrom(:u r:Literal) :B)
SubClassOf(DataSomeValuesFrom(:u r:Literal) ObjectSomeValuesFrom(:p o:Thing)) DataPropertyDomain(:u :B)
ObjectPropertyDomain(ObjectInverseOf(:p) :A) ObjectPropertyRange(ObjectInverseOf(:p) :A)
SubClassOf(:A o:Thing) ObjectPropertyDomain(:p o:Thing) ObjectPropertyRange(:p o:Thing) DataPropertyDomain(:u o:Thing)
Declaration(Class(o:Thing)) Declaration(Class(o:Nothing)) Declaration(NamedIndividual(:not-a-name)) Declaration(Datatype(:d)))
=> A B - p u [Object, Value(Text)]
[Sub(Has(LinkId(1), Fwd), Has(LinkId(0), Fwd)), Sub(Has(LinkId(1), Fwd), Class(ClassId(1))), Sub(Has(LinkId(0), Back), Class(ClassId(0))), Sub(Has(LinkId(0), Fwd), Class(ClassId(0)))]
[Disjoint(Class(ClassId(0)), Has(LinkId(0), Back)), Disjoint(Class(ClassId(0)), Has(LinkId(1), Fwd)), Disjoint(Class(ClassId(0)), Class(ClassId(1))), Disjoint(Has(LinkId(0), Back), Has(LinkId(1), Fwd)), Disjoint(Has(LinkId(0), Back), Class(ClassId(1))), Disjoint(Has(LinkId(1), Fwd), Class(ClassId(1)))]
~
Ontology(<http://e/onto> <http://e/onto/1> Annotation(<n> \"a\"@en) SubClassOf(<http://e#B> <http://e/A>)
Declaration(Class(<http://e/A>)) Declaration(Class(<http://f#g/C>)) Declaration(Class(<http://e#B>)))
=> A C B - []
[Sub(Class(ClassId(2)), Class(ClassId(0)))]
[]";

fn is_given(alloc: Global, case: &str) -> Result<bool, AllocError> {
    match case.trim().split_once("\n=> ") {
        Some((text, want)) => gives(alloc, text.as_bytes(), want),
        None => Ok(false),
    }
}

#[test]
fn each_form_gives_what_it_says(rt: HostRuntime) -> Result<(), Fail> {
    for case in GIVEN.split('~') {
        assert!(rt; is_given(rt.alloc(), case)?, "{case}");
    }
    Ok(())
}
