//! Files as an editor over the OWL API writes them.
use crate::cases::gives;
use std::test::Fail;

const SAVED: &str = "Prefix(:=<http://example.org/conference#>)
Prefix(owl:=<http://www.w3.org/2002/07/owl#>)
Prefix(rdf:=<http://www.w3.org/1999/02/22-rdf-syntax-ns#>)
Prefix(xml:=<http://www.w3.org/XML/1998/namespace>)
Prefix(xsd:=<http://www.w3.org/2001/XMLSchema#>)
Prefix(rdfs:=<http://www.w3.org/2000/01/rdf-schema#>)


Ontology(<http://example.org/conference>
<http://example.org/conference/1.0>
Annotation(rdfs:comment \"Papers (and \\\"reviews\\\" of them)
# of a conference\"@en)
Annotation(owl:versionInfo \"1.0\"^^xsd:decimal)

Declaration(Class(:Paper))
Declaration(Class(:Review))
Declaration(ObjectProperty(:about))
Declaration(DataProperty(:title))
Declaration(AnnotationProperty(rdfs:seeAlso))
Declaration(NamedIndividual(:the-first))
Declaration(Datatype(xsd:decimal))
############################
#   Object Properties
############################

# Object Property: :about (a \"review\" is about a paper)

AnnotationAssertion(Annotation(rdfs:label \"a\") rdfs:label :about \"is about\"@en)
FunctionalObjectProperty(:about)
ObjectPropertyDomain(:about :Review)
ObjectPropertyRange(:about :Paper)

############################
#   Data Properties
############################

# Data Property: :title (<http://example.org/conference#title>)

DataPropertyDomain(:title :Paper)
DataPropertyRange(:title xsd:string)



############################
#   Classes
############################

# Class: :Review (:Review)

SubClassOf(Annotation(rdfs:comment \"each\") :Review ObjectSomeValuesFrom(:about owl:Thing))
DisjointClasses(:Paper :Review)
SubAnnotationPropertyOf(rdfs:seeAlso rdfs:comment)
AnnotationPropertyDomain(rdfs:seeAlso :Paper)
AnnotationPropertyRange(rdfs:seeAlso xsd:anyURI)


)
";

const GIVEN: &str = "Paper Review - about title [Object, Value(Text)]
[Sub(Has(LinkId(0), Fwd), Class(ClassId(1))), Sub(Has(LinkId(0), Back), Class(ClassId(0))), Sub(Has(LinkId(1), Fwd), Class(ClassId(0))), Sub(Class(ClassId(1)), Has(LinkId(0), Fwd))]
[Func(LinkId(0), Fwd), Disjoint(Class(ClassId(0)), Class(ClassId(1)))]";

#[test]
fn what_an_editor_saves_is_read(rt: HostRuntime) -> Result<(), Fail> {
    assert!(rt; gives(rt.alloc(), SAVED.as_bytes(), GIVEN)?);
    Ok(())
}
