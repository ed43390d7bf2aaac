//! That calls succeed where there is memory, on the models of some projects.
use crate::cases::is_shown;
use dllite_axioms::Tbox;
use line_lexer::{Counted, Line, LineFault};
use std::alloc::{AllocError, Global};
use std::test::Fail;
use uml_model::{Element, Model, axioms_of, read_model_line};
use vocabulary::{ClassId, LinkId, Side, ValueKind};

// Models, each with its axioms and its constraints.
const MEANINGS: &str = "class R
class P
assoc about R * -> P 1
=> [Sub(Has(LinkId(0), Fwd), Class(ClassId(0))), Sub(Has(LinkId(0), Back), Class(ClassId(1))), Sub(Class(ClassId(0)), Has(LinkId(0), Fwd))] [Func(LinkId(0), Fwd)]

class A
class B
class C
disjoint B C
assoc p A * -> B 1..*
sub B C
=> [Sub(Has(LinkId(0), Fwd), Class(ClassId(0))), Sub(Has(LinkId(0), Back), Class(ClassId(1))), Sub(Class(ClassId(0)), Has(LinkId(0), Fwd)), Sub(Class(ClassId(1)), Class(ClassId(2)))] [Disjoint(Class(ClassId(1)), Class(ClassId(2)))]

class A
class B
assoc p A 0..1 -> B *
=> [Sub(Has(LinkId(0), Fwd), Class(ClassId(0))), Sub(Has(LinkId(0), Back), Class(ClassId(1)))] [Func(LinkId(0), Back)]

class A
class B
assoc owns A * -> B *
assoc ownedBy B * -> A *
subassoc ownedBy inverse owns
disjointassoc owns inverse ownedBy
=> [Sub(Has(LinkId(0), Fwd), Class(ClassId(0))), Sub(Has(LinkId(0), Back), Class(ClassId(1))), Sub(Has(LinkId(1), Fwd), Class(ClassId(1))), Sub(Has(LinkId(1), Back), Class(ClassId(0))), SubLink(LinkId(1), Back, LinkId(0))] [Apart(LinkId(0), Back, LinkId(1))]

class A
class B
assoc p A * -> B *
assoc q A * -> B *
assoc r A * -> B 1..*
subassoc r p
subassoc r q
disjointassoc p q
=> [Sub(Has(LinkId(0), Fwd), Class(ClassId(0))), Sub(Has(LinkId(0), Back), Class(ClassId(1))), Sub(Has(LinkId(1), Fwd), Class(ClassId(0))), Sub(Has(LinkId(1), Back), Class(ClassId(1))), Sub(Has(LinkId(2), Fwd), Class(ClassId(0))), Sub(Has(LinkId(2), Back), Class(ClassId(1))), Sub(Class(ClassId(0)), Has(LinkId(2), Fwd)), SubLink(LinkId(2), Fwd, LinkId(0)), SubLink(LinkId(2), Fwd, LinkId(1))] [Apart(LinkId(0), Fwd, LinkId(1))]

class A
attr A u text *
attr A v text *
attr A n int 0..1
subattr u v
identify A (n, v)
=> [Sub(Has(LinkId(0), Fwd), Class(ClassId(0))), Sub(Has(LinkId(1), Fwd), Class(ClassId(0))), Sub(Has(LinkId(2), Fwd), Class(ClassId(0))), SubLink(LinkId(0), Fwd, LinkId(1))] [Func(LinkId(2), Fwd), Identified(ClassId(0), List { inner: [LinkId(2), LinkId(1)] })]

class A
assoc inverse A * -> A *
assoc p A * -> A *
subassoc p inverse
subassoc p inverse inverse
=> [Sub(Has(LinkId(0), Fwd), Class(ClassId(0))), Sub(Has(LinkId(0), Back), Class(ClassId(0))), Sub(Has(LinkId(1), Fwd), Class(ClassId(0))), Sub(Has(LinkId(1), Back), Class(ClassId(0))), SubLink(LinkId(1), Fwd, LinkId(0)), SubLink(LinkId(1), Back, LinkId(0))] []";

// A model, and further lines with their first faults.
const LINKS: &str = "class A
class B
assoc p A * -> B 0..1
assoc q A * -> B *
assoc r A 1 -> B *
attr A u text *
attr A v text 0..1
attr A n int *
attr A w int *
attr A x int 1";

const FAULTS: &str = "subassoc q => Some(Syntax)
subassoc q from => Some(Syntax)
subassoc q inverse p q => Some(Syntax)
subattr u inverse v => Some(Syntax)
identify A => Some(Syntax)
identify A () => Some(Syntax)
identify A (u w) => Some(Syntax)
identify A (u,) => Some(Syntax)
identify A (u) w => Some(Syntax)
subassoc q inverse => Some(Unknown)
subassoc q Zed => Some(Unknown)
disjointassoc Zed q => Some(Unknown)
subattr u Zed => Some(Unknown)
identify Zed (u, u) => Some(Unknown)
identify A (q, Zed) => Some(Unknown)
subassoc q u => Some(TypeMismatch)
subassoc u p => Some(TypeMismatch)
subassoc A q => Some(TypeMismatch)
subattr u q => Some(TypeMismatch)
subattr u n => Some(TypeMismatch)
subattr n v => Some(TypeMismatch)
disjointassoc q inverse u => Some(TypeMismatch)
identify q (u) => Some(TypeMismatch)
identify A (q) => Some(TypeMismatch)
identify A (u, B) => Some(TypeMismatch)
identify A (u, n, u) => Some(TypeMismatch)
subassoc q p => Some(FunctionalSpecialised)
subassoc q inverse p => Some(FunctionalSpecialised)
subassoc q r => Some(FunctionalSpecialised)
subattr u v => Some(FunctionalSpecialised)
subattr n x => Some(FunctionalSpecialised)
identify A (u, v, n, w) => Some(Limit(IdentifyingAttributes))
disjointassoc q p => None
disjointassoc p inverse p => None
subassoc p q => None
subattr v u => None
identify A (u, n, w) => None";

const NAMES: &str = "class A

assoc p A * -> A 1 # one
attr A made time 0..1";

pub fn model_of(alloc: Global, lines: &str) -> Result<Model, LineFault> {
    let mut model = Model::new(alloc);
    for text in lines.split('\n') {
        read_model_line(alloc, &mut model, &Line { number: 1, text })?;
    }
    Ok(model)
}

// The axioms and the constraints, printed.
fn shown(alloc: Global, tbox: &Tbox) -> Result<String, AllocError> {
    format!(in alloc; "{:?} {:?}", tbox.axioms(), tbox.constraints())
}

fn tbox_of(alloc: Global, lines: &str) -> Result<Tbox, LineFault> {
    let model = model_of(alloc, lines)?;
    Ok(axioms_of(alloc, &model)?)
}

fn means(alloc: Global, case: &str) -> Result<bool, LineFault> {
    match case.split_once("\n=> ") {
        Some((lines, want)) => Ok(shown(alloc, &tbox_of(alloc, lines)?)?.as_str() == want),
        None => Ok(false),
    }
}

fn read_on(alloc: Global, lines: &str, text: &str) -> Result<Option<LineFault>, LineFault> {
    let mut model = model_of(alloc, lines)?;
    Ok(read_model_line(alloc, &mut model, &Line { number: 1, text }).err())
}

fn has_fault(alloc: Global, case: &str) -> Result<bool, LineFault> {
    match case.split_once(" => ") {
        Some((line, want)) => Ok(is_shown(alloc, &read_on(alloc, LINKS, line)?, want)?),
        None => Ok(false),
    }
}

// The model with as many constraints as there may be.
fn full_model(alloc: Global) -> Result<Model, LineFault> {
    let mut model = model_of(alloc, LINKS)?;
    for number in 0..2_996 {
        let text = "disjoint A B";
        read_model_line(alloc, &mut model, &Line { number, text })?;
    }
    Ok(model)
}

fn fault_when_full(alloc: Global, text: &str) -> Result<Option<LineFault>, LineFault> {
    let mut model = full_model(alloc)?;
    Ok(read_model_line(alloc, &mut model, &Line { number: 1, text }).err())
}

fn has_names(model: &Model) -> bool {
    model.find("A") == Some(Element::Class(ClassId(0)))
        && model.find("made") == Some(Element::Link(LinkId(1)))
        && model.sides().get(1) == Some(&Side::Value(ValueKind::Time))
        && model.lines().len() == 3
}

#[test]
fn lines_mean_their_axioms(rt: HostRuntime) -> Result<(), Fail> {
    for case in MEANINGS.split("\n\n") {
        assert!(rt; means(rt.alloc(), case)?, "{case}");
    }
    Ok(())
}

#[test]
fn names_are_found(rt: HostRuntime) -> Result<(), Fail> {
    assert!(rt; has_names(&model_of(rt.alloc(), NAMES)?));
    Ok(())
}

#[test]
fn first_faults_of_lines_of_links(rt: HostRuntime) -> Result<(), Fail> {
    for case in FAULTS.split('\n') {
        assert!(rt; has_fault(rt.alloc(), case)?, "{case}");
    }
    Ok(())
}

// The model has 2,996 constraints of its lines behind four functional ends.
#[test]
fn identifying_attributes_stand_before_constraints(rt: HostRuntime) -> Result<(), Fail> {
    let last = fault_when_full(rt.alloc(), "identify A (u)")?;
    assert!(rt; last == Some(LineFault::Limit(Counted::Constraints)));
    let four = fault_when_full(rt.alloc(), "identify A (u, v, n, w)")?;
    assert!(rt; four == Some(LineFault::Limit(Counted::IdentifyingAttributes)));
    assert!(rt; fault_when_full(rt.alloc(), "subassoc p q")?.is_none());
    Ok(())
}
