//! Mappings over one small table.
ghost use Rattle.std.specs.Prelude.{◌≡◌, ◌<◌, ◌+◌, length, IfOk, OnOk};
ghost use Rattle.mapping_facts.specs.Fits.{AreFit, MappingFits, QueryFits, TargetFits, TermFits};

use iri_templates::Template;
use mapping_facts::{Mapping, Place, RowTerm, SourceQuery, Target};
use std::alloc::{AllocError, Global};
use std::test::Fail;
use vocabulary::{ClassId, ColId, LinkId, List, Name, TableId, ValueKind};

fn place(col: u32) -> Place
    ensures { result.table ≡ 0 }
{
    Place {
        table: 0,
        col: ColId(col),
    }
}

// The object of a column.
fn object(alloc: Global, col: u32) -> Result<RowTerm, Fail>
    ensures { IfOk result (TermFits 1) }
{
    let template = Template::parse(alloc, "http://e/{x.a}")?;
    if template.holes() != 1 {
        return Err(Fail::new("not one hole"));
    }
    let mut places = List::new(alloc);
    places.push(place(col))?;
    Ok(RowTerm::Iri(template, places))
}

fn member(alloc: Global, class: u32, col: u32) -> Result<Target, Fail>
    ensures { IfOk result (TargetFits 1) }
{
    Ok(Target::InClass(ClassId(class), object(alloc, col)?))
}

// From each a to its b.
fn link(alloc: Global, link: u32) -> Result<Target, Fail>
    ensures { IfOk result (TargetFits 1) }
{
    let from = object(alloc, 0)?;
    Ok(Target::Linked(LinkId(link), from, object(alloc, 1)?))
}

// From each a to the text of its b.
fn attribute(alloc: Global, link: u32) -> Result<Target, Fail>
    ensures { IfOk result (TargetFits 1) }
{
    let from = object(alloc, 0)?;
    let text = RowTerm::Cell(ValueKind::Text, place(1));
    Ok(Target::Linked(LinkId(link), from, text))
}

fn each_row(alloc: Global) -> Result<SourceQuery, AllocError>
    ensures tables { IfOk result (λ q. length q.tables ≡ 1) }
    ensures fits { IfOk result QueryFits }
{
    let mut tables = List::new(alloc);
    tables.push(TableId(0))?;
    Ok(SourceQuery {
        tables,
        conditions: List::new(alloc),
    })
}

fn gives(alloc: Global, target: Target) -> Result<Mapping, AllocError>
    requires { TargetFits 1 target }
    ensures { IfOk result MappingFits }
{
    let name = Name::new(alloc, "m")?;
    let query = each_row(alloc)?;
    let mut targets = List::new(alloc);
    targets.push(target)?;
    Ok(Mapping {
        name,
        query,
        targets,
    })
}

// One mapping more.
fn push_fitting(mappings: &mut Vec<Mapping>, mapping: Mapping) -> Result<(), AllocError>
    requires fit { AreFit mappings.old.items }
    requires mapping { MappingFits mapping }
    requires few { length mappings.old.items < 99 }
    ensures fit { OnOk result (AreFit mappings.new.items) }
    ensures count { OnOk result (length mappings.new.items ≡ length mappings.old.items + 1) }
{
    mappings.push(mapping)?;
    Ok(())
}

fn none(alloc: Global) -> Vec<Mapping>
    ensures fit { AreFit result.items }
    ensures count { length result.items ≡ 0 }
{
    Vec::new(alloc)
}

/// The links 0 and 1 lead from each a to its b, each a is in the class 0, and each b in the class 1.
pub fn four(alloc: Global) -> Result<Vec<Mapping>, Fail>
    ensures fit { IfOk result (λ v. AreFit v.items) }
    ensures count { IfOk result (λ v. length v.items ≡ 4) }
{
    let mut mappings = none(alloc);
    push_fitting(&mut mappings, gives(alloc, link(alloc, 0)?)?)?;
    push_fitting(&mut mappings, gives(alloc, link(alloc, 1)?)?)?;
    push_fitting(&mut mappings, gives(alloc, member(alloc, 0, 0)?)?)?;
    push_fitting(&mut mappings, gives(alloc, member(alloc, 1, 1)?)?)?;
    Ok(mappings)
}

/// The same, and the attribute 2 leads from each a to the text of its b.
pub fn five(alloc: Global) -> Result<Vec<Mapping>, Fail>
    ensures fit { IfOk result (λ v. AreFit v.items) }
{
    let mut mappings = four(alloc)?;
    push_fitting(&mut mappings, gives(alloc, attribute(alloc, 2)?)?)?;
    Ok(mappings)
}
