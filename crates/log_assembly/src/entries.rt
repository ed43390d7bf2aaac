//! The attributes of events and traces, and the times of events.
ghost use Rattle.std.specs.Prelude.{◌≡◌, ◌+◌, ◌∷◌, [], ◌++◌, codes, decimal, IfOk, OnOk, string_bytes};
ghost use Rattle.log_assembly.specs.Judged.{entries_at, entries_of, lone_entry, times_at, times_of};
ghost use Rattle.log_assembly.specs.TheLog.{entry_of, numbered};

use crate::attributes::Attribute;
use crate::lent::{LentName, LentTerm};
use annotation_language::Rule;
use std::alloc::{AllocError, Global};
use vocabulary::Name;
use xes_writer::Entry;

/// The attribute of this key and value.
pub(crate) fn entry(
    alloc: Global,
    key: &str,
    value: &LentTerm<'_>,
) -> Result<Entry<Name>, AllocError>
    ensures { IfOk result (λ e. e ≡ entry_of key.now value.now) }
{
    Ok(Entry {
        key: Name::new(alloc, key)?,
        side: value.side(),
        value: value.text().copy(alloc)?,
    })
}

fn numbered_key(alloc: Global, key: &Name, number: usize) -> Result<String, AllocError>
    ensures { IfOk result (λ s. string_bytes s ≡ key.now ++ codes "#" ++ decimal number) }
{
    let mut text = String::from_str(alloc, key.text())?;
    text.push_str("#")?;
    let digits = number.to_string(alloc)?;
    text.push_str(digits.as_str())?;
    Ok(text)
}

fn push_numbered(
    alloc: Global,
    out: &mut Vec<Entry<Name>>,
    key: &Name,
    values: &[LentTerm<'_>],
) -> Result<(), AllocError>
    ensures { OnOk result (out.new.items ≡ out.old.items ++ numbered key.now 1 values.now) }
{
    for (at, value) in values.iter().enumerate() {
        let key = numbered_key(alloc, key, at + 1)?;
        out.push(entry(alloc, key.as_str(), value)?)?;
    }
    Ok(())
}

fn push_lone(
    alloc: Global,
    out: &mut Vec<Entry<Name>>,
    key: &Name,
    values: &[LentTerm<'_>],
) -> Result<(), AllocError>
    ensures { OnOk result (out.new.items ≡ out.old.items ++ lone_entry key.now values.now) }
{
    if let [value] = values {
        out.push(entry(alloc, key.text(), value)?)?;
    }
    Ok(())
}

fn push_entries(
    alloc: Global,
    out: &mut Vec<Entry<Name>>,
    attribute: &Attribute<'_>,
) -> Result<(), AllocError>
    ensures { OnOk result (out.new.items ≡ out.old.items ++ entries_at attribute.now) }
{
    let key = attribute.key.name();
    let values = attribute.values.items();
    match attribute.rule {
        Rule::Mandatory | Rule::Single => push_lone(alloc, out, key, values),
        Rule::Many => push_numbered(alloc, out, key, values),
    }
}

/// Adds the attributes of the keys, in their order.
pub(crate) fn push_all(
    alloc: Global,
    out: &mut Vec<Entry<Name>>,
    attributes: &[Attribute<'_>],
) -> Result<(), AllocError>
    ensures { OnOk result (out.new.items ≡ out.old.items ++ entries_of attributes.now) }
{
    for attribute in attributes {
        push_entries(alloc, out, attribute)?;
    }
    Ok(())
}

fn push_times<'a>(out: &mut Vec<LentName<'a>>, attribute: &Attribute<'a>) -> Result<(), AllocError>
    ensures { OnOk result (out.new.items ≡ out.old.items ++ times_at attribute.now) }
{
    if attribute.key.name().text() != "time:timestamp" {
        return Ok(());
    }
    for value in attribute.values.items() {
        if let Some(time) = value.time() {
            out.push(time)?;
        }
    }
    Ok(())
}

/// The times that the keys give an event, in canonical text.
pub(crate) fn times<'a>(
    alloc: Global,
    attributes: &[Attribute<'a>],
) -> Result<Vec<LentName<'a>>, AllocError>
    ensures { IfOk result (λ v. v.items ≡ times_of attributes.now) }
{
    let mut out = Vec::new(alloc);
    for attribute in attributes {
        push_times(&mut out, attribute)?;
    }
    Ok(out)
}
