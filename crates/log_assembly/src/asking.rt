//! Asking what annotations ask.
ghost use Rattle.std.specs.Prelude.{◌≡◌, IfOk, IfErr, option_copied};
ghost use Rattle.vocabulary.specs.Lists.{In, Pairwise};
ghost use Rattle.annotation_language.specs.Askable.{AreAskable, EventIsAskable, IfAskable, SourceIsAskable};
ghost use Rattle.certain_semantics.specs.Certain.{IsCertain};
ghost use Rattle.log_assembly.specs.Answered.{AreAnswersOf, AreAsked, AsksTooWide, EventIsTooWide, HasOne, IsEventAsked, IsInOrder, KeyIsTooWide, MayBeTooWide, query_of};
ghost use Rattle.mapping_facts.specs.Facts.{mapped_facts};

use crate::{Asked, AskedEvent};
use annotation_language::{Annotations, EventNote, KeyNote, KeySource};
use certain_answers::{Answers, Specification, answers};
use perfect_rewriting::RewriteFault;
use queries::Query;
use source_tables::Table;
use std::alloc::Global;
use vocabulary::List;

// Where there is no query there is no answer.
fn ask_query(
    alloc: Global,
    query: Option<&Query>,
    specification: &Specification,
    tables: &[Table],
) -> Result<Answers, RewriteFault>
    requires { IfAskable (option_copied query) }
    ensures answers { IfOk result (AreAnswersOf (IsCertain specification.now.axioms (mapped_facts specification.now.mappings tables.now)) (option_copied query.entry)) }
    ensures narrow { IfOk result (λ a. MayBeTooWide specification.now.axioms (option_copied query.entry) → ⊥) }
    ensures wide { IfErr result (λ fault. fault ≡ RewriteFault.TooWide → MayBeTooWide specification.now.axioms (option_copied query.entry)) }
{
    match query {
        Some(query) => answers(alloc, specification, tables, query),
        None => Ok(Answers {
            tuples: List::new(alloc),
        }),
    }
}

fn query_of(source: &KeySource) -> Option<&Query>
    ensures { option_copied result ≡ query_of source.now }
{
    match source {
        KeySource::Fixed(_, _) => None,
        KeySource::Asked(query, _) => Some(query),
    }
}

fn ask_key(
    alloc: Global,
    key: &KeyNote,
    specification: &Specification,
    tables: &[Table],
) -> Result<Answers, RewriteFault>
    requires { SourceIsAskable key.now.source }
    ensures answers { IfOk result (AreAnswersOf (IsCertain specification.now.axioms (mapped_facts specification.now.mappings tables.now)) (query_of key.now.source)) }
    ensures narrow { IfOk result (λ a. KeyIsTooWide specification.now.axioms key.now → ⊥) }
    ensures wide { IfErr result (λ fault. fault ≡ RewriteFault.TooWide → KeyIsTooWide specification.now.axioms key.now) }
{
    ask_query(alloc, query_of(&key.source), specification, tables)
}

fn ask_keys(
    alloc: Global,
    keys: &[KeyNote],
    specification: &Specification,
    tables: &[Table],
) -> Result<List<Answers>, RewriteFault>
    requires { (key : KeyNote) → In key keys.now → SourceIsAskable key.source }
    ensures answers { IfOk result (Pairwise (λ key a. AreAnswersOf (IsCertain specification.now.axioms (mapped_facts specification.now.mappings tables.now)) (query_of key.source) a) keys.now) }
    ensures narrow { IfOk result (λ l. HasOne (KeyIsTooWide specification.now.axioms) keys.now → ⊥) }
    ensures wide { IfErr result (λ fault. fault ≡ RewriteFault.TooWide → HasOne (KeyIsTooWide specification.now.axioms) keys.now) }
{
    let mut asked = List::new(alloc);
    for key in keys {
        asked.push(ask_key(alloc, key, specification, tables)?)?;
    }
    Ok(asked)
}

fn ask_event(
    alloc: Global,
    event: &EventNote,
    specification: &Specification,
    tables: &[Table],
) -> Result<AskedEvent, RewriteFault>
    requires { EventIsAskable event.now }
    ensures asked { IfOk result (IsEventAsked (IsCertain specification.now.axioms (mapped_facts specification.now.mappings tables.now)) event.now) }
    ensures narrow { IfOk result (λ a. EventIsTooWide specification.now.axioms event.now → ⊥) }
    ensures wide { IfErr result (λ fault. fault ≡ RewriteFault.TooWide → EventIsTooWide specification.now.axioms event.now) }
{
    let objects = answers(alloc, specification, tables, &event.objects)?;
    let cases = ask_query(alloc, event.cases.as_ref(), specification, tables)?;
    let keys = ask_keys(alloc, event.keys.items(), specification, tables)?;
    Ok(AskedEvent {
        objects,
        cases,
        keys,
    })
}

fn ask_events(
    alloc: Global,
    events: &[EventNote],
    specification: &Specification,
    tables: &[Table],
) -> Result<List<AskedEvent>, RewriteFault>
    requires { (event : EventNote) → In event events.now → EventIsAskable event }
    ensures asked { IfOk result (Pairwise (IsEventAsked (IsCertain specification.now.axioms (mapped_facts specification.now.mappings tables.now))) events.now) }
    ensures narrow { IfOk result (λ l. HasOne (EventIsTooWide specification.now.axioms) events.now → ⊥) }
    ensures wide { IfErr result (λ fault. fault ≡ RewriteFault.TooWide → HasOne (EventIsTooWide specification.now.axioms) events.now) }
{
    let mut asked = List::new(alloc);
    for event in events {
        asked.push(ask_event(alloc, event, specification, tables)?)?;
    }
    Ok(asked)
}

/// The answers of every query that the annotations ask, over the chase of the mapped facts.
pub fn ask(
    alloc: Global,
    notes: &Annotations,
    specification: &Specification,
    tables: &[Table],
) -> Result<Asked, RewriteFault>
    requires { AreAskable notes.now }
    ensures asked { IfOk result (AreAsked (IsCertain specification.now.axioms (mapped_facts specification.now.mappings tables.now)) notes.now) }
    ensures order { IfOk result IsInOrder }
    ensures narrow { IfOk result (λ a. AsksTooWide specification.now.axioms notes.now → ⊥) }
    ensures wide { IfErr result (λ fault. fault ≡ RewriteFault.TooWide → AsksTooWide specification.now.axioms notes.now) }
{
    let cases = ask_query(alloc, notes.case_query(), specification, tables)?;
    let names = ask_query(alloc, notes.case_name(), specification, tables)?;
    let events = ask_events(alloc, notes.events(), specification, tables)?;
    Ok(Asked {
        cases,
        names,
        events,
    })
}
