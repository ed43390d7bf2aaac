//! Which annotations a log can be made of.
ghost use Rattle.std.specs.Prelude.{◌≡◌, option_map};
ghost use Rattle.annotation_language.specs.Complete.{event_lack, events_lack, lack_of};
ghost use Rattle.annotation_language.specs.Reading.{fault_of, completed};

use crate::notes::{Annotations, EventNote};
use line_lexer::LineFault;

/// Whether nothing is lacking, else the first that is: the case query, with line 0, or what an event lacks, with the
/// event's line.
pub fn complete(notes: &Annotations) -> Result<(), (u32, LineFault)>
    ensures { result ≡ completed (lack_of notes.now) }
{
    if notes.case_query.is_none() {
        return Err((0, LineFault::NoCase));
    }
    match events_lack(notes.events.items()) {
        Some(lack) => Err(lack),
        None => Ok(()),
    }
}

// What the first event that lacks something lacks first.
fn events_lack(events: &[EventNote]) -> Option<(u32, LineFault)>
    ensures { result ≡ option_map fault_of (events_lack events.now) }
{
    for event in events {
        if let Some(lack) = event_lack(event) {
            return Some(lack);
        }
    }
    None
}

fn event_lack(event: &EventNote) -> Option<(u32, LineFault)>
    ensures { result ≡ option_map fault_of (event_lack event.now) }
{
    if event.cases.is_none() {
        return Some((event.line, LineFault::NoCases));
    }
    if !event.has_key("time:timestamp") {
        return Some((event.line, LineFault::NoTime));
    }
    if !event.has_key("concept:name") {
        return Some((event.line, LineFault::NoActivity));
    }
    None
}
