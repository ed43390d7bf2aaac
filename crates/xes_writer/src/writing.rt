//! The XES text of a log, on its way to a sink.
ghost use Rattle.std.specs.Prelude.{◌≡◌, ◌++◌, Err, OnOk, OnErr, IsTrue, codes};
ghost use Rattle.std.specs.List.{flat_map};
ghost use Rattle.std.specs.Io.KnownBytes.{Appends};
ghost use Rattle.outside.specs.Counts.{CountsWrite};
ghost use Rattle.outside.specs.Written.{AppendsFront};
ghost use Rattle.xes_writer.specs.Gathered.{Puts};
ghost use Rattle.xes_writer.specs.Xes.{element_name, entry_text, event_text, trace_text, xes_text};

use crate::gather::Gather;
use crate::{Entry, EventRow, Log, TraceRow};
use outside::{Sink, Stop};
use vocabulary::{Name, Side, ValueKind};

const FRONT: &[u8] =
    b"<?xml version=\"1.0\" encoding=\"UTF-8\"?>\n<log xes.version=\"1849.2016\" xes.features=\"\">\n  <extension name=\"Concept\" prefix=\"concept\" uri=\"http://www.xes-standard.org/concept.xesext\"/>\n  <extension name=\"Time\" prefix=\"time\" uri=\"http://www.xes-standard.org/time.xesext\"/>\n  <extension name=\"Organizational\" prefix=\"org\" uri=\"http://www.xes-standard.org/org.xesext\"/>\n  <extension name=\"Lifecycle\" prefix=\"lifecycle\" uri=\"http://www.xes-standard.org/lifecycle.xesext\"/>\n";

// The front of an attribute of this sort, up to its key.
fn entry_front(side: Side) -> &'static [u8]
    ensures { result.now ≡ codes "<" ++ element_name side ++ codes " key=\"" }
{
    match side {
        Side::Object => b"<string key=\"",
        Side::Value(ValueKind::Text) => b"<string key=\"",
        Side::Value(ValueKind::Int) => b"<int key=\"",
        Side::Value(ValueKind::Bool) => b"<boolean key=\"",
        Side::Value(ValueKind::Time) => b"<date key=\"",
    }
}

fn put_entry<O: Sink>(gather: &mut Gather, out: &mut O, indent: &[u8], entry: &Entry<Name>)
    ensures { Puts O.written O.wants O.failed O.faults out.old gather.old out.new gather.new (entry_text indent.now entry.now) }
{
    gather.put(out, indent);
    gather.put(out, entry_front(entry.side));
    gather.put_escaped(out, entry.key.text().as_bytes());
    gather.put(out, b"\" value=\"");
    gather.put_escaped(out, entry.value.text().as_bytes());
    gather.put(out, b"\"/>\n");
}

fn put_entries<O: Sink>(gather: &mut Gather, out: &mut O, indent: &[u8], entries: &[Entry<Name>])
    ensures { Puts O.written O.wants O.failed O.faults out.old gather.old out.new gather.new (flat_map (entry_text indent.now) entries.now) }
{
    for entry in entries {
        put_entry(gather, out, indent, entry);
    }
}

fn put_event<O: Sink>(gather: &mut Gather, out: &mut O, event: &EventRow<Name>)
    ensures { Puts O.written O.wants O.failed O.faults out.old gather.old out.new gather.new (event_text event.now) }
{
    gather.put(out, b"    <event>\n");
    put_entries(gather, out, b"      ", event.entries.items());
    gather.put(out, b"    </event>\n");
}

fn put_events<O: Sink>(gather: &mut Gather, out: &mut O, events: &[EventRow<Name>])
    ensures { Puts O.written O.wants O.failed O.faults out.old gather.old out.new gather.new (flat_map event_text events.now) }
{
    for event in events {
        put_event(gather, out, event);
    }
}

fn put_trace<O: Sink>(gather: &mut Gather, out: &mut O, trace: &TraceRow<Name>)
    ensures { Puts O.written O.wants O.failed O.faults out.old gather.old out.new gather.new (trace_text trace.now) }
{
    gather.put(out, b"  <trace>\n");
    put_entries(gather, out, b"    ", trace.entries.items());
    put_events(gather, out, trace.events.items());
    gather.put(out, b"  </trace>\n");
}

fn put_traces<O: Sink>(gather: &mut Gather, out: &mut O, traces: &[TraceRow<Name>])
    ensures { Puts O.written O.wants O.failed O.faults out.old gather.old out.new gather.new (flat_map trace_text traces.now) }
{
    for trace in traces {
        put_trace(gather, out, trace);
    }
}

fn put_log<O: Sink>(gather: &mut Gather, out: &mut O, log: &Log<Name>)
    ensures { Puts O.written O.wants O.failed O.faults out.old gather.old out.new gather.new (xes_text log.now) }
{
    gather.put(out, FRONT);
    put_traces(gather, out, log.traces.items());
    gather.put(out, b"</log>\n");
}

/// Writes the XES text of a log of texts, in pieces of 4,096 bytes and a last one that may be shorter.
/// It takes no memory. After an `Err` a front of the text was written, and none after the call that
/// failed.
pub fn write_log<O: Sink>(log: &Log<Name>, out: &mut O) -> Result<(), Stop>
    ensures ok { OnOk result (Appends (O.written out.old) (O.written out.new) (xes_text log.now)) }
    ensures err { OnErr result (AppendsFront (O.written out.old) (O.written out.new) (xes_text log.now)) }
    ensures memory { result ≡ Err Stop.NoMemory → IsTrue (O.wants out.old) }
    ensures last { result ≡ Err Stop.Failed → IsTrue (O.failed out.new) }
    ensures wants { O.wants out.new ≡ O.wants out.old }
    ensures counts { CountsWrite (O.faults out.old) (O.faults out.new) result }
{
    let mut gather = Gather::new();
    put_log(&mut gather, out, log);
    gather.flush(out);
    gather.done()
}
