//! Logs on their way to a sink: what lies across two pieces, and sinks that take little or fail.
use outside::{MemorySink, RoomSink, Sink, Stop, SureSink};
use std::alloc::{AllocError, Global};
use std::test::Fail;
use vocabulary::{List, Name, Side, ValueKind};
use xes_writer::{Entry, Log, TraceRow, write_log};

// The 502 bytes before the value.
const FRONT: &str = "<?xml version=\"1.0\" encoding=\"UTF-8\"?>
<log xes.version=\"1849.2016\" xes.features=\"\">
  <extension name=\"Concept\" prefix=\"concept\" uri=\"http://www.xes-standard.org/concept.xesext\"/>
  <extension name=\"Time\" prefix=\"time\" uri=\"http://www.xes-standard.org/time.xesext\"/>
  <extension name=\"Organizational\" prefix=\"org\" uri=\"http://www.xes-standard.org/org.xesext\"/>
  <extension name=\"Lifecycle\" prefix=\"lifecycle\" uri=\"http://www.xes-standard.org/lifecycle.xesext\"/>
  <trace>
    <string key=\"k\" value=\"";

const BACK: &str = "\"/>
  </trace>
</log>
";

// So many letters between two texts.
fn around(alloc: Global, front: &str, letters: u32, back: &str) -> Result<String, AllocError> {
    let mut text = String::from_str(alloc, front)?;
    for _ in 0..letters {
        text.push_str("a")?;
    }
    text.push_str(back)?;
    Ok(text)
}

fn text_of(alloc: Global, letters: u32) -> Result<String, AllocError> {
    let mut text = around(alloc, FRONT, letters, "&amp;")?;
    text.push_str(BACK)?;
    Ok(text)
}

// One trace without events, whose one value is so many letters and an ampersand.
fn log_of(alloc: Global, letters: u32) -> Result<Log<Name>, AllocError> {
    let value = around(alloc, "", letters, "&")?;
    let mut entries = List::new(alloc);
    entries.push(Entry {
        key: Name::new(alloc, "k")?,
        side: Side::Value(ValueKind::Text),
        value: Name::new(alloc, value.as_str())?,
    })?;
    let mut traces = List::new(alloc);
    traces.push(TraceRow {
        entries,
        events: List::new(alloc),
    })?;
    Ok(Log { traces })
}

fn writes<W: Sink>(log: &Log<Name>, sink: &mut W) -> bool {
    write_log(log, sink).is_ok()
}

// Whether a sink that takes all and one that takes a byte a call both hold the text.
fn both_hold(alloc: Global, letters: u32) -> Result<bool, AllocError> {
    let log = log_of(alloc, letters)?;
    let text = text_of(alloc, letters)?;
    let mut all = SureSink::new(alloc);
    let mut one = MemorySink::new(alloc, 1);
    let wrote = writes(&log, &mut all) && writes(&log, &mut one);
    let want = text.as_str().as_bytes();
    Ok(wrote && all.written() == want && one.written() == want)
}

#[test]
fn an_escape_lies_across_two_pieces(rt: HostRuntime) -> Result<(), Fail> {
    assert!(rt; FRONT.len() == 502);
    // The escape begins with byte 4,095; ends with the first piece; begins the second.
    for letters in [3592, 3589, 3594, 0, 8000] {
        assert!(rt; both_hold(rt.alloc(), letters)?, "{letters}");
    }
    Ok(())
}

// Whether the log stops in a sink with so much room, which then holds the front of the text.
fn fills(alloc: Global, room: usize) -> Result<bool, AllocError> {
    let log = log_of(alloc, 3592)?;
    let text = text_of(alloc, 3592)?;
    let mut sink = RoomSink::new(alloc, room)?;
    let failed = matches!(write_log(&log, &mut sink), Err(Stop::Failed));
    let want = text.as_str().as_bytes();
    Ok(if room < want.len() {
        failed && sink.written() == &want[..room]
    } else {
        !failed && sink.written() == want
    })
}

#[test]
fn a_sink_with_little_room_holds_a_front(rt: HostRuntime) -> Result<(), Fail> {
    for room in [0, 1, 100, 4095, 4096, 4097, 4120, 4121, 5000] {
        assert!(rt; fills(rt.alloc(), room)?, "{room}");
    }
    Ok(())
}

// Whether a sink whose call fails, of calls that take at most 1,000 bytes, holds a front of the text.
fn holds_front(alloc: Global, call: u64, len: usize) -> Result<bool, AllocError> {
    let log = log_of(alloc, 3592)?;
    let text = text_of(alloc, 3592)?;
    let mut sink = MemorySink::new(alloc, 1000);
    sink.fail_at(call)?;
    let failed = matches!(write_log(&log, &mut sink), Err(Stop::Failed));
    let want = text.as_str().as_bytes();
    Ok(failed && len <= want.len() && sink.written() == &want[..len])
}

#[test]
fn after_a_failed_call_a_front_stands(rt: HostRuntime) -> Result<(), Fail> {
    // The first piece takes five calls, of which the last takes 96 bytes.
    for (call, len) in [(1, 0), (2, 1000), (5, 4000), (6, 4096)] {
        assert!(rt; holds_front(rt.alloc(), call, len)?, "{call}");
    }
    Ok(())
}

#[test]
fn a_sink_takes_what_fits_and_no_more(rt: HostRuntime) -> Result<(), Fail> {
    let mut sink = RoomSink::new(rt.alloc(), 3)?;
    assert!(rt; sink.write(b"ab") == Ok(2));
    assert!(rt; sink.write(b"cd") == Ok(1));
    assert!(rt; sink.write(b"") == Ok(0));
    assert!(rt; sink.write(b"e") == Err(Stop::Failed));
    assert!(rt; sink.written() == "abc".as_bytes());
    Ok(())
}
