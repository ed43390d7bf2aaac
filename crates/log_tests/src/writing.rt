//! The text of a small log.
use std::alloc::{AllocError, Global};
use std::test::Fail;
use vocabulary::{List, Name, Side, ValueKind};
use xes_writer::{Entry, EventRow, Log, TraceRow, log_text};

const TEXT: &str = "<?xml version=\"1.0\" encoding=\"UTF-8\"?>
<log xes.version=\"1849.2016\" xes.features=\"\">
  <extension name=\"Concept\" prefix=\"concept\" uri=\"http://www.xes-standard.org/concept.xesext\"/>
  <extension name=\"Time\" prefix=\"time\" uri=\"http://www.xes-standard.org/time.xesext\"/>
  <extension name=\"Organizational\" prefix=\"org\" uri=\"http://www.xes-standard.org/org.xesext\"/>
  <extension name=\"Lifecycle\" prefix=\"lifecycle\" uri=\"http://www.xes-standard.org/lifecycle.xesext\"/>
  <trace>
    <string key=\"object\" value=\"http://conf.org/paper/1\"/>
    <string key=\"concept:name\" value=\"Chase &amp; Match\"/>
    <event>
      <date key=\"time:timestamp\" value=\"2024-03-01T09:00:00.000+00:00\"/>
    </event>
  </trace>
</log>
";

const TIME: &str = "2024-03-01T09:00:00.000+00:00";

fn entry(alloc: Global, key: &str, side: Side, value: &str) -> Result<Entry<Name>, AllocError> {
    Ok(Entry {
        key: Name::new(alloc, key)?,
        side,
        value: Name::new(alloc, value)?,
    })
}

fn event(alloc: Global) -> Result<EventRow<Name>, AllocError> {
    let mut entries = List::new(alloc);
    entries.push(entry(alloc, "time:timestamp", Side::Value(ValueKind::Time), TIME)?)?;
    Ok(EventRow { entries })
}

fn events(alloc: Global) -> Result<List<EventRow<Name>>, AllocError> {
    let mut events = List::new(alloc);
    events.push(event(alloc)?)?;
    Ok(events)
}

fn entries(alloc: Global) -> Result<List<Entry<Name>>, AllocError> {
    let mut entries = List::new(alloc);
    entries.push(entry(alloc, "object", Side::Object, "http://conf.org/paper/1")?)?;
    let text = Side::Value(ValueKind::Text);
    entries.push(entry(alloc, "concept:name", text, "Chase & Match")?)?;
    Ok(entries)
}

fn small_log(alloc: Global) -> Result<Log<Name>, AllocError> {
    let entries = entries(alloc)?;
    let events = events(alloc)?;
    let mut traces = List::new(alloc);
    traces.push(TraceRow { entries, events })?;
    Ok(Log { traces })
}

fn is_written(alloc: Global) -> Result<bool, AllocError> {
    let log = small_log(alloc)?;
    Ok(log_text(alloc, &log)?.as_slice() == TEXT.as_bytes())
}

#[test]
fn a_small_log_is_written(rt: HostRuntime) -> Result<(), Fail> {
    assert!(rt; is_written(rt.alloc())?);
    Ok(())
}
