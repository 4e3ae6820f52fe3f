// What a run leaves where memory is wanted.
use col_base::{Octets, Text};
use collector_top::collect_main;
use sample_messages::ONE_FLOW;
use site_io::{MemorySink, MemorySite, MemorySource, NamedSink, NamedSource, Scripted};
use std::alloc::Global;
use std::test::Fail;

/// The line of the flow.
const FLOW: &str =
    "{\"@type\":\"ipfix.entry\",\"iana:sourceIPv4Address\":\"10.0.0.1\",\"iana:destinationIPv4Address\":\"10.0.0.2\",\"iana:octetDeltaCount\":1000}\n";

/// A site whose source at IN gives the flow twice, with a sink OUT.
fn site_of(alloc: Global) -> Result<MemorySite, Fail> {
    let mut script = Vec::new(alloc);
    script.push(Scripted::Opened(0))?;
    script.push(Scripted::Bytes(0, Octets::from_slice(alloc, ONE_FLOW)?))?;
    script.push(Scripted::Bytes(0, Octets::from_slice(alloc, ONE_FLOW)?))?;
    script.push(Scripted::Closed(0))?;
    let mut sources = Vec::new(alloc);
    sources.push(NamedSource {
        place: Text::from_str(alloc, "IN")?,
        source: MemorySource::new(script, Vec::new(alloc)),
    })?;
    let mut sinks = Vec::new(alloc);
    sinks.push(NamedSink {
        name: Text::from_str(alloc, "OUT")?,
        sink: MemorySink::new(alloc, Vec::new(alloc)),
    })?;
    Ok(MemorySite::new(alloc, Vec::new(alloc), sources, sinks))
}

/// How many octets the sink OUT shows, None where they aren't a front of both lines.
fn front_shown(site: &MemorySite) -> Option<usize> {
    let shown = site.shown("OUT")?;
    let line = FLOW.as_bytes();
    let is_front = match shown.strip_prefix(line) {
        Some(more) => line.starts_with(more),
        None => line.starts_with(shown),
    };
    if is_front { Some(shown.len()) } else { None }
}

/// Whether a line on memory was printed, or none.
fn is_of_memory(printed: &[u8]) -> bool {
    printed.is_empty()
        || printed == b"memory\n".as_slice()
        || printed == b"memory: in\n".as_slice()
        || printed == b"memory: out\n".as_slice()
}

/// Where an allocation fails, as `rt try --test --fail-alloc` lets it, the status is 6 and the sink has a front of
/// the text.
#[test]
fn want_of_memory_gives_6_and_leaves_a_front(rt: HostRuntime) -> Result<(), Fail> {
    let alloc = rt.alloc();
    let mut site = site_of(alloc)?;
    let mut words = Vec::new(alloc);
    for word in ["direct", "IN", "OUT"] {
        words.push(String::from_str(alloc, word)?)?;
    }
    let status = collect_main(alloc, &rt, &words, &mut site);
    let printed = site.printed();
    assert!(rt;
        status == 0 && printed.is_empty() || status == 6 && is_of_memory(printed),
        "status {status}"
    );
    let shown = front_shown(&site).ok_or("no front of the lines")?;
    assert!(rt; status == 6 || shown == 2 * FLOW.len());
    assert!(rt; site.left("IN").is_some());
    Ok(())
}
