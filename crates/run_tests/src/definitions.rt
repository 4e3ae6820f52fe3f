// What a run of `collect` keeps of definitions.
ghost use Rattle.std.specs.Prelude.{◌≡◌, IsTrue, IfOk, length};
ghost use Rattle.std.specs.List.{list_all};
ghost use Rattle.site_io.specs.Script.{fits};

use col_base::{Octets, Text};
use collector_top::collect_main;
use site_io::{MemorySink, MemorySite, MemorySource, NamedSink, NamedSource, NamedText, Scripted};
use std::alloc::{AllocError, Global};
use std::fs;
use std::rt::Clock;
use std::sync::Wait;
use std::test::Fail;

/// One input over TCP, a filter that keeps all records, and lines of JSON.
const DESCRIPTION: &str = "version = 1
[[input]]
name = \"in\"
kind = \"tcp\"
listen = \"[::1]:4739\"
[[intermediate]]
name = \"all\"
kind = \"filter\"
rule = [{ id = 1, test = \"present\", act = \"drop\" }]
[[output]]
name = \"out\"
kind = \"json\"
path = \"OUT\"
";

/// The front of a message with a template and a record, up to its domain.
const FRONT: &[u8] = &[0, 10, 0, 40, 0, 0, 0, 100, 0, 0, 0, 0];

/// The front of a message with a withdrawal.
const WITHDRAWING: &[u8] = &[0, 10, 0, 24, 0, 0, 0, 100, 0, 0, 0, 1];

/// How many messages come.
const MESSAGES: u32 = 100_000;

/// By how many KiB the heaps of two runs may differ. What is made of a definition takes about one.
const SPREAD: u64 = 4_000;

/// How the messages come.
#[derive(Clone, Copy)]
enum Brought {
    /// One connection brings all, with definitions of one Template ID.
    Together,
    /// Each is brought by a connection of its own, which closes then.
    Alone,
    /// One connection brings all. Each definition has its own Template ID, and is withdrawn.
    Withdrawn,
}

/// The events of a source.
#[derive(Drop)]
struct Events {
    events: Vec<Scripted>,
    ghost lengths: { IsTrue (list_all fits events.items) },
}

impl Events {
    fn new(alloc: Global) -> Self {
        Events {
            events: Vec::new(alloc),
        }
    }

    fn push(&mut self, event: Scripted) -> Result<(), AllocError>
        requires { IsTrue (fits event) }
    {
        self.events.push(event)?;
        Ok(())
    }

    fn into_source(self, alloc: Global) -> MemorySource {
        let Events { events } = self;
        MemorySource::new(events, Vec::new(alloc))
    }
}

/// The domain and the Template ID of a definition.
fn template_of(brought: Brought, definition: u32) -> (u32, u16) {
    match brought {
        Brought::Together | Brought::Alone => (1, 256),
        Brought::Withdrawn => (
            definition / 50_000,
            u16::try_from(definition % 50_000)
                .unwrap_or(0)
                .saturating_add(256),
        ),
    }
}

/// A message with a definition of element 1 of an enterprise, and with a record.
fn message_of(
    alloc: Global,
    domain: u32,
    template: u16,
    enterprise: u32,
) -> Result<Octets, AllocError>
    ensures { IfOk result (λ message. length message ≡ 40) }
{
    let mut octets = Vec::new(alloc);
    octets.extend_from_slice(FRONT)?;
    octets.extend_from_slice(&domain.to_be_bytes())?;
    octets.extend_from_slice(&[0, 2, 0, 16])?;
    octets.extend_from_slice(&template.to_be_bytes())?;
    octets.extend_from_slice(&[0, 1, 128, 1, 0, 4])?;
    octets.extend_from_slice(&enterprise.to_be_bytes())?;
    octets.extend_from_slice(&template.to_be_bytes())?;
    octets.extend_from_slice(&[0, 8, 0, 0, 0, 7])?;
    Ok(Octets::from_vec(octets))
}

/// A message that withdraws a template.
fn withdrawal_of(alloc: Global, domain: u32, template: u16) -> Result<Octets, AllocError>
    ensures { IfOk result (λ message. length message ≡ 24) }
{
    let mut octets = Vec::new(alloc);
    octets.extend_from_slice(WITHDRAWING)?;
    octets.extend_from_slice(&domain.to_be_bytes())?;
    octets.extend_from_slice(&[0, 2, 0, 8])?;
    octets.extend_from_slice(&template.to_be_bytes())?;
    octets.extend_from_slice(&[0, 0])?;
    Ok(Octets::from_vec(octets))
}

/// The events by which a message comes.
fn push_message(
    alloc: Global,
    events: &mut Events,
    brought: Brought,
    number: u32,
    definition: u32,
) -> Result<(), AllocError> {
    let (domain, template) = template_of(brought, definition);
    let enterprise = definition.saturating_add(1_000_000);
    let message = message_of(alloc, domain, template, enterprise)?;
    match brought {
        Brought::Together => events.push(Scripted::Bytes(MESSAGES, message)),
        Brought::Alone => {
            events.push(Scripted::Opened(number))?;
            events.push(Scripted::Bytes(number, message))?;
            events.push(Scripted::Closed(number))
        }
        Brought::Withdrawn => {
            events.push(Scripted::Bytes(MESSAGES, message))?;
            let message = withdrawal_of(alloc, domain, template)?;
            events.push(Scripted::Bytes(MESSAGES, message))
        }
    }
}

/// The messages. So many in a row have one definition.
fn events_of(alloc: Global, brought: Brought, row: u32) -> Result<Events, AllocError> {
    let mut events = Events::new(alloc);
    events.push(Scripted::Opened(MESSAGES))?;
    for number in 0..MESSAGES {
        let definition = number.checked_div(row).unwrap_or(0);
        push_message(alloc, &mut events, brought, number, definition)?;
    }
    Ok(events)
}

/// A site with the description, the source of its input and the sink of its output.
fn site_of(alloc: Global, events: Events) -> Result<MemorySite, AllocError> {
    let mut texts = Vec::new(alloc);
    texts.push(NamedText {
        name: Text::from_str(alloc, "CONF")?,
        octets: Octets::from_slice(alloc, DESCRIPTION.as_bytes())?,
    })?;
    let mut sources = Vec::new(alloc);
    sources.push(NamedSource {
        place: Text::from_str(alloc, "[::1]:4739")?,
        source: events.into_source(alloc),
    })?;
    let mut sinks = Vec::new(alloc);
    sinks.push(NamedSink {
        name: Text::from_str(alloc, "OUT")?,
        sink: MemorySink::new(alloc, Vec::new(alloc)),
    })?;
    Ok(MemorySite::new(alloc, texts, sources, sinks))
}

/// How many KiB of memory the process had at most.
fn peak(rt: &HostRuntime) -> Result<u64, Fail> {
    let text = fs::read_to_string(rt, "/proc/self/status")?;
    for line in text.lines() {
        if let Some(amount) = line.strip_prefix("VmHWM:") {
            let amount = amount.trim().split(' ').next().unwrap_or("");
            return match amount.parse::<u64>() {
                Ok(amount) => Ok(amount),
                Err(_) => Err("a number is wanted".into()),
            };
        }
    }
    Err("a line of the peak is wanted".into())
}

/// A run over the messages.
fn run<R: Wait + Clock>(alloc: Global, rt: &R, brought: Brought, row: u32) -> Result<(), Fail> {
    let mut site = site_of(alloc, events_of(alloc, brought, row)?)?;
    let mut words = Vec::new(alloc);
    for word in ["collect", "-c", "CONF"] {
        words.push(String::from_str(alloc, word)?)?;
    }
    if collect_main(alloc, rt, &words, &mut site) != 0 {
        return Err("status 0 is wanted".into());
    }
    let lines = site.shown("OUT").ok_or("the lines are wanted")?;
    let mut count: u32 = 0;
    for octet in lines {
        if *octet == b'\n' {
            count = count.saturating_add(1);
        }
    }
    if count != MESSAGES {
        return Err("a line for each record is wanted".into());
    }
    Ok(())
}

/// Over messages with 100,000 definitions a run has no more memory than over as many with 1,000. The first run leaves the
/// heap as the others find it.
#[test]
fn definitions_that_change_leave_no_memory(rt: HostRuntime) -> Result<(), Fail> {
    run(rt.alloc(), &rt, Brought::Together, 100)?;
    run(rt.alloc(), &rt, Brought::Together, 100)?;
    let before = peak(&rt)?;
    run(rt.alloc(), &rt, Brought::Together, 1)?;
    let behind = peak(&rt)?;
    assert!(rt;
        behind <= before.saturating_add(SPREAD),
        "{before} KiB, {behind} KiB"
    );
    Ok(())
}

/// The same where each definition comes in a session of its own, which closes.
#[test]
fn definitions_of_closed_sessions_leave_no_memory(rt: HostRuntime) -> Result<(), Fail> {
    run(rt.alloc(), &rt, Brought::Alone, 100)?;
    run(rt.alloc(), &rt, Brought::Alone, 100)?;
    let before = peak(&rt)?;
    run(rt.alloc(), &rt, Brought::Alone, 1)?;
    let behind = peak(&rt)?;
    assert!(rt;
        behind <= before.saturating_add(SPREAD),
        "{before} KiB, {behind} KiB"
    );
    Ok(())
}

/// The same where each definition has a Template ID of its own and is withdrawn.
#[test]
fn definitions_that_are_withdrawn_leave_no_memory(rt: HostRuntime) -> Result<(), Fail> {
    run(rt.alloc(), &rt, Brought::Withdrawn, 100)?;
    run(rt.alloc(), &rt, Brought::Withdrawn, 100)?;
    let before = peak(&rt)?;
    run(rt.alloc(), &rt, Brought::Withdrawn, 1)?;
    let behind = peak(&rt)?;
    assert!(rt;
        behind <= before.saturating_add(SPREAD),
        "{before} KiB, {behind} KiB"
    );
    Ok(())
}
