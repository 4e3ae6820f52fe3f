// What inputs give of a script's sources.
use config_spec::InputConf;
use input_lane::{Inlet, InletAnswer};
use pipeline_message::LaneFault;
use script_text::{Fault, Script, description_of, hexadecimal, key_text, transport_word};
use session_table::Arrival;
use site_io::{MemorySite, MemorySource, Site};
use std::alloc::{AllocError, Global};
use std::fmt::Write;

fn fault_word(fault: LaneFault) -> &'static str {
    match fault {
        LaneFault::Nothing => "nothing",
        LaneFault::Source => "source",
        LaneFault::NoMemory => "memory",
        LaneFault::Sink | LaneFault::Limit(_) => "other",
    }
}

/// The line of an arrival.
fn put_arrival(alloc: Global, text: &mut String, arrival: &Arrival) -> Result<(), AllocError> {
    match arrival {
        Arrival::SessionOpen(key, transport) => {
            let key = key_text(alloc, *key)?;
            let word = transport_word(*transport);
            writeln!(text, "open {key} {word}")
        }
        Arrival::Raw(key, octets) => {
            let key = key_text(alloc, *key)?;
            let octets = hexadecimal(alloc, octets.as_slice())?;
            writeln!(text, "raw {key} {octets}")
        }
        Arrival::SessionClose(key) => {
            let key = key_text(alloc, *key)?;
            writeln!(text, "close {key}")
        }
        Arrival::Periodic(input, seconds) => writeln!(text, "tick {input} {seconds}"),
        Arrival::End => writeln!(text, "end"),
    }
}

/// The line of an answer.
fn put_answer(alloc: Global, text: &mut String, answer: &InletAnswer) -> Result<(), AllocError> {
    match answer {
        InletAnswer::Got(arrival) => put_arrival(alloc, text, arrival),
        InletAnswer::Nothing => writeln!(text, "nothing"),
        InletAnswer::NotYet => writeln!(text, "notyet"),
        InletAnswer::NoMemory => writeln!(text, "memory"),
    }
}

/// All that an input gives up to its end, and what it gives behind that; or up to where memory is wanted.
fn put_answers(
    alloc: Global,
    text: &mut String,
    inlet: &mut Inlet<MemorySource>,
) -> Result<(), AllocError> {
    let mut ended = false;
    for _ in 0..u64::MAX {
        let answer = inlet.next();
        put_answer(alloc, text, &answer)?;
        if ended || matches!(answer, InletAnswer::NoMemory) {
            return Ok(());
        }
        ended = matches!(answer, InletAnswer::Got(Arrival::End));
    }
    Ok(())
}

/// The line of what an input counted, and how it broke.
fn put_counts(
    text: &mut String,
    input: u16,
    inlet: &Inlet<MemorySource>,
) -> Result<(), AllocError> {
    let counts = inlet.counts();
    let fault = fault_word(inlet.fault());
    let sessions = counts.sessions;
    let torn = counts.torn;
    let broken = counts.broken;
    let refused = counts.refused;
    let stray = counts.stray;
    writeln!(
        text,
        "input {input} sessions {sessions} torn {torn} broken {broken} refused {refused} stray {stray} fault {fault}"
    )
}

/// All lines of an input. One whose source is not there, or is out, has the line `input N closed`.
fn put_input(
    alloc: Global,
    text: &mut String,
    site: &mut MemorySite,
    input: u16,
    conf: &InputConf,
) -> Result<(), AllocError> {
    let Ok(source) = site.open_source(&conf.spec) else {
        return writeln!(text, "input {input} closed");
    };
    match Inlet::new(alloc, conf, input, source) {
        Ok(mut inlet) => {
            put_answers(alloc, text, &mut inlet)?;
            put_counts(text, input, &inlet)?;
            site.back_source(&conf.spec, inlet.end());
        }
        Err((_, source)) => {
            writeln!(text, "memory")?;
            site.back_source(&conf.spec, source);
        }
    }
    put_left(text, site, conf)
}

/// The line of how many events a source has left.
fn put_left(text: &mut String, site: &MemorySite, conf: &InputConf) -> Result<(), AllocError> {
    match site.left(conf.spec.place.as_str()) {
        Some(events) => {
            let left = events.len();
            writeln!(text, "left {left}")
        }
        None => Ok(()),
    }
}

/// What the inputs of a script's description give, one behind another, as lines.
pub fn arrivals_text(alloc: Global, script: Script) -> Result<String, Fault> {
    let (_, mut site) = script.into_call(alloc)?;
    let conf = description_of(alloc, &mut site)?;
    let mut text = String::new(alloc);
    let mut input: u16 = 0;
    for each in conf.inputs.as_slice() {
        put_input(alloc, &mut text, &mut site, input, each)?;
        input = input.saturating_add(1);
    }
    Ok(text)
}
