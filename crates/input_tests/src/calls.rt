// Each call of an input.
use arrival_spec::InputSpec;
use col_base::{Lifetimes, Octets, Text, Transport};
use config_spec::InputConf;
use input_lane::{Inlet, InletAnswer};
use pipeline_message::LaneFault;
use sample_messages::ONE_FLOW;
use session_table::Arrival;
use site_io::{MemorySource, Scripted};
use std::alloc::Global;
use std::process::Abort;
use std::test::Fail;

/// An input over TCP that takes three events.
fn conf(alloc: Global) -> Result<InputConf, Fail> {
    Ok(InputConf {
        spec: InputSpec {
            name: Text::from_str(alloc, "in")?,
            transport: Transport::Tcp,
            place: Text::from_str(alloc, "[::1]:4739")?,
        },
        stop_after: 3,
        life: Lifetimes {
            template: 1800,
            options: 1800,
            late: 1800,
        },
        idle: 600,
    })
}

/// A source of a connection that opens, looks in vain, brings a message and the first octet of another, and closes.
fn source(alloc: Global) -> Result<MemorySource, Fail> {
    let mut script = Vec::new(alloc);
    script.push(Scripted::Opened(7))?;
    script.push(Scripted::NotYet)?;
    script.push(Scripted::Bytes(7, Octets::from_slice(alloc, ONE_FLOW)?))?;
    script.push(Scripted::Bytes(7, Octets::from_slice(alloc, &[0])?))?;
    script.push(Scripted::Closed(7))?;
    Ok(MemorySource::new(script, Vec::new(alloc)))
}

/// Sees that an input closes its session and ends, for good.
fn ends(rt: &impl Abort, inlet: &mut Inlet<MemorySource>) {
    assert!(rt;
        matches!(inlet.next(), InletAnswer::Got(Arrival::SessionClose(key)) if key.input == 5)
    );
    for _ in 0..2 {
        assert!(rt; matches!(inlet.next(), InletAnswer::Got(Arrival::End)));
    }
}

/// An input gives its arrivals up to its limit, tells what it counted, and gives back the source with what is left.
#[test]
fn an_input_gives_what_its_source_gave(rt: HostRuntime) -> Result<(), Fail> {
    let alloc = rt.alloc();
    let Ok(mut inlet) = Inlet::new(alloc, &conf(alloc)?, 5, source(alloc)?) else {
        return Err("memory".into());
    };
    assert!(rt;
        matches!(
            inlet.next(),
            InletAnswer::Got(Arrival::SessionOpen(_, Transport::Tcp))
        )
    );
    assert!(rt; matches!(inlet.next(), InletAnswer::NotYet));
    assert!(rt;
        matches!(inlet.next(), InletAnswer::Got(Arrival::Raw(_, octets)) if octets.as_slice() == ONE_FLOW)
    );
    ends(&rt, &mut inlet);
    assert!(rt; inlet.fault() == LaneFault::Nothing);
    let counts = inlet.counts();
    assert!(rt; counts.sessions == 1 && counts.torn == 1 && counts.stray == 0);
    assert!(rt; inlet.end().as_slice() == [Scripted::Closed(7)].as_slice());
    Ok(())
}
