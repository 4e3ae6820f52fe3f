// What is counted of the messages of a session.
use crate::arrivals::{bring, key, open, parser};
use col_base::{Transport, WantOfMemory};
use pipeline_message::RunCounts;
use sample_messages::{DATA_ALONE, ONE_FLOW, WITHDRAWAL};
use std::alloc::Global;

/// What a parser counts of a session that brings some messages.
fn counts(
    alloc: Global,
    transport: Transport,
    messages: &[&[u8]],
) -> Result<RunCounts, WantOfMemory> {
    let mut parser = parser(alloc, transport)?;
    let key = key(0);
    open(&mut parser, key, transport)?;
    for octets in messages {
        bring(alloc, &mut parser, key, octets)?;
    }
    Ok(parser.counts())
}

/// A template with a record, its withdrawal, a record alone, and the first message again. Over TCP the record alone has no
/// template, and from then on no sequence number is due; over UDP the withdrawal means nothing, and the message that
/// comes again is behind (RFC 7011, sections 3.1 and 8).
const MESSAGES: [&[u8]; 4] = [ONE_FLOW, WITHDRAWAL, DATA_ALONE, ONE_FLOW];

#[test]
fn a_withdrawal_is_taken_over_tcp(rt: HostRuntime) {
    let counts = counts(rt.alloc(), Transport::Tcp, &MESSAGES).expect(&rt, "memory");
    assert!(rt;
        counts
            == RunCounts {
                messages: 4,
                records: 2,
                skipped: 1,
                ..RunCounts::none()
            },
        "{counts:?}"
    );
}

#[test]
fn a_withdrawal_is_ignored_over_udp(rt: HostRuntime) {
    let counts = counts(rt.alloc(), Transport::Udp, &MESSAGES).expect(&rt, "memory");
    assert!(rt;
        counts
            == RunCounts {
                messages: 4,
                records: 3,
                ignored: 1,
                disordered: 1,
                ..RunCounts::none()
            },
        "{counts:?}"
    );
}
