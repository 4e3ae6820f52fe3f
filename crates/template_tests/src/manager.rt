// Template records one after another, and what they leave, as lists of calls.
use col_base::{Kind, Lifetimes, SnapRef, Transport};
use std::alloc::Global;
use std::sync::Arc;
use std::test::Fail;
use template_def::{Definition, well_formed};
use template_manager::{Manager, Need, Resolved, Taken, Touch};
use template_snapshot::Snapshot;

/// Half an hour for all.
const USUAL: Lifetimes = Lifetimes {
    template: 1800,
    options: 1800,
    late: 1800,
};

/// The definition of records of one element in 4 octets.
fn single(alloc: Global, element: u8) -> Result<Arc<Definition>, Fail> {
    let specs = [0, element, 0, 4];
    if !well_formed(0, &specs) {
        return Err("no definition".into());
    }
    let definition = Definition::read(alloc, Kind::Template, 0, &specs)?;
    Ok(Arc::new(alloc, definition)?)
}

/// A message of an export time that has one thing in it, of template 256.
#[derive(Clone, Copy, Debug)]
enum Message {
    /// A definition by an element.
    Define(u32, u8),
    Withdraw(u32),
    Data(u32),
}

/// What comes of a message.
#[derive(Clone, Copy, Debug, PartialEq, Eq)]
enum Outcome {
    Late,
    Took(Taken),
    /// The element of the definition that data is decoded by.
    Decoded(u16),
    Skipped,
}

/// The element of what was resolved.
fn decoded(resolved: Resolved<'_>) -> Outcome {
    match resolved {
        Resolved::Template(definition) => match definition.fields().first() {
            Some(field) => Outcome::Decoded(field.id),
            None => Outcome::Skipped,
        },
        Resolved::NoTemplate => Outcome::Skipped,
    }
}

/// Hands a manager a message.
fn hand(alloc: Global, manager: &mut Manager, message: Message) -> Result<Outcome, Fail> {
    let export = match message {
        Message::Define(export, _) | Message::Withdraw(export) | Message::Data(export) => export,
    };
    manager.arrived(export);
    if manager.late(export) {
        return Ok(Outcome::Late);
    }
    let touch = match message {
        Message::Define(_, element) => Touch::Define(256, single(alloc, element)?),
        Message::Withdraw(_) => Touch::Withdraw(256),
        Message::Data(_) => return Ok(decoded(manager.resolve(export, 256))),
    };
    Ok(Outcome::Took(manager.take(touch, export)?))
}

/// A withdrawal ends a template over TCP, and plays no part over UDP.
#[test]
fn withdrawals_count_by_transport(rt: HostRuntime) -> Result<(), Fail> {
    let messages = [
        Message::Define(100, 8),
        Message::Data(100),
        Message::Withdraw(100),
        Message::Data(100),
        Message::Define(100, 8),
        Message::Data(100),
    ];
    let ended = [
        Outcome::Took(Taken::New),
        Outcome::Decoded(8),
        Outcome::Took(Taken::Withdrawn),
        Outcome::Skipped,
        Outcome::Took(Taken::New),
        Outcome::Decoded(8),
    ];
    let stayed = [
        Outcome::Took(Taken::New),
        Outcome::Decoded(8),
        Outcome::Took(Taken::Ignored),
        Outcome::Decoded(8),
        Outcome::Took(Taken::Same),
        Outcome::Decoded(8),
    ];
    for (transport, wanted) in [
        (Transport::Tcp, ended),
        (Transport::File, ended),
        (Transport::Udp, stayed),
    ] {
        let mut manager = Manager::new(rt.alloc(), transport, USUAL);
        for (message, want) in messages.iter().zip(&wanted) {
            assert_eq!(rt;
                hand(rt.alloc(), &mut manager, *message)?,
                *want,
                "{transport:?}"
            );
        }
    }
    Ok(())
}

/// Over UDP, of the definitions up to an export time the newest serves, for half an hour, and older messages than that
/// are late.
#[test]
fn definitions_serve_by_export_time(rt: HostRuntime) -> Result<(), Fail> {
    let lists: [&[(Message, Outcome)]; 3] = [
        &[
            (Message::Define(100, 8), Outcome::Took(Taken::New)),
            (Message::Define(200, 12), Outcome::Took(Taken::Redefined)),
            (Message::Define(120, 15), Outcome::Took(Taken::Redefined)),
            (Message::Data(150), Outcome::Decoded(15)),
            (Message::Data(199), Outcome::Decoded(15)),
            (Message::Data(200), Outcome::Decoded(12)),
            (Message::Data(119), Outcome::Decoded(8)),
            (Message::Data(99), Outcome::Skipped),
        ],
        &[
            (Message::Define(100, 8), Outcome::Took(Taken::New)),
            (Message::Data(1900), Outcome::Decoded(8)),
            (Message::Data(1901), Outcome::Skipped),
        ],
        &[
            (Message::Data(5000), Outcome::Skipped),
            (Message::Define(3200, 8), Outcome::Took(Taken::New)),
            (Message::Define(3199, 12), Outcome::Late),
            (Message::Data(5000), Outcome::Decoded(8)),
        ],
    ];
    for list in lists {
        let mut manager = Manager::new(rt.alloc(), Transport::Udp, USUAL);
        for (message, want) in list {
            assert_eq!(rt;
                hand(rt.alloc(), &mut manager, *message)?,
                *want,
                "{message:?}"
            );
        }
    }
    Ok(())
}

/// Makes a snapshot live of the table that is needed.
fn make(manager: &mut Manager, at: SnapRef) -> Result<Arc<Snapshot>, Fail> {
    match manager.need()? {
        Need::Make(table) => {
            manager.made(at);
            Ok(table)
        }
        Need::Have(_) => Err("there is a live one".into()),
    }
}

/// The snapshot that is live.
fn live(manager: &mut Manager) -> Result<Option<SnapRef>, Fail> {
    match manager.need()? {
        Need::Have(at) => Ok(Some(at)),
        Need::Make(_) => Ok(None),
    }
}

/// A snapshot stays live while the same definition comes again. Another one retires it, and it still gives what it had.
#[test]
fn a_change_retires_the_snapshot(rt: HostRuntime) -> Result<(), Fail> {
    let alloc = rt.alloc();
    let at = SnapRef {
        slot: 3,
        generation: 7,
    };
    for transport in [Transport::Tcp, Transport::Udp] {
        let mut manager = Manager::new(alloc, transport, USUAL);
        hand(alloc, &mut manager, Message::Define(100, 8))?;
        assert_eq!(rt; live(&mut manager)?, None);
        let table = make(&mut manager, at)?;
        assert_eq!(rt; live(&mut manager)?, Some(at));
        hand(alloc, &mut manager, Message::Define(110, 8))?;
        assert_eq!(rt; live(&mut manager)?, Some(at));
        assert_eq!(rt; (manager.live(), manager.next_retired()), (1, None));
        hand(alloc, &mut manager, Message::Define(120, 12))?;
        assert_eq!(rt; manager.live(), 0);
        assert_eq!(rt; manager.next_retired(), Some(at));
        assert_eq!(rt; manager.next_retired(), None);
        let elements = [(100, 256), (99, 256), (100, 257)].map(|(export, id)| table
            .get(export, id)
            .and_then(|d| d.fields().first())
            .map(|f| f.id));
        let early = if let Transport::Tcp = transport {
            Some(8)
        } else {
            None
        };
        assert_eq!(rt; elements, [Some(8), early, None]);
    }
    Ok(())
}
