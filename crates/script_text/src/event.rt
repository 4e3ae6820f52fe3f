// The events of a source.
ghost use Rattle.std.specs.Prelude.{IfOk, IsTrue};
ghost use Rattle.site_io.specs.Script.{fits};

use crate::fault::Fault;
use crate::part::{number, number32, octets, parts_of};
use col_base::Octets;
use site_io::{PeerKey, Scripted};
use std::alloc::Global;

/// The most octets that an event may have.
const MOST: usize = 65535;

/// Octets of a connection.
fn bytes(connection: u32, octets: Octets) -> Result<Scripted, Fault>
    ensures { IfOk result (λ event. IsTrue (fits event)) }
{
    if octets.is_empty() || octets.len() > MOST {
        return Err(Fault::Wrong("from 1 to 65535 octets are wanted"));
    }
    Ok(Scripted::Bytes(connection, octets))
}

/// A datagram.
fn datagram(peer: PeerKey, octets: Octets) -> Result<Scripted, Fault>
    ensures { IfOk result (λ event. IsTrue (fits event)) }
{
    if octets.len() > MOST {
        return Err(Fault::Wrong("up to 65535 octets are wanted"));
    }
    Ok(Scripted::Datagram(peer, octets))
}

/// The peer of these parts.
fn peer(high: &str, low: &str, port: &str) -> Result<PeerKey, Fault> {
    Ok(PeerKey {
        high: number(high, u64::MAX)?,
        low: number(low, u64::MAX)?,
        port: number(port, 65535)? as u16,
    })
}

/// The event that a line says.
pub fn event_of(alloc: Global, line: &str) -> Result<Scripted, Fault>
    ensures { IfOk result (λ event. IsTrue (fits event)) }
{
    let parts = parts_of(alloc, line)?;
    match parts.as_slice() {
        ["opened", connection] => Ok(Scripted::Opened(number32(connection)?)),
        ["bytes", connection, given] => bytes(number32(connection)?, octets(alloc, given)?),
        ["datagram", high, low, port, given] => {
            datagram(peer(high, low, port)?, octets(alloc, given)?)
        }
        ["closed", connection] => Ok(Scripted::Closed(number32(connection)?)),
        ["tick", seconds] => Ok(Scripted::Tick(number32(seconds)?)),
        ["notyet"] => Ok(Scripted::NotYet),
        _ => Err(Fault::Wrong("an event is wanted")),
    }
}
