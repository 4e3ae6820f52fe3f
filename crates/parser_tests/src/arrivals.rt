// A parser, and sessions that open, bring messages and close.
ghost use Rattle.std.specs.Prelude.{◌≡◌, ◌+◌, IfOk};
ghost use Rattle.parser_lane.specs.Session.{HasOpen, MayOpen};

use arrival_spec::InputSpec;
use col_base::{Lifetimes, Octets, SessionKey, Text, Transport, WantOfMemory};
use config_spec::InputConf;
use parser_lane::Parser;
use session_table::Arrival;
use std::alloc::{AllocError, Global};
use std::sync::Arc;

/// An input over a transport.
fn conf(alloc: Global, transport: Transport) -> Result<InputConf, WantOfMemory> {
    Ok(InputConf {
        spec: InputSpec {
            name: Text::from_str(alloc, "in")?,
            transport,
            place: Text::from_str(alloc, "in")?,
        },
        stop_after: 0,
        life: Lifetimes {
            template: 1800,
            options: 1800,
            late: 1800,
        },
        idle: 600,
    })
}

/// The session of a number of input 0.
pub fn key(number: u32) -> SessionKey
    ensures { result.number ≡ number }
{
    SessionKey { input: 0, number }
}

/// A parser to which nothing came.
pub fn parser(alloc: Global, transport: Transport) -> Result<Parser, WantOfMemory>
    ensures { IfOk result (MayOpen 0) }
{
    let parser = Parser::new(alloc, &conf(alloc, transport)?)?;
    Ok(parser)
}

/// The session of the next number opens.
pub fn open(parser: &mut Parser, key: SessionKey, transport: Transport) -> Result<(), WantOfMemory>
    requires { MayOpen key.number parser.old }
    ensures { IfOk result (λ _. HasOpen key parser.new) }
{
    parser.work(&Arrival::SessionOpen(key, transport))?;
    Ok(())
}

/// The session brings a message.
pub fn bring(
    alloc: Global,
    parser: &mut Parser,
    key: SessionKey,
    octets: &[u8],
) -> Result<(), WantOfMemory>
    requires { HasOpen key parser.old }
    ensures { IfOk result (λ _. HasOpen key parser.new) }
{
    let octets = Arc::new(alloc, Octets::from_slice(alloc, octets)?)?;
    parser.work(&Arrival::Raw(key, octets))?;
    Ok(())
}

/// The session closes.
pub fn close(parser: &mut Parser, key: SessionKey) -> Result<(), WantOfMemory>
    requires { HasOpen key parser.old }
    ensures { IfOk result (λ _. MayOpen (key.number + 1) parser.new) }
{
    parser.work(&Arrival::SessionClose(key))?;
    Ok(())
}
