// What stands of a script's description and of its inputs.
ghost use Rattle.std.specs.Prelude.{IfOk};
ghost use Rattle.config_spec.specs.Form.{IsConf};

use crate::fault::Fault;
use col_base::{SessionKey, Transport};
use site_io::{MemorySite, Site};
use startup_config::{Conf, ConfFault};
use std::alloc::{AllocError, Global};

/// The description of a Site's text `conf`.
pub fn description_of(alloc: Global, site: &mut MemorySite) -> Result<Conf, Fault>
    ensures { IfOk result IsConf }
{
    let Ok(octets) = site.text("conf") else {
        return Err(Fault::Wrong("a text `conf` is wanted"));
    };
    match startup_config::read(alloc, octets.as_slice()) {
        Ok(conf) => Ok(conf),
        Err(ConfFault::NoMemory) => Err(Fault::NoMemory),
        Err(_) => Err(Fault::Wrong("the text `conf` is no description")),
    }
}

/// The word of a transport.
pub fn transport_word(transport: Transport) -> &'static str {
    match transport {
        Transport::Tcp => "tcp",
        Transport::Udp => "udp",
        Transport::File => "file",
    }
}

/// The numbers of an input and of its session.
pub fn key_text(alloc: Global, key: SessionKey) -> Result<String, AllocError> {
    let SessionKey { input, number } = key;
    format!(in alloc; "{input}/{number}")
}
