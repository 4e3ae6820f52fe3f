// The messages that go to an output.
ghost use Rattle.std.specs.Prelude.{◌≡◌};
ghost use Rattle.output_manager.specs.Goes.{goes_to};

use config_spec::DomainSet;
use pipeline_message::Msg;

/// Whether a message goes to an output of these Observation Domains (RFC 7011, section 3.1). It is false exactly for a message
/// of records that has no set, or is of a domain that isn't one of them. It takes no memory.
pub fn goes(domains: &DomainSet, msg: &Msg) -> bool
    ensures { result ≡ goes_to domains.now msg.now }
{
    match msg {
        Msg::DataMsg(message) => !message.sets.is_empty() && domains.has(message.domain),
        Msg::SessionMsg(_) | Msg::Periodic { .. } | Msg::Terminate => true,
    }
}
