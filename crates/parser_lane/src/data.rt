// The message that an arrived message becomes.
ghost use Rattle.std.specs.Prelude.{◌≡◌, [], map, Some, IfOk};
ghost use Rattle.run_spec.specs.Work.Item.{Data};
ghost use Rattle.pipeline_message.specs.Items.{item_of, set_of};
ghost use Rattle.parser_lane.specs.Parsers.{sets_in, IsMadeOf};

use col_base::{Octets, SessionKey, WantOfMemory};
use ipfix_reader::Header;
use pipeline_message::{DataMessage, DataSet, Msg};
use session_domains::Fate;
use std::alloc::{AllocError, Global};
use std::sync::Arc;

/// A message of these numbers with its sets. Its octets are shared.
pub fn data(
    alloc: Global,
    session: SessionKey,
    header: Header,
    octets: &Arc<Octets>,
    sets: Vec<DataSet>,
) -> Result<Msg, WantOfMemory>
    ensures item { IfOk result (λ msg. item_of msg ≡ Some (Data session header.domain header.export header.seq (map (set_of octets.now.value) sets.items))) }
    ensures made { IfOk result (IsMadeOf octets.now.value sets.items) }
{
    let message = DataMessage {
        session,
        domain: header.domain,
        export: header.export,
        seq: header.seq,
        octets: octets.clone()?,
        sets,
    };
    Ok(Msg::DataMsg(Arc::new(alloc, message)?))
}

/// The numbers of a malformed message: none is read.
pub fn no_header() -> Header
    ensures { (result.domain ≡ 0) × (result.export ≡ 0) × (result.seq ≡ 0) }
{
    Header {
        length: 0,
        export: 0,
        seq: 0,
        domain: 0,
    }
}

/// The sets of a message that is taken. One that was dropped has none.
pub fn sets_of(alloc: Global, fate: Fate) -> Vec<DataSet>
    ensures { result.items ≡ sets_in fate }
{
    match fate {
        Fate::Taken(taken) => taken.sets,
        Fate::Late => Vec::new(alloc),
        Fate::Crowded => Vec::new(alloc),
    }
}
