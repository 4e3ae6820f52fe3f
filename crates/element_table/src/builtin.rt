// The built-in rows.
ghost use Rattle.std.specs.Prelude.{◌≡◌, Ok, IfOk, IsTrue, map};
ghost use Rattle.element_spec.specs.Names.{is_prefix};
ghost use Rattle.element_table.specs.Adding.{rows_added};
ghost use Rattle.text_spec.specs.Builtin.{builtin_rows, iana};

use crate::rows::row_added;
use crate::{Element, ElementType, Elements, TableFault};
use col_base::{Text, WantOfMemory};
use std::alloc::{AllocError, Global};

/// A built-in row, of enterprise number 0 and prefix `iana`.
struct Known {
    id: u16,
    name: &'static str,
    kind: ElementType,
}

const ROWS: [Known; 44] = [
    Known {
        id: 1,
        name: "octetDeltaCount",
        kind: ElementType::Unsigned64,
    },
    Known {
        id: 2,
        name: "packetDeltaCount",
        kind: ElementType::Unsigned64,
    },
    Known {
        id: 3,
        name: "deltaFlowCount",
        kind: ElementType::Unsigned64,
    },
    Known {
        id: 4,
        name: "protocolIdentifier",
        kind: ElementType::Unsigned8,
    },
    Known {
        id: 5,
        name: "ipClassOfService",
        kind: ElementType::Unsigned8,
    },
    Known {
        id: 6,
        name: "tcpControlBits",
        kind: ElementType::Unsigned16,
    },
    Known {
        id: 7,
        name: "sourceTransportPort",
        kind: ElementType::Unsigned16,
    },
    Known {
        id: 8,
        name: "sourceIPv4Address",
        kind: ElementType::Ipv4Address,
    },
    Known {
        id: 9,
        name: "sourceIPv4PrefixLength",
        kind: ElementType::Unsigned8,
    },
    Known {
        id: 10,
        name: "ingressInterface",
        kind: ElementType::Unsigned32,
    },
    Known {
        id: 11,
        name: "destinationTransportPort",
        kind: ElementType::Unsigned16,
    },
    Known {
        id: 12,
        name: "destinationIPv4Address",
        kind: ElementType::Ipv4Address,
    },
    Known {
        id: 13,
        name: "destinationIPv4PrefixLength",
        kind: ElementType::Unsigned8,
    },
    Known {
        id: 14,
        name: "egressInterface",
        kind: ElementType::Unsigned32,
    },
    Known {
        id: 15,
        name: "ipNextHopIPv4Address",
        kind: ElementType::Ipv4Address,
    },
    Known {
        id: 16,
        name: "bgpSourceAsNumber",
        kind: ElementType::Unsigned32,
    },
    Known {
        id: 17,
        name: "bgpDestinationAsNumber",
        kind: ElementType::Unsigned32,
    },
    Known {
        id: 18,
        name: "bgpNextHopIPv4Address",
        kind: ElementType::Ipv4Address,
    },
    Known {
        id: 21,
        name: "flowEndSysUpTime",
        kind: ElementType::Unsigned32,
    },
    Known {
        id: 22,
        name: "flowStartSysUpTime",
        kind: ElementType::Unsigned32,
    },
    Known {
        id: 27,
        name: "sourceIPv6Address",
        kind: ElementType::Ipv6Address,
    },
    Known {
        id: 28,
        name: "destinationIPv6Address",
        kind: ElementType::Ipv6Address,
    },
    Known {
        id: 32,
        name: "icmpTypeCodeIPv4",
        kind: ElementType::Unsigned16,
    },
    Known {
        id: 56,
        name: "sourceMacAddress",
        kind: ElementType::MacAddress,
    },
    Known {
        id: 58,
        name: "vlanId",
        kind: ElementType::Unsigned16,
    },
    Known {
        id: 60,
        name: "ipVersion",
        kind: ElementType::Unsigned8,
    },
    Known {
        id: 61,
        name: "flowDirection",
        kind: ElementType::Unsigned8,
    },
    Known {
        id: 80,
        name: "destinationMacAddress",
        kind: ElementType::MacAddress,
    },
    Known {
        id: 82,
        name: "interfaceName",
        kind: ElementType::Str,
    },
    Known {
        id: 83,
        name: "interfaceDescription",
        kind: ElementType::Str,
    },
    Known {
        id: 85,
        name: "octetTotalCount",
        kind: ElementType::Unsigned64,
    },
    Known {
        id: 86,
        name: "packetTotalCount",
        kind: ElementType::Unsigned64,
    },
    Known {
        id: 136,
        name: "flowEndReason",
        kind: ElementType::Unsigned8,
    },
    Known {
        id: 148,
        name: "flowId",
        kind: ElementType::Unsigned64,
    },
    Known {
        id: 149,
        name: "observationDomainId",
        kind: ElementType::Unsigned32,
    },
    Known {
        id: 150,
        name: "flowStartSeconds",
        kind: ElementType::DateTimeSeconds,
    },
    Known {
        id: 151,
        name: "flowEndSeconds",
        kind: ElementType::DateTimeSeconds,
    },
    Known {
        id: 152,
        name: "flowStartMilliseconds",
        kind: ElementType::DateTimeMilliseconds,
    },
    Known {
        id: 153,
        name: "flowEndMilliseconds",
        kind: ElementType::DateTimeMilliseconds,
    },
    Known {
        id: 154,
        name: "flowStartMicroseconds",
        kind: ElementType::DateTimeMicroseconds,
    },
    Known {
        id: 155,
        name: "flowEndMicroseconds",
        kind: ElementType::DateTimeMicroseconds,
    },
    Known {
        id: 156,
        name: "flowStartNanoseconds",
        kind: ElementType::DateTimeNanoseconds,
    },
    Known {
        id: 157,
        name: "flowEndNanoseconds",
        kind: ElementType::DateTimeNanoseconds,
    },
    Known {
        id: 210,
        name: "paddingOctets",
        kind: ElementType::OctetArray,
    },
];

fn element_of(alloc: Global, known: &Known) -> Result<Element, AllocError>
    ensures row { IfOk result (λ made. made ≡ iana known.now.id known.now.name.now known.now.kind) }
    ensures form { IfOk result (λ made. IsTrue (is_prefix made.prefix)) }
{
    Ok(Element {
        pen: 0,
        id: known.id,
        kind: known.kind,
        prefix: Text::from_str(alloc, "iana")?,
        name: Text::from_str(alloc, known.name)?,
    })
}

fn all_added(alloc: Global, known: Elements, rows: &[Known]) -> Result<Elements, TableFault>
    ensures ok { IfOk result (λ made. rows_added known (map (λ row. iana row.id row.name.now row.kind) rows.now) ≡ Ok made) }
{
    let mut table = known;
    for row in rows {
        table = row_added(alloc, 0, table, element_of(alloc, row)?)?;
    }
    Ok(table)
}

impl Elements {
    /// The elements that are known without a table.
    pub fn builtin(alloc: Global) -> Result<Elements, WantOfMemory>
        ensures { IfOk result (λ made. made ≡ builtin_rows) }
    {
        match all_added(alloc, Elements::new(alloc), &ROWS) {
            Ok(table) => Ok(table),
            Err(_) => Err(WantOfMemory),
        }
    }
}
