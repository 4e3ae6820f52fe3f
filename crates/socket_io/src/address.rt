// Addresses as texts, and the keys of peers.
ghost use Rattle.std.specs.Prelude.{◌≡◌, MatchOption};
ghost use Rattle.std.specs.declared.net.socket_addr.SocketAddr.{SocketAddr};
ghost use Rattle.std.specs.Net.Grammar.{IsSocketText};
ghost use Rattle.socket_io.specs.Address.{mapped_octets, peer_of};

use arrival_spec::PeerKey;
use col_base::be64;
use std::net::{IpAddr, SocketAddr};

/// The address and port that a place writes, as `127.0.0.1:4739` or `[::1]:4739`. None is any other text, also the name
/// of a host.
pub fn address_of(place: &str) -> Option<SocketAddr>
    ensures { MatchOption result ((address : SocketAddr) → ¬ (IsSocketText place.now address)) (λ address. IsSocketText place.now address) }
{
    match place.parse::<SocketAddr>() {
        Ok(address) => Some(address),
        Err(_) => None,
    }
}

/// The 16 octets of an address.
fn octets(ip: IpAddr) -> [u8; 16]
    ensures { result ≡ mapped_octets ip }
{
    match ip {
        IpAddr::V4(ip) => ip.to_ipv6_mapped().octets(),
        IpAddr::V6(ip) => ip.octets(),
    }
}

/// The key of the peer at an address. An IPv4 address has its IPv4-mapped form (RFC 4291, section 2.5.5.2).
pub fn peer_key(address: SocketAddr) -> PeerKey
    ensures { result ≡ peer_of address }
{
    let octets = octets(address.ip());
    PeerKey {
        high: be64(&octets, 0),
        low: be64(&octets, 8),
        port: address.port(),
    }
}
