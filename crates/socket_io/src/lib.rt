//! Sources over sockets: the connections to an address, and the datagrams that come to one.
//!
//! Both tell the clock's seconds first and whenever they have changed, and neither ever ends. What comes over the
//! network is not told, so the contracts say which events may come, which connections are open, and that faults are
//! counted.
#![tactic(auto)]

mod address;
mod descriptors;
mod faults;
mod options;
mod tcp_sockets;
mod tcp_source;
mod ticks;
mod udp_source;
mod waiting;

pub use address::{address_of, peer_key};
pub use tcp_source::TcpSource;
pub use udp_source::UdpSource;
pub use waiting::Waiting;
