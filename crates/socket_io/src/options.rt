// Options of sockets. Each is a request: where the system refuses it the socket works on without.

use libc::net::{SO_KEEPALIVE, SO_RCVBUF, SOL_SOCKET, setsockopt};
use std::os::fd::AsRawFd;

/// The octets of a number, as the system reads it.
fn value_of(number: u32) -> [u8; 16] {
    let mut value = [0; 16];
    value[..4].copy_from_slice(&number.to_ne_bytes());
    value
}

/// Asks the system to keep so many octets until they are read. It keeps up to its own limit, and counts what it needs
/// beside them too.
pub fn widen_buffer<S: AsRawFd>(socket: &S, octets: u32) {
    let value = value_of(octets);
    let _ = unsafe { setsockopt(socket.as_raw_fd(), SOL_SOCKET, SO_RCVBUF, &value, 4) };
}

/// Asks the system to close a connection whose peer is gone without a word (RFC 9293, section 3.8.4).
pub fn keep_alive<S: AsRawFd>(socket: &S) {
    let value = value_of(1);
    let _ = unsafe { setsockopt(socket.as_raw_fd(), SOL_SOCKET, SO_KEEPALIVE, &value, 4) };
}
