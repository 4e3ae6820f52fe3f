//! Tests of the sources of `socket_io` over loopback, both ends in one process. Each asks its source a bounded number of
//! times, and leaves nothing running.
#![tactic(auto)]

#[cfg(test)]
mod datagrams;
#[cfg(test)]
mod streams;
#[cfg(test)]
mod tests;
#[cfg(test)]
mod wrong;
