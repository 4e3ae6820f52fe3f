//! Tests of the parser of `parser_lane`: what it counts of the messages of a session, and what it keeps of sessions that
//! closed.
#![tactic(auto)]

#[cfg(test)]
mod arrivals;
#[cfg(test)]
mod counts;
#[cfg(test)]
mod memory;
