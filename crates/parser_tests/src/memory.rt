// What a parser keeps of sessions that closed.
ghost use Rattle.std.specs.Prelude.{◌≤◌, IfOk};
ghost use Rattle.parser_lane.specs.Session.{MayOpen};

use crate::arrivals::{bring, close, key, open, parser};
use col_base::{Transport, WantOfMemory};
use parser_lane::Parser;
use sample_messages::ONE_FLOW;
use std::alloc::Global;
use std::fs;
use std::test::Fail;

/// Sessions from one number up to another open, one behind another. Each brings a template with a record, and closes.
fn pass(alloc: Global, parser: &mut Parser, from: u32, to: u32) -> Result<(), WantOfMemory>
    requires order { from ≤ to }
    requires first { MayOpen from parser.old }
    ensures { IfOk result (λ _. MayOpen to parser.new) }
{
    for number in from..to {
        let key = key(number);
        open(parser, key, Transport::Tcp)?;
        bring(alloc, parser, key, ONE_FLOW)?;
        close(parser, key)?;
    }
    Ok(())
}

/// How many pages of memory the process has now.
fn pages(rt: &HostRuntime) -> Result<u64, Fail> {
    let text = fs::read_to_string(rt, "/proc/self/statm")?;
    match text.split(' ').nth(1) {
        Some(pages) => match pages.parse::<u64>() {
            Ok(pages) => Ok(pages),
            Err(_) => Err("a number is wanted".into()),
        },
        None => Err("two numbers are wanted".into()),
    }
}

/// A session that closed leaves nothing: behind 100,000 sessions with a template the process has as many pages as behind
/// 1,000.
#[test]
fn sessions_that_closed_leave_no_memory(rt: HostRuntime) -> Result<(), Fail> {
    let alloc = rt.alloc();
    let mut parser = parser(alloc, Transport::Tcp)?;
    pass(alloc, &mut parser, 0, 1_000)?;
    let before = pages(&rt)?;
    pass(alloc, &mut parser, 1_000, 100_000)?;
    let behind = pages(&rt)?;
    assert!(rt; parser.counts().records == 100_000);
    assert!(rt; behind <= before, "{before} pages, {behind} pages");
    Ok(())
}
