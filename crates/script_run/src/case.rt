// What came of a case.
use crate::arrivals::arrivals_text;
use crate::played::play;
use crate::wanted::differs;
use script_text::{Case, Fault, Given, Player, Report, Script, Wanted};
use std::alloc::Global;
use std::rt::Clock;
use std::sync::Wait;

/// Makes the call of a case, or asks the inputs of its description. A case wants what the one leaves, or what the others give.
#[derive(Drop)]
pub struct Calls<'a, R> {
    pub rt: &'a R,
}

/// Asks the inputs, and tells what they gave otherwise.
fn ask(alloc: Global, script: Script, given: &Given, report: &mut Report) -> Result<(), Fault> {
    let found = arrivals_text(alloc, script)?;
    report.tell(given.differs(alloc, found.as_str())?)?;
    Ok(())
}

/// Makes the call, and tells what it left otherwise.
fn call<R: Wait + Clock>(
    rt: &R,
    alloc: Global,
    script: Script,
    wanted: &[Wanted],
    report: &mut Report,
) -> Result<(), Fault> {
    let played = play(rt, alloc, script)?;
    for each in wanted {
        report.tell(differs(alloc, each, &played)?)?;
    }
    Ok(())
}

impl<R: Wait + Clock> Player for Calls<'_, R> {
    fn play(&self, alloc: Global, case: Case, report: &mut Report) -> Result<(), Fault> {
        let Case {
            script,
            wanted,
            given,
            ..
        } = case;
        match (wanted.is_empty(), given.is_empty()) {
            (true, true) => Err(Fault::Wrong("the case before wants nothing")),
            (false, false) => Err(Fault::Wrong("the case before wants both kinds")),
            (true, false) => ask(alloc, script, &given, report),
            (false, true) => call(self.rt, alloc, script, wanted.as_slice(), report),
        }
    }
}
