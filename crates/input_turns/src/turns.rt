// Inputs in turn.
ghost use Rattle.std.specs.Prelude.{◌≡◌, true, false, All, is_some};
ghost use Rattle.std.specs.List.{list_all};
ghost use Rattle.run_input.specs.Inputs.{IsRight};
ghost use Rattle.logged_outputs.specs.Logged.{Took};
ghost use Rattle.input_turns.specs.Turns.{Follows, HadNothing, Turned};

use logged_outputs::LoggedOutputs;
use message_texts::MessageTexts;
use run_input::{Input, InputAnswer};
use site_io::{Sink, Source};
use std::rt::Clock;
use std::sync::Wait;
use std::thread;
use std::time::Duration;

/// How often an input that answers is asked before the next one.
const QUESTIONS: usize = 1000;

/// How long a run pauses where no input has anything, in milliseconds. What comes over a socket meanwhile waits in the
/// system's receive buffer, of up to 8 MiB: at 1 gigabit a second that fills in 60 milliseconds.
const PAUSE: u64 = 5;

/// Asks an input once, and hands its message on. Answers whether it may be asked again at once: it has not ended, and its
/// source had something.
fn ask<S: Source, T: MessageTexts, K: Sink>(
    input: &mut Input<S>,
    taker: &mut LoggedOutputs<T, K>,
) -> bool
    requires { IsRight S.left S.faults input.old }
    ensures right { IsRight S.left S.faults input.new }
    ensures turned { Turned S.left S.faults (Took T.stands K.held K.total K.faults) input.old input.new taker.old taker.new }
    ensures nothing { result ≡ false → HadNothing S.left S.faults input.new }
{
    let number = input.number();
    match input.next() {
        InputAnswer::Message(message) => {
            taker.take(number, &message);
            true
        }
        InputAnswer::Nothing => true,
        InputAnswer::NotYet => false,
        InputAnswer::Ended => false,
    }
}

/// The turn of an input. Answers whether anything came of it: an event, a message or its end.
fn turn<S: Source, T: MessageTexts, K: Sink>(
    input: &mut Input<S>,
    taker: &mut LoggedOutputs<T, K>,
) -> bool
    requires { IsRight S.left S.faults input.old }
    ensures right { IsRight S.left S.faults input.new }
    ensures turned { Turned S.left S.faults (Took T.stands K.held K.total K.faults) input.old input.new taker.old taker.new }
    ensures nothing { result ≡ false → HadNothing S.left S.faults input.new }
{
    if input.end().is_some() {
        return false;
    }
    for asked in 0..QUESTIONS {
        if !ask(input, taker) {
            return asked > 0 || input.end().is_some();
        }
    }
    true
}

/// A turn of each input. Answers whether anything came of one.
fn round<S: Source, T: MessageTexts, K: Sink>(
    inputs: &mut Vec<Input<S>>,
    taker: &mut LoggedOutputs<T, K>,
) -> bool
    requires { All (IsRight S.left S.faults) inputs.old.items }
    ensures right { All (IsRight S.left S.faults) inputs.new.items }
    ensures follows { Follows S.left S.faults (Took T.stands K.held K.total K.faults) inputs.old.items inputs.new.items taker.old taker.new }
    ensures nothing { result ≡ false → All (HadNothing S.left S.faults) inputs.new.items }
{
    let mut came = false;
    for i in 0..inputs.len() {
        came |= turn(&mut inputs[i], taker);
    }
    came
}

/// Pauses where each input has ended or had nothing ready.
fn pause<R: Clock, S: Source>(rt: &R, _inputs: &Vec<Input<S>>)
    requires { All (HadNothing S.left S.faults) _inputs.now.items }
{
    let _ = thread::sleep(rt, Duration::from_millis(PAUSE));
}

/// Whether all inputs have ended.
fn have_ended<S: Source>(inputs: &Vec<Input<S>>) -> bool
    ensures { result ≡ list_all (λ x. is_some x.end) inputs.now.items }
{
    inputs.iter().all(|input| input.end().is_some())
}

/// Asks all inputs in turn until they have ended, and hands each of their messages on. It returns once all have. Behind a
/// round of which nothing came it pauses, for 5 milliseconds, and it never pauses while an input has more.
pub fn ask_all<R: Wait + Clock, S: Source, T: MessageTexts, K: Sink>(
    rt: &R,
    inputs: &mut Vec<Input<S>>,
    taker: &mut LoggedOutputs<T, K>,
)
    requires { All (IsRight S.left S.faults) inputs.old.items }
    ensures ended { list_all (λ x. is_some x.end) inputs.new.items ≡ true }
    ensures follows { Follows S.left S.faults (Took T.stands K.held K.total K.faults) inputs.old.items inputs.new.items taker.old taker.new }
{
    for _ in rt.forever() {
        if have_ended(inputs) {
            return;
        }
        if !round(inputs, taker) {
            pause(rt, inputs);
        }
    }
    unreachable!()
}
