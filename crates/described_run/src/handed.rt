// What the inputs of a run hand on.
ghost use Rattle.std.specs.Prelude.{◌≡◌, ◌≤◌, ◌+◌, [], List, All, length, vec_capacity, vec_len};
ghost use Rattle.config_spec.specs.declared.conf.Conf.{Conf};
ghost use Rattle.run_input.specs.Inputs.{IsRight};
ghost use Rattle.run_inputs.specs.Made.{AreMade};
ghost use Rattle.run_came.specs.Ran.{HandedOn};
ghost use Rattle.described_run.specs.Ready.{IsReady};

use crate::taker::{Ready, begin};
use input_turns::ask_all;
use logged_outputs::LoggedOutputs;
use message_texts::MessageTexts;
use run_input::Input;
use site_io::{Sink, Source};
use std::rt::Clock;
use std::sync::Wait;

/// Asks all inputs until they have ended, and hands each of their messages on to the log and the outputs over these sinks.
/// The vector of sinks keeps its room.
pub fn hand_on<R: Wait + Clock, S: Source, T: MessageTexts + Drop, K: Sink>(
    rt: &R,
    ready: Ready<T, K>,
    inputs: &mut Vec<Input<S>>,
    sinks: &mut Vec<K>,
) -> LoggedOutputs<T, K>
    requires right { All (IsRight S.left S.faults) inputs.old.items }
    requires some { length ready.texts.items ≤ vec_len sinks.old }
    requires few { vec_len sinks.old ≤ length ready.texts.items + 1 }
    requires empty { ready.room.items ≡ [] }
    requires room { length ready.texts.items ≤ vec_capacity ready.room }
    ensures handed { (conf : Conf) (firsts : List S) → IsReady conf ready → AreMade S.left S.faults conf firsts inputs.old.items
        → HandedOn S.left S.faults T.stands K.held K.total K.faults conf ready.texts.items firsts sinks.old.items inputs.new.items result }
    ensures empty { sinks.new.items ≡ [] }
    ensures room { vec_capacity sinks.new ≡ vec_capacity sinks.old }
{
    let mut taker = begin(ready, sinks);
    ask_all(rt, inputs, &mut taker);
    taker
}
