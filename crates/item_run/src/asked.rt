// An input, asked until it has ended.
ghost use Rattle.std.specs.Prelude.{IfOk};
ghost use Rattle.pipeline_message.specs.Items.{IsSoundMessage};
ghost use Rattle.run_input.specs.Inputs.{IsRight, IsSoundAnswer};

use crate::message::put_message;
use col_base::WantOfMemory;
use config_spec::InputConf;
use message_stages::Stages;
use pipeline_message::Msg;
use run_input::{Input, InputAnswer};
use site_io::Source;
use std::alloc::{AllocError, Global};
use std::fmt::Write;

/// The input of this number over a source. Where memory is wanted the source is given back.
pub fn open<S: Source>(
    alloc: Global,
    conf: &InputConf,
    number: u16,
    source: S,
) -> Result<Input<S>, (WantOfMemory, S)>
    ensures { IfOk result (IsRight S.left S.faults) }
{
    match Input::new(alloc, conf, number, source) {
        Ok(input) => Ok(input),
        Err(refused) => Err(refused),
    }
}

/// Asks an input once.
fn ask<S: Source>(input: &mut Input<S>) -> InputAnswer
    requires { IsRight S.left S.faults input.old }
    ensures right { IsRight S.left S.faults input.new }
    ensures sound { IsSoundAnswer result }
{
    input.next()
}

/// The lines of what the intermediates leave of a message.
fn put_left(
    alloc: Global,
    text: &mut String,
    stages: &mut Stages,
    message: &Msg,
) -> Result<(), AllocError>
    requires { IsSoundMessage message.now }
{
    match stages.pass(message) {
        Ok(Some(left)) => put_message(alloc, text, &left),
        Ok(None) => put_message(alloc, text, message),
        Err(_) => Err(AllocError),
    }
}

/// The lines of an answer.
fn put_answer(
    alloc: Global,
    text: &mut String,
    stages: &mut Stages,
    answer: &InputAnswer,
) -> Result<(), AllocError>
    requires { IsSoundAnswer answer.now }
{
    match answer {
        InputAnswer::Message(message) => put_left(alloc, text, stages, message),
        InputAnswer::Nothing => writeln!(text, "nothing"),
        InputAnswer::NotYet => writeln!(text, "notyet"),
        InputAnswer::Ended => writeln!(text, "end"),
    }
}

/// The lines of all that an input answers until it has ended, as the intermediates leave it.
pub fn put_answers<S: Source>(
    alloc: Global,
    text: &mut String,
    stages: &mut Stages,
    input: &mut Input<S>,
) -> Result<(), AllocError>
    requires { IsRight S.left S.faults input.old }
{
    for _ in 0..u64::MAX {
        let answer = ask(input);
        put_answer(alloc, text, stages, &answer)?;
        if matches!(answer, InputAnswer::Ended) {
            return Ok(());
        }
    }
    Ok(())
}
