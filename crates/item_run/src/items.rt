// What the inputs of a script hand on.
ghost use Rattle.config_spec.specs.Form.{IsConf};

use crate::asked::{open, put_answers};
use crate::counts::put_counts;
use call_spec::InputEnd;
use config_spec::{Conf, InputConf};
use message_stages::Stages;
use script_text::{Fault, Script, description_of};
use site_io::{MemorySite, Site};
use std::alloc::{AllocError, Global};
use std::fmt::Write;

/// The word of how an input ended.
fn end_word(end: Option<InputEnd>) -> &'static str {
    match end {
        Some(InputEnd::End) => "end",
        Some(InputEnd::Failed) => "failed",
        Some(InputEnd::Memory) => "memory",
        _ => "other",
    }
}

/// All lines of an input. One whose source is not there, or is out, has the line `input N closed`.
fn put_input(
    alloc: Global,
    text: &mut String,
    site: &mut MemorySite,
    stages: &mut Stages,
    number: u16,
    conf: &InputConf,
) -> Result<(), AllocError> {
    let Ok(source) = site.open_source(&conf.spec) else {
        return writeln!(text, "input {number} closed");
    };
    match open(alloc, conf, number, source) {
        Ok(mut input) => {
            put_answers(alloc, text, stages, &mut input)?;
            let end = end_word(input.end());
            writeln!(text, "input {number} {end}")?;
            put_counts(text, input.counts())?;
            site.back_source(&conf.spec, input.back());
            Ok(())
        }
        Err((_, source)) => {
            site.back_source(&conf.spec, source);
            writeln!(text, "input {number} memory")
        }
    }
}

/// The intermediates of a description.
fn stages_of(alloc: Global, conf: &Conf) -> Result<Stages, AllocError>
    requires { IsConf conf.now }
{
    Stages::new(alloc, conf.stages.as_slice()).map_err(|_| AllocError)
}

/// What the inputs of a script's description hand on, one behind another, as its intermediates leave it, as lines.
pub fn items_text(alloc: Global, script: Script) -> Result<String, Fault> {
    let (_, mut site) = script.into_call(alloc)?;
    let conf = description_of(alloc, &mut site)?;
    let mut stages = stages_of(alloc, &conf)?;
    let mut text = String::new(alloc);
    let mut number: u16 = 0;
    for each in conf.inputs.as_slice() {
        put_input(alloc, &mut text, &mut site, &mut stages, number, each)?;
        number = number.saturating_add(1);
    }
    Ok(text)
}
