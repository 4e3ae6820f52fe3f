// Intermediates, prepared for the records of a definition.
ghost use Rattle.std.specs.Prelude.{◌≡◌, ◌<◌, ◌++◌, ◌∷◌, [], List, length, IfErr, IfOk, OnOk};
ghost use Rattle.std.specs.List.{AllByRecursion};
ghost use Rattle.config_spec.specs.Form.{IsStage};
ghost use Rattle.config_spec.specs.declared.conf.StageWork.{StageWork};
ghost use Rattle.stage_chain.specs.Behind.{works_of};
ghost use Rattle.stage_chain.specs.Suits.{AreSuited};

use config_spec::StageConf;
use stage_chain::{PreparedStage, Stage};
use std::alloc::{AllocError, Global};
use template_def::Definition;

/// The intermediates of a description, with their tables prepared. Where memory is wanted it is told which of them wants it.
pub fn stages_of(alloc: Global, stages: &[StageConf]) -> Result<Vec<Stage>, usize>
    requires { AllByRecursion IsStage stages.now }
    ensures ok { IfOk result (λ made. made.items ≡ works_of stages.now) }
    ensures err { IfErr result (λ k. k < length stages.now) }
{
    let mut made = Vec::new(alloc);
    for index in 0..stages.len() {
        let Ok(stage) = Stage::new(alloc, &stages[index].work) else {
            return Err(index);
        };
        if made.push(stage).is_err() {
            return Err(index);
        }
    }
    Ok(made)
}

/// Prepares one intermediate more.
fn prepare_next(
    alloc: Global,
    stage: &Stage,
    def: &Definition,
    prepared: &mut Vec<PreparedStage>,
) -> Result<(), AllocError>
    ensures { OnOk result ((works : List StageWork) → AreSuited works def.now.fields prepared.old.items → AreSuited (works ++ stage.now ∷ []) def.now.fields prepared.new.items) }
{
    let one = stage.prepare(alloc, def)?;
    prepared.push(one)?;
    Ok(())
}

/// Prepares the intermediates for the records of a definition. Where memory is wanted it is told which of them wants it.
pub fn prepare_stages(
    alloc: Global,
    stages: &[Stage],
    def: &Definition,
) -> Result<Vec<PreparedStage>, usize>
    ensures suit { IfOk result (λ prepared. AreSuited stages.now def.now.fields prepared.items) }
    ensures err { IfErr result (λ k. k < length stages.now) }
{
    let mut prepared = Vec::new(alloc);
    for index in 0..stages.len() {
        match prepare_next(alloc, &stages[index], def, &mut prepared) {
            Ok(()) => {}
            Err(_) => return Err(index),
        }
    }
    Ok(prepared)
}
