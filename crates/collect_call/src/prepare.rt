// What a run wants before anything is opened.
ghost use Rattle.std.specs.Prelude.{◌≡◌, ◌++◌, ◌∷◌, [], ℕ, List, Ok, IfOk, OnOk};
ghost use Rattle.std.specs.List.{AllByRecursion};
ghost use Rattle.config_spec.specs.Description.{description};
ghost use Rattle.config_spec.specs.Form.{IsStage};
ghost use Rattle.stage_chain.specs.Behind.{works_of};
ghost use Rattle.output_texts.specs.declared.texts.OutputTexts.{OutputTexts};
ghost use Rattle.output_texts.specs.Texts.{Stands};
ghost use Rattle.collect_call.specs.Runs.{AreMade, IsPrepared};

use col_base::Text;
use config_spec::{Conf, OutputConf, StageConf};
use described_sinks::sink_names;
use element_table::Elements;
use message_stages::Stages;
use output_texts::OutputTexts;
use std::alloc::{AllocError, Global};
use std::sync::Arc;

/// What a run wants before anything is opened.
#[derive(Drop)]
pub struct Prepared {
    /// The sink names: that of the order log, if there is one, and then those of the outputs.
    pub names: Vec<Text>,
    /// The intermediates.
    pub stages: Stages,
    /// The makers of the outputs' texts.
    pub texts: Vec<OutputTexts>,
}

/// Puts what makes the text of an output, by these elements, behind others.
fn push_texts(
    alloc: Global,
    output: &OutputConf,
    elements: &Arc<Elements>,
    texts: &mut Vec<OutputTexts>,
) -> Result<(), AllocError>
    ensures { OnOk result ((t : OutputTexts) × (texts.new.items ≡ texts.old.items ++ t ∷ []) × Stands output.now elements.now.value [] t) }
{
    let made = OutputTexts::new(alloc, output, elements)?;
    texts.push(made)?;
    Ok(())
}

/// The makers of the texts of outputs, by these elements.
fn texts_of(
    alloc: Global,
    outputs: &[OutputConf],
    elements: &Arc<Elements>,
) -> Result<Vec<OutputTexts>, AllocError>
    ensures { IfOk result (λ texts. AreMade elements.now.value outputs.now texts.items) }
{
    let mut texts = Vec::with_capacity(alloc, outputs.len())?;
    for output in outputs {
        push_texts(alloc, output, elements, &mut texts)?;
    }
    Ok(texts)
}

/// The intermediates of a description.
fn stages_of(alloc: Global, stages: &[StageConf]) -> Result<Stages, AllocError>
    requires { AllByRecursion IsStage stages.now }
    ensures { IfOk result (λ made. made ≡ works_of stages.now) }
{
    match Stages::new(alloc, stages) {
        Ok(made) => Ok(made),
        Err(_) => Err(AllocError),
    }
}

/// Takes the memory that the run of a description wants before anything is opened.
pub fn make_ready(alloc: Global, conf: &Conf, elements: Elements) -> Result<Prepared, AllocError>
    requires described { (octets : List ℕ) × (description octets ≡ Ok conf.now) }
    ensures ok { IfOk result (IsPrepared conf.now elements) }
{
    let names = sink_names(alloc, conf)?;
    let stages = stages_of(alloc, conf.stages.as_slice())?;
    let elements = Arc::new(alloc, elements)?;
    let texts = texts_of(alloc, conf.outputs.as_slice(), &elements)?;
    Ok(Prepared {
        names,
        stages,
        texts,
    })
}
