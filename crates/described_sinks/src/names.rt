// The sink names of a description, in the order in which they are opened.
ghost use Rattle.std.specs.Prelude.{◌≡◌, ◌++◌, IfOk};
ghost use Rattle.call_spec.specs.Leaves.{sink_names};
ghost use Rattle.call_spec.specs.Plan.{described_parties};
ghost use Rattle.described_sinks.specs.Paths.{paths};

use col_base::Text;
use config_spec::{Conf, OutputConf};
use std::alloc::{AllocError, Global};

/// Puts the paths of outputs behind other names.
fn put_paths(names: Vec<Text>, outputs: &[OutputConf]) -> Result<Vec<Text>, AllocError>
    ensures { IfOk result (λ longer. longer.items ≡ names.items ++ paths outputs.now) }
{
    let mut longer = names;
    for output in outputs {
        longer.push(output.path.clone()?)?;
    }
    Ok(longer)
}

/// The sink names of a description: that of the order log first, if there is one, and then those of the outputs, in their
/// order. It fails only where memory is wanted.
pub fn sink_names(alloc: Global, conf: &Conf) -> Result<Vec<Text>, AllocError>
    ensures { IfOk result (λ names. names.items ≡ sink_names (described_parties conf.now)) }
{
    let mut names = Vec::new(alloc);
    if let Some(path) = &conf.order_log {
        names.push(path.clone()?)?;
    }
    put_paths(names, conf.outputs.as_slice())
}
