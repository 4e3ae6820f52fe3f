// The description of `generate`.
ghost use Rattle.std.specs.Prelude.{◌≡◌, IfOk, Ok};
ghost use Rattle.config_spec.specs.Description.{description};
ghost use Rattle.call_spec.specs.Load.{load_conf, load_text};

use config_spec::Conf;
use std::alloc::{AllocError, Global};

/// The text of the description, as an operator would write it.
#[tactic(auto, unfolding(call_spec::specs::Load::load_text))]
fn load_text() -> &'static [u8]
    ensures { result.now ≡ load_text }
{
    b"version = 1\n\n[[input]]\nname = \"gen\"\nkind = \"tcp\"\nlisten = \"gen\"\n\n[[intermediate]]\nname = \"half\"\nkind = \"filter\"\nrule = [{ id = 4, test = \"between\", low = 0, high = 127, act = \"drop\" }]\n\n[[output]]\nname = \"json\"\nkind = \"json\"\npath = \"json\"\n\n[[output]]\nname = \"ipfix\"\nkind = \"ipfix\"\npath = \"ipfix\"\n\n[[output]]\nname = \"view\"\nkind = \"view\"\npath = \"view\"\n"
}

/// The text has no fault, and stands for the description of generated load.
#[tactic(auto, using(crate::proofs::KnownConf::load_described))]
pub fn the_description_of_generate_is_accepted()
    ensures { description load_text ≡ Ok load_conf }
{}

/// The description of `generate`: a connection, a filter that keeps some half of the records, and an output of each kind.
pub fn load_conf(alloc: Global) -> Result<Conf, AllocError>
    ensures { IfOk result (λ conf. conf ≡ load_conf) }
{
    match startup_config::read(alloc, load_text()) {
        Ok(conf) => Ok(conf),
        Err(_) => Err(AllocError),
    }
}
