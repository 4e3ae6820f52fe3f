// The text of a fault.
ghost use Rattle.std.specs.Prelude.{◌≡◌, ◌++◌, IfOk, string_bytes};
ghost use Rattle.config_spec.specs.First.{fault_text};

use config_spec::ConfFault;
use std::alloc::{AllocError, Global};

fn joined(alloc: Global, words: &str, name: &str) -> Result<String, AllocError>
    ensures { IfOk result (λ text. string_bytes text ≡ words.now ++ name.now) }
{
    let mut text = String::from_str(alloc, words)?;
    text.push_str(name)?;
    Ok(text)
}

/// How a fault is printed.
#[tactic(auto, unfolding(config_spec::specs::First::fault_text))]
pub fn fault_text(alloc: Global, fault: &ConfFault) -> Result<String, AllocError>
    ensures { IfOk result (λ text. string_bytes text ≡ fault_text fault.now) }
{
    match fault {
        ConfFault::NotToml => String::from_str(alloc, "not TOML"),
        ConfFault::UnknownKey(path) => joined(alloc, "unknown key ", path.as_str()),
        ConfFault::Missing(path) => joined(alloc, "missing ", path.as_str()),
        ConfFault::WrongType(path) => joined(alloc, "wrong type ", path.as_str()),
        ConfFault::OutOfRange(path) => joined(alloc, "out of range ", path.as_str()),
        ConfFault::UnknownPlugin(path) => joined(alloc, "unknown plugin ", path.as_str()),
        ConfFault::DuplicateName(name) => joined(alloc, "duplicate name ", name.as_str()),
        ConfFault::NoInput => String::from_str(alloc, "no input"),
        ConfFault::NoOutput => String::from_str(alloc, "no output"),
        ConfFault::NoOrderLog => String::from_str(alloc, "no order log"),
        ConfFault::NoMemory => String::from_str(alloc, "no memory"),
    }
}
