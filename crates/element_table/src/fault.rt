// The text of a fault.
ghost use Rattle.std.specs.Prelude.{◌≡◌, IfOk, string_bytes};
ghost use Rattle.element_spec.specs.Faults.{fault_text};

use element_spec::TableFault;
use std::alloc::{AllocError, Global};

/// How a fault is printed.
#[tactic(auto, unfolding(element_spec::specs::Faults::fault_text))]
pub fn fault_text(alloc: Global, fault: &TableFault) -> Result<String, AllocError>
    ensures { IfOk result (λ text. string_bytes text ≡ fault_text fault.now) }
{
    match fault {
        TableFault::NotToml => format!(in alloc; "not TOML"),
        TableFault::BadRow(place) => format!(in alloc; "bad row {place}"),
        TableFault::BadType(place) => format!(in alloc; "bad type {place}"),
        TableFault::Duplicate(pen, id) => format!(in alloc; "duplicate {pen} {id}"),
        TableFault::DuplicateName(place) => format!(in alloc; "duplicate name {place}"),
        TableFault::NoMemory => format!(in alloc; "no memory"),
    }
}
