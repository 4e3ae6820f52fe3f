// Why a description is refused.
ghost use Rattle.std.specs.Prelude.{◌≡◌};

use col_base::Text;
use element_table::TableFault;
use startup_config::ConfFault;
use std::alloc::AllocError;

/// Why a description or its element files are refused.
#[derive(Drop)]
pub enum Refusal {
    /// The text of this name could not be read.
    NoText(Text),
    BadDescription(ConfFault),
    /// The element file of this name has a fault.
    BadElements(Text, TableFault),
    /// Memory was wanted.
    Memory,
}

impl From<AllocError> for Refusal {
    ghost use Rattle.described_texts.specs.declared.verdict.Refusal.TheVariants as refusal;

    ghost from_gives = { λ _ made. made ≡ refusal.Memory };

    fn from(_: AllocError) -> Self {
        Refusal::Memory
    }
}
