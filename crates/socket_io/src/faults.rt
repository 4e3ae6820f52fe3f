// The count of a source's faults.
ghost use Rattle.std.specs.Prelude.{◌≡◌, Err};
ghost use Rattle.site_io.specs.Outside.{Counts};
ghost use Rattle.site_io.specs.declared.source.SourceEvent.{SourceEvent};

use site_io::{OutsideFault, count_up};

/// A fault, which is counted unless memory was wanted.
pub fn counted(faults: &mut u64, fault: OutsideFault) -> OutsideFault
    ensures same { result ≡ fault }
    ensures counts { Counts {T = SourceEvent} faults.old faults.new (Err fault) }
{
    if fault == OutsideFault::Failed {
        *faults = count_up(*faults);
    }
    fault
}
