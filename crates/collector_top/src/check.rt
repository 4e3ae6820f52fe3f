// The command `check`: a description and its element files are read and judged, and nothing is opened.
ghost use Rattle.words_spec.specs.Commands.Command.{Check};
ghost use Rattle.call_spec.specs.Call.{Calls};

use described_texts::{read_description, report_fine, report_refusal};
use site_io::Site;
use std::alloc::Global;

/// Reads the description of that name and the element files that it names, and prints `ok` or the first fault. It
/// opens nothing.
///
/// The status is 0 where there is no fault; 2 where the description or an element file has one; 3 where a text
/// failed; 4 where there is no fault and `ok` could not be printed; 6 where memory was wanted.
pub fn check_run<S: Site>(alloc: Global, name: &str, site: &mut S) -> u8
    ensures { Calls S.Src.left S.Src.faults (Check name.now) (S.seen site.old) (S.seen site.new) result }
{
    match read_description(alloc, name, site) {
        Ok(read) => {
            drop(read);
            report_fine(site)
        }
        Err(refusal) => report_refusal(alloc, &refusal, site),
    }
}
