// The summary of a run: a line for each count.
ghost use Rattle.std.specs.Prelude.{◌≡◌, List, ℕ, IfOk, map, flat_map};
ghost use Rattle.call_spec.specs.Summary.{count_line, summary_text};
ghost use Rattle.run_lines.specs.Rows.{meant_counts, row_of};
ghost use Rattle.run_lines.specs.Says.{Says};

use crate::count_row::{CountName, CountRow, row};
use crate::ended::Ended;
use crate::saying::{row_end, say};
use col_base::Octets;
use site_io::{OutsideFault, Site};
use std::alloc::{AllocError, Global};

/// The line of a count.
fn count_line(alloc: Global, row: &CountRow) -> Result<Octets, AllocError>
    ensures { IfOk result (λ line. line ≡ count_line (row_of row.now)) }
{
    let number = row.number.to_string(alloc)?;
    let mut line = Octets::from_slice(alloc, row.name.octets())?;
    line.extend(number.as_bytes())?;
    line.extend(row_end())?;
    Ok(line)
}

/// Says the line of a count.
fn say_count<S: Site>(alloc: Global, row: &CountRow, site: &mut S) -> Result<(), OutsideFault>
    ensures { Says (S.seen site.old) (S.seen site.new) (count_line (row_of row.now)) result }
{
    let Ok(line) = count_line(alloc, row) else {
        return Err(OutsideFault::NoMemory);
    };
    say(line.as_slice(), site)
}

/// Says the lines of counts in order, up to the first that can't be said.
fn say_counts<S: Site>(alloc: Global, rows: &[CountRow], site: &mut S) -> Result<(), OutsideFault>
    ensures { Says (S.seen site.old) (S.seen site.new) (flat_map count_line (map row_of rows.now)) result }
{
    for row in rows {
        match say_count(alloc, row, site) {
            Ok(()) => {}
            Err(fault) => return Err(fault),
        }
    }
    Ok(())
}

/// Says the summary of a run, line by line, whatever came in it. Snapshots of templates aren't opened yet.
pub fn say_summary<S: Site>(alloc: Global, ended: &Ended, site: &mut S) -> Result<(), OutsideFault>
    ensures { Says (S.seen site.old) (S.seen site.new) (summary_text (meant_counts ended.now.counts)) result }
{
    let counts = ended.counts;
    let rows = [
        row(CountName::Sessions, counts.sessions),
        row(CountName::Messages, counts.messages),
        row(CountName::Records, counts.records),
        row(CountName::Malformed, counts.malformed),
        row(CountName::Late, counts.late),
        row(CountName::Skipped, counts.skipped),
        row(CountName::Ignored, counts.ignored),
        row(CountName::Redefined, counts.redefined),
        row(CountName::Lost, counts.lost),
        row(CountName::Disordered, counts.disordered),
        row(CountName::Torn, counts.torn),
        row(CountName::Broken, counts.broken),
        row(CountName::Refused, counts.refused),
        row(CountName::Crowded, counts.crowded),
        row(CountName::Stray, counts.stray),
        row(CountName::Opened, 0),
        row(CountName::Released, 0),
    ];
    say_counts(alloc, &rows, site)
}
