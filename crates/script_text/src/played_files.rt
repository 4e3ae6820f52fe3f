// Files of cases, played.
use crate::case::Player;
use crate::case_file::CaseFile;
use crate::fault::LineFault;
use std::alloc::Global;
use std::fs;

/// Plays the cases of a file: how many there are, and how many of them failed, beside what is told of those.
fn played_cases<P: Player>(alloc: Global, player: &P, text: &str) -> Result<CaseFile, LineFault> {
    let mut file = CaseFile::new(alloc);
    let mut last = 0;
    for (place, line) in text.lines().enumerate() {
        last = place;
        file.take_line(alloc, player, line)
            .map_err(|fault| LineFault::new(place, fault))?;
    }
    file.end(alloc, player)
        .map_err(|fault| LineFault::new(last, fault))?;
    Ok(file)
}

/// Plays the cases of the files of these paths, and prints what came otherwise and how many cases failed. Answers whether
/// none did. It stops at the first line that can't be read or whose case can't be played, and prints that.
pub fn play_files<P: Player>(
    rt: &HostRuntime,
    player: &P,
    paths: &[String],
) -> anyhow::Result<bool> {
    let mut cases: u64 = 0;
    let mut failed: u64 = 0;
    for path in paths {
        let text = fs::read_to_string(rt, path.as_str())?;
        match played_cases(rt.alloc(), player, text.as_str()) {
            Ok(file) => {
                print!(rt; "{}", file.told())?;
                cases = cases.saturating_add(file.cases());
                failed = failed.saturating_add(file.failed());
            }
            Err(fault) => {
                println!(rt; "{path}: {fault}")?;
                return Ok(false);
            }
        }
    }
    println!(rt; "{cases} cases, {failed} failed")?;
    Ok(failed == 0)
}
