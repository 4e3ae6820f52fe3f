// Files of scripts, and what is printed of each.
use crate::fault::{Fault, LineFault};
use crate::script::Script;
use std::alloc::Global;
use std::fs;

/// Says what is printed of a script.
pub trait Printer {
    /// The lines of a script. The fault says why it has none.
    fn text_of(&self, alloc: Global, script: Script) -> Result<String, Fault>;
}

/// The lines of the script of a text.
fn lines_of<P: Printer>(alloc: Global, printer: &P, text: &str) -> Result<String, LineFault> {
    let script = Script::read(alloc, text)?;
    Ok(printer.text_of(alloc, script)?)
}

/// Prints the lines of one script, or why it has none, and answers whether it has.
fn print_file<P: Printer>(rt: &HostRuntime, printer: &P, path: &str) -> anyhow::Result<bool> {
    let text = fs::read_to_string(rt, path)?;
    match lines_of(rt.alloc(), printer, text.as_str()) {
        Ok(printed) => {
            print!(rt; "{printed}")?;
            Ok(true)
        }
        Err(fault) => {
            println!(rt; "{fault}")?;
            Ok(false)
        }
    }
}

/// Prints what comes of the scripts in the files of these paths, up to the first that has a line which can't be read, or of
/// which nothing can be printed. Answers whether there was none.
pub fn print_files<P: Printer>(
    rt: &HostRuntime,
    printer: &P,
    paths: &[String],
) -> anyhow::Result<bool> {
    for path in paths {
        if !print_file(rt, printer, path.as_str())? {
            return Ok(false);
        }
    }
    Ok(true)
}
