// Opens the files of texts, sources and sinks, and keeps which of them are in use.
ghost use Rattle.std.specs.Prelude.{◌≡◌, false, IfOk, IfSome, OnErr, OnOk};
ghost use Rattle.ipfixcol.specs.UsedFiles.{is_used, AddsText, AddsSource, AddsSink, SameFiles};

use crate::used_files::{FileIdentity, UsedFiles, identity_of, keep};
use site_io::OutsideFault;
use std::alloc::Global;
use std::fs::{self, OpenFile, OpenOptions};
use std::io;
use std::rt::Files;

/// An open file, and which regular file it is.
struct Opened<F> {
    file: F,
    identity: Option<FileIdentity>,
}

/// What the system gave; Failed is all that it refused.
fn or_failed<F: OpenFile + Drop>(answer: io::Result<F>) -> Result<Opened<F>, OutsideFault> {
    let Ok(file) = answer else {
        return Err(OutsideFault::Failed);
    };
    match identity_of(&file) {
        Ok(identity) => Ok(Opened { file, identity }),
        Err(_) => Err(OutsideFault::Failed),
    }
}

/// Opens the file of a text. All memory is taken before that.
pub fn open_text<R: Files>(
    rt: &R,
    used: &mut UsedFiles,
    name: &str,
) -> Result<R::File, OutsideFault>
    ensures { AddsText used.old used.new }
{
    used.texts.reserve(1)?;
    let Opened { file, identity } = or_failed(fs::open(rt, name))?;
    if let Some(identity) = identity {
        used.texts.push(identity)?;
    }
    Ok(file)
}

/// Opens the file of a source. All memory is taken before that.
pub fn open_source<R: Files>(
    rt: &R,
    alloc: Global,
    used: &mut UsedFiles,
    place: &str,
) -> Result<R::File, OutsideFault>
    ensures ok { OnOk result (AddsSource place.now used.old used.new) }
    ensures err { OnErr result (SameFiles used.old used.new) }
{
    let name = String::from_str(alloc, place)?;
    used.sources.reserve(1)?;
    let Opened { file, identity } = or_failed(fs::open(rt, place))?;
    keep(&mut used.sources, name, identity)?;
    Ok(file)
}

/// A file to append to, which is made where there is none, and emptied where it is a regular file. Failed is a regular
/// file that is in use, too; it stays as it is.
fn open_apart<R: Files>(
    rt: &R,
    used: &UsedFiles,
    path: &str,
) -> Result<Opened<R::File>, OutsideFault>
    ensures { IfOk result (λ opened. IfSome opened.identity (λ identity. is_used identity used.now ≡ false)) }
{
    let mut how = OpenOptions::new();
    how.append(true).create(true);
    let Opened { file, identity } = or_failed(how.open(rt, path))?;
    let Some(regular) = identity else {
        return Ok(Opened { file, identity });
    };
    if used.has(regular) || file.set_len(0).is_err() {
        return Err(OutsideFault::Failed);
    }
    Ok(Opened { file, identity })
}

/// Opens the file of a sink. All memory is taken before that.
pub fn open_sink<R: Files>(
    rt: &R,
    alloc: Global,
    used: &mut UsedFiles,
    path: &str,
) -> Result<R::File, OutsideFault>
    ensures ok { OnOk result (AddsSink path.now used.old used.new) }
    ensures err { OnErr result (SameFiles used.old used.new) }
{
    let name = String::from_str(alloc, path)?;
    used.sinks.reserve(1)?;
    let Opened { file, identity } = open_apart(rt, used, path)?;
    keep(&mut used.sinks, name, identity)?;
    Ok(file)
}
