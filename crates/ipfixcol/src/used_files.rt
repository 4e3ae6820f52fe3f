// The regular files that are in use: the texts that were asked for, and the sources and sinks that are out. The system
// tells a regular file by its device and its number there, whatever path it was opened by. A number belongs to another
// file only after the first has gone and nobody has it open: sources and sinks are open while they are out, but a text
// that was read and then removed can lend its number to a new file, which is then refused as a sink.
ghost use Rattle.std.specs.Prelude.{◌≡◌, ◌++◌, [], OnOk, OnErr};
ghost use Rattle.ipfixcol.specs.UsedFiles.{is_same, is_text, is_among, is_named, is_used, kept, without};

use std::alloc::{AllocError, Global};
use std::fs::OpenFile;
use std::io;
use std::os::unix::fs::MetadataExt;

/// Which regular file a file is: the number of its device, and its number there.
#[derive(Clone, Copy, Debug, PartialEq, Eq)]
pub struct FileIdentity {
    pub device: u64,
    pub number: u64,
}

/// The regular file of a source or a sink that is out, by the name that it was opened under.
#[derive(Drop)]
pub struct UsedFile {
    pub name: String,
    pub identity: FileIdentity,
}

/// The regular files of the texts that were asked for, and of the sources and sinks that are out.
#[derive(Drop)]
pub struct UsedFiles {
    pub texts: Vec<FileIdentity>,
    pub sources: Vec<UsedFile>,
    pub sinks: Vec<UsedFile>,
}

/// Which regular file an opened file is; none where it is no regular file, as a pipe, a device or a folder.
pub fn identity_of<F: OpenFile>(file: &F) -> io::Result<Option<FileIdentity>> {
    let metadata = file.metadata()?;
    if metadata.is_file() {
        Ok(Some(FileIdentity {
            device: metadata.dev(),
            number: metadata.ino(),
        }))
    } else {
        Ok(None)
    }
}

impl FileIdentity {
    /// Whether both are one file.
    fn is(self, other: FileIdentity) -> bool
        ensures { result ≡ is_same self other }
    {
        self.device == other.device && self.number == other.number
    }
}

impl UsedFile {
    fn is_named(&self, name: &str) -> bool
        ensures { result ≡ is_named name.now self.now }
    {
        self.name.as_str() == name
    }
}

/// Whether that file is one of these.
fn is_text(identity: FileIdentity, texts: &[FileIdentity]) -> bool
    ensures { result ≡ is_text identity texts.now }
{
    texts.iter().any(|text| identity.is(*text))
}

/// Whether one of these has that file.
fn is_among(identity: FileIdentity, files: &[UsedFile]) -> bool
    ensures { result ≡ is_among identity files.now }
{
    files.iter().any(|file| identity.is(file.identity))
}

/// Keeps a file under a name, if it is a regular one.
pub fn keep(
    files: &mut Vec<UsedFile>,
    name: String,
    identity: Option<FileIdentity>,
) -> Result<(), AllocError>
    ensures ok { OnOk result (files.new.items ≡ files.old.items ++ kept name identity) }
    ensures err { OnErr result (files.new.items ≡ files.old.items) }
{
    if let Some(identity) = identity {
        files.push(UsedFile { name, identity })?;
    }
    Ok(())
}

/// Leaves out the file of a name.
pub fn leave_out(files: &mut Vec<UsedFile>, name: &str)
    ensures { files.new.items ≡ without name.now files.old.items }
{
    files.retain(|file| !file.is_named(name));
}

impl UsedFiles {
    /// No file is in use. It takes no memory.
    pub fn new(alloc: Global) -> Self
        ensures texts { result.texts.items ≡ [] }
        ensures sources { result.sources.items ≡ [] }
        ensures sinks { result.sinks.items ≡ [] }
    {
        UsedFiles {
            texts: Vec::new(alloc),
            sources: Vec::new(alloc),
            sinks: Vec::new(alloc),
        }
    }

    /// Whether that file is in use.
    pub fn has(&self, identity: FileIdentity) -> bool
        ensures { result ≡ is_used identity self.now }
    {
        is_text(identity, &self.texts)
            || is_among(identity, &self.sources)
            || is_among(identity, &self.sinks)
    }
}
