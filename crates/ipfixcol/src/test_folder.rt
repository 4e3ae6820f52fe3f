// A folder for the files of a test.

use std::alloc::Global;
use std::env::{self, Env};
use std::fs;
use std::io::ErrorKind;
use std::rt::Files;
use std::test::Fail;

/// A folder below the system's for such files, which no other run has. It goes with all that is in it.
pub struct Folder<'a, R: Files + AllocGlobal> {
    rt: &'a R,
    path: String,
}

impl<'a, R: Files + Env + AllocGlobal> Folder<'a, R> {
    /// A new folder. Its name is the first that is free.
    pub fn new(rt: &'a R) -> Result<Self, Fail> {
        let alloc = rt.alloc();
        let above = env::temp_dir(rt)?;
        let above = above.as_str();
        for number in 0..1000 {
            let path = format!(in alloc; "{above}/ipfixcol-test-{number}")?;
            match fs::create_dir(rt, &path) {
                Ok(()) => return Ok(Folder { rt, path }),
                Err(error) => {
                    if error.kind() != ErrorKind::AlreadyExists {
                        return Err(Fail::from(error));
                    }
                }
            }
        }
        Err(Fail::from("no name is free"))
    }

    /// The path of a name in the folder.
    pub fn path(&self, alloc: Global, name: &str) -> Result<String, Fail> {
        let folder = self.path.as_str();
        Ok(format!(in alloc; "{folder}/{name}")?)
    }
}

impl<R: Files + AllocGlobal> Drop for Folder<'_, R> {
    fn drop(self) {
        let Folder { rt, path } = self;
        let _ = fs::remove_dir_all(rt, &path);
    }
}
