// The standard streams that are closed when the program starts.

use std::fs;
use std::os::fd::AsRawFd;
use std::rt::Files;

/// The greatest number of a standard stream.
const LAST: i32 = 2;

/// What has the numbers of standard streams that are closed, until it is let go.
#[derive(Drop)]
pub struct Held<F: Drop> {
    first: Option<F>,
    second: Option<F>,
    third: Option<F>,
}

/// The root folder, where the system opens it under the number of a standard stream.
fn hold_one<R: Files>(rt: &R) -> Option<R::File>
where
    R::File: AsRawFd,
{
    match fs::open(rt, "/") {
        Ok(folder) => {
            if folder.as_raw_fd() <= LAST {
                Some(folder)
            } else {
                None
            }
        }
        Err(_) => None,
    }
}

/// Sees that no file that is opened later gets the number of a standard stream: the system gives the lowest that is
/// free, and then `/dev/stdout` would name that file. A folder can be neither read nor written.
pub fn hold_closed<R: Files>(rt: &R) -> Held<R::File>
where
    R::File: AsRawFd,
{
    Held {
        first: hold_one(rt),
        second: hold_one(rt),
        third: hold_one(rt),
    }
}
