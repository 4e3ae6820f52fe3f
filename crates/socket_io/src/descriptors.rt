// How many descriptors the system still gives this process.

use libc::net::{EFD_CLOEXEC, eventfd};
use os::FromRawFd;
use std::os::fd::OwnedFd;

/// A descriptor that serves nothing; none where the process or the system has no more.
fn another() -> Option<OwnedFd> {
    let number = eventfd(0, EFD_CLOEXEC);
    if number < 0 {
        return None;
    }
    Some(unsafe { OwnedFd::from_raw_fd(number) })
}

/// Whether the system gives so many descriptors at a time. They are made to see it, and closed again.
pub fn are_left(count: u32) -> bool {
    if count == 0 {
        return true;
    }
    let Some(_held) = another() else {
        return false;
    };
    are_left(count - 1)
}
