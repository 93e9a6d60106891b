//! The descriptors of standard input, output and error.

use crate::faults::Fault;
use std::fs::File;
use std::os::fd::{AsRawFd, IntoRawFd};

/// The last of the three.
const LAST: i32 = 2;

/// Opens `/dev/null` for each of the descriptors 0, 1 and 2 that is closed, to the end of the program:
/// else a file or a connection that is opened later would get its number, and lines of the log would
/// go into it.
///
/// # Errors
/// `Stream` where `/dev/null` cannot be opened.
pub fn open_standard(rt: &HostRuntime) -> Result<(), Fault> {
    for _ in 0..=LAST {
        let opened = File::options().read(true).write(true).open(rt, "/dev/null");
        let Ok(file) = opened else {
            return Err(Fault::Stream);
        };
        if file.as_raw_fd() > LAST {
            return Ok(());
        }
        file.into_raw_fd();
    }
    Ok(())
}
