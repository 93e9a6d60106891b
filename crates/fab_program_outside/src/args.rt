//! The words of the command line.

use std::alloc::AllocGlobal;
use std::env;
use std::env::Env;
use std::io::ErrorKind;

/// Why there are no words.
#[derive(Clone, Copy, Debug)]
pub enum ArgsFault {
    /// A word is not UTF-8.
    NotText,
    /// There was no memory.
    Memory,
}

/// The words of the command line, of which the first is the program's name.
///
/// # Errors
/// `NotText` where a word is not UTF-8, `Memory` where there is no memory for them.
pub fn words_of<R: Env + AllocGlobal>(rt: &R) -> Result<Vec<String>, ArgsFault> {
    match env::args(rt) {
        Ok(words) => match words.collect(rt.alloc()) {
            Ok(words) => Ok(words),
            Err(_) => Err(ArgsFault::Memory),
        },
        Err(error) => Err(if error.kind() == ErrorKind::InvalidData {
            ArgsFault::NotText
        } else {
            ArgsFault::Memory
        }),
    }
}
