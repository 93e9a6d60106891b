//! Why a file is not played to its end.

use std::alloc::{AllocError, AllocFailed};
use std::fmt::{self, Display};

/// Why it is not.
#[derive(Clone, Copy)]
pub enum Fault {
    /// The file cannot be read, or is not UTF-8.
    File,
    /// What is told cannot be written.
    Output,
    /// There was no memory.
    Memory,
    /// The line of this number, from 1 on, is not of the form.
    Text(usize),
    /// The line of this number is not of the form, or what it says can not be done or told.
    Undone(usize),
    /// The scenario that begins in the line of this number has no policy, or one that is none.
    Policy(usize),
    /// There is no new desk for the scenario that begins in the line of this number.
    Desk(usize),
}

impl Display for Fault {
    fn fmt<W: fmt::Write>(&self, f: &mut fmt::Formatter<W>) -> fmt::Result {
        match self {
            Fault::File => write!(f, "it cannot be read"),
            Fault::Output => write!(f, "what it comes to cannot be written"),
            Fault::Memory => write!(f, "there is no memory"),
            Fault::Text(line) => write!(f, "line {line} is not of the form"),
            Fault::Undone(line) => {
                write!(
                    f,
                    "line {line} is not of the form, or can not be done or told"
                )
            }
            Fault::Policy(line) => write!(f, "the scenario of line {line} has no policy"),
            Fault::Desk(line) => write!(f, "the scenario of line {line} gets no desk"),
        }
    }
}

impl From<AllocError> for Fault {
    fn from(_error: AllocError) -> Self {
        Fault::Memory
    }
}

impl<T: Drop> From<AllocFailed<T>> for Fault {
    fn from(_error: AllocFailed<T>) -> Self {
        Fault::Memory
    }
}
