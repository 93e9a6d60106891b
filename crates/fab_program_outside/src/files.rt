//! Files, by their paths.
ghost use Rattle.std.specs.Prelude.{ℕ, List, Option, MatchBool};
ghost use Rattle.fab_program_outside.specs.declared.files.Size.{Size};
ghost use Rattle.fab_program_outside.specs.Contents.{IsUsed, IsFree};

use std::fs::File;
use std::io::{ErrorKind, Read};

/// What stands at a path.
#[derive(Clone, Copy)]
pub enum Size {
    /// Nothing is there.
    Nothing,
    /// A file of so many bytes.
    Bytes(u64),
    /// Nobody can tell.
    Unknown,
}

/// Where files are found by their paths.
pub trait Files {
    /// An open file.
    type File: Read + Drop;

    // What came of opening the file at a path, if it was opened.
    ghost opens: { Self → List ℕ → Option Self.File → Type 0 };

    // What stands at a path.
    ghost measures: { Self → List ℕ → Size → Type 0 };

    /// The file at a path, if it is there and can be opened.
    fn open(&self, path: &str) -> Option<Self::File>
        ensures { opens self.now path.now result };

    /// What stands at a path.
    fn size(&self, path: &str) -> Size
        ensures { measures self.now path.now result };
}

/// This machine. No contract of the system says what stands at a path, so nothing is said of it here.
#[derive(Clone, Copy)]
pub struct Machine<'r> {
    /// Through which the system is asked.
    pub rt: &'r HostRuntime,
}

impl<'r> Files for Machine<'r> {
    ghost use Rattle.std.specs.Prelude.{⊤};

    type File = File;

    ghost opens = { λ machine path file. ⊤ };

    ghost measures = { λ machine path size. ⊤ };

    fn open(&self, path: &str) -> Option<File> {
        File::open(self.rt, path).ok()
    }

    fn size(&self, path: &str) -> Size {
        match File::open(self.rt, path) {
            Ok(file) => match file.metadata() {
                Ok(metadata) => Size::Bytes(metadata.len()),
                Err(_) => Size::Unknown,
            },
            Err(error) if error.kind() == ErrorKind::NotFound => Size::Nothing,
            Err(_) => Size::Unknown,
        }
    }
}

/// Whether nothing is at a path but an empty file at most.
pub fn is_free<F: Files>(files: &F, path: &str) -> bool
    ensures { MatchBool result (IsFree (F.measures files.now path.now)) (IsUsed (F.measures files.now path.now)) }
{
    match files.size(path) {
        Size::Nothing => true,
        Size::Bytes(bytes) => bytes == 0,
        Size::Unknown => false,
    }
}
