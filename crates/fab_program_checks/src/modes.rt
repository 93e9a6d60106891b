//! Who may read a file.
ghost use Rattle.std.specs.Prelude.{ℕ, List, Option};

use fab_program_outside::Machine;
use std::fs::File;
use std::os::unix::fs::PermissionsExt;

/// Where the modes of files are told.
pub trait Modes {
    // What came of asking for the mode of the file at a path, if it was told.
    ghost has_mode: { Self → List ℕ → Option ℕ → Type 0 };

    /// The mode of the file at a path: the bits that say who may read, write and run it.
    fn mode(&self, path: &str) -> Option<u32>
        ensures { has_mode self.now path.now result };
}

/// This machine. No contract of the system says which mode a file has, so nothing is said of it here.
impl<'r> Modes for Machine<'r> {
    ghost use Rattle.std.specs.Prelude.{⊤};

    ghost has_mode = { λ machine path mode. ⊤ };

    fn mode(&self, path: &str) -> Option<u32> {
        let Ok(file) = File::open(self.rt, path) else {
            return None;
        };
        match file.metadata() {
            Ok(metadata) => Some(metadata.permissions().mode()),
            Err(_) => None,
        }
    }
}
