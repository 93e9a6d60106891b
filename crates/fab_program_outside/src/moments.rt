//! The moment at which a command comes, in Unix seconds.
ghost use Rattle.std.specs.Prelude.{◌≡◌, OnSome};
ghost use Rattle.fab_program_outside.specs.Moments.{IsMoment};

use crate::faults::Fault;
use std::time::{Clock, SystemTime};

/// The seconds since 1970-01-01T00:00:00Z, if the clock tells them.
pub fn seconds<C: Clock>(clock: &C) -> Option<u64> {
    let Ok(now) = SystemTime::now(clock) else {
        return None;
    };
    match now.duration_since(SystemTime::UNIX_EPOCH) {
        Ok(time) => Some(time.as_secs()),
        Err(_) => None,
    }
}

/// The moment that was given, which leaves the clock unread; or else the clock's.
///
/// # Errors
/// `Clock` where none was given and the clock tells none.
pub fn moment_of<N: FnMut() -> Option<u64>>(given: Option<u64>, now: &mut N) -> Result<u64, Fault>
    requires { (state : N) → N.pre state }
    ensures moment { IsMoment given (λ told. N.step now.old told now.new) result }
    ensures unread { OnSome given (now.new ≡ now.old) }
{
    if let Some(moment) = given {
        return Ok(moment);
    }
    match now() {
        Some(moment) => Ok(moment),
        None => Err(Fault::Clock),
    }
}
