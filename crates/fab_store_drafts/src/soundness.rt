//! Whether a configuration is sound where rows went and came.
ghost use Rattle.std.specs.Prelude.{◌↔◌, IfOk, IsTrue};
ghost use Rattle.fab_store_drafts.specs.There.{IsSoundThere};
ghost use Rattle.fab_store_drafts.specs.Users.{AreUsers};

use crate::clashes::has_no_clash;
use crate::comers::all_may_come;
use crate::counts::{has_few_groups, have_sound_counts};
use crate::goers::all_may_go;
use crate::users::Users;
use fab_reach_base::Config;
use fab_store_rows::ConfigRow;
use std::alloc::{AllocError, Allocator};

/// Whether the configuration is sound where rows went and came.
///
/// # Errors
/// `AllocError` where there is no memory.
pub fn is_sound_there<A: Allocator + Copy>(
    config: &Config<A>,
    users: &Users<A>,
    go: &[ConfigRow],
    come: &[ConfigRow],
) -> Result<bool, AllocError>
    requires { AreUsers config.now users.now }
    ensures { IfOk result (λ is. IsTrue is ↔ IsSoundThere config.now go.now come.now) }
{
    if !all_may_come(config, come) {
        return Ok(false);
    }
    if !all_may_go(config, users, go) {
        return Ok(false);
    }
    if !have_sound_counts(config) {
        return Ok(false);
    }
    if !has_few_groups(config.mapping()) {
        return Ok(false);
    }
    has_no_clash(users.alloc, config, users, come)
}
