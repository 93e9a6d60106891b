//! A configuration that is led back through changes, with who uses what in it.
ghost use Rattle.std.specs.Prelude.{◌≡◌, ◌↔◌, IsTrue, IfOk, true, false};
ghost use Rattle.fab_reach_base.specs.Records.{ConfigRows};
ghost use Rattle.fab_reach_base.specs.Soundness.{IsSoundAlone};
ghost use Rattle.fab_store_rows.specs.Differences.{IsDifference};
ghost use Rattle.fab_store_drafts.specs.Back.{IsEarlier, IsOnlyEarlier};
ghost use Rattle.fab_store_drafts.specs.There.{IsSoundThere};
ghost use Rattle.fab_store_rows.specs.Tidy.{IsTidy};

use crate::soundness::is_sound_there;
use crate::users::{Users, users_of};
use fab_reach_base::Config;
use fab_store_edits::lead;
use fab_store_rows::{ConfigRow, RowDifference};
use std::alloc::{AllocError, Allocator};
use std::marker::Model;

/// A configuration with who uses what, where that is known. A contract sees the configuration.
pub struct Draft<A: Allocator + Copy> {
    config: Config<A>,
    users: Users<A>,
    /// Whether the users are those of the configuration.
    are_known: bool,
}

// It is written out, so that a caller does not prove again how each part is dropped.
impl<A: Allocator + Copy> Drop for Draft<A> {
    fn drop(self) {
        let Draft {
            config: _,
            users: _,
            are_known: _,
        } = self;
    }
}

impl<A: Allocator + Copy> Model for Draft<A> {
    ghost use Rattle.std.specs.Prelude.{◌≡◌, true};
    ghost use Rattle.fab_reach_base.specs.Records.{ConfigRows, config_code};
    ghost use Rattle.fab_store_drafts.specs.Users.{AreUsers};
    ghost use Rattle.fab_store_rows.specs.Tidy.{IsTidy};

    ghost Value = { ConfigRows };

    ghost coded = { config_code };

    ghost view = { λ d. d.config };

    ghost invariant = { λ d. IsTidy d.config × (d.are_known ≡ true → AreUsers d.config d.users) };
}

impl<A: Allocator + Copy> Draft<A> {
    /// The draft of a configuration, with who uses what in it.
    ///
    /// # Errors
    /// `AllocError` where there is no memory.
    pub fn of(alloc: A, config: Config<A>) -> Result<Draft<A>, AllocError>
        requires { IsTidy config }
        ensures { IfOk result (λ draft. draft ≡ config) }
    {
        let users = users_of(alloc, &config)?;
        Ok(Draft {
            config,
            users,
            are_known: true,
        })
    }

    /// The configuration.
    pub fn config(&self) -> &Config<A>
        ensures { result.now ≡ self.now }
    {
        &self.config
    }

    /// Takes out the rows that go and puts in those that come, and tells whether a configuration has
    /// just the rows that are then there; and none has where one that goes was not there, or one
    /// that comes was. Where it has not, or there is no memory, the draft is some other one, and who
    /// uses what is not known.
    ///
    /// # Errors
    /// `AllocError` where there is no memory.
    pub fn lead(&mut self, go: &[ConfigRow], come: &[ConfigRow]) -> Result<bool, AllocError>
        ensures led { IfOk result (λ led. led ≡ true → IsDifference self.new self.old come.now go.now) }
        ensures none { IfOk result (λ led. led ≡ false → (b : ConfigRows) → ¬ IsDifference b self.old come.now go.now) }
        ensures tidy { IsTidy self.old → IsTidy self.new }
    {
        let were_known = self.are_known;
        self.are_known = false;
        if !lead(self.users.alloc, &mut self.config, go, come)? {
            return Ok(false);
        }
        self.users.take_rows(go);
        self.users.put_rows(come)?;
        self.are_known = were_known;
        Ok(true)
    }

    /// Whether it is sound where rows went and came.
    ///
    /// # Errors
    /// `AllocError` where there is no memory.
    pub fn is_sound_there(&self, go: &[ConfigRow], come: &[ConfigRow]) -> Result<bool, AllocError>
        ensures { IfOk result (λ is. IsTrue is ↔ IsSoundThere self.now go.now come.now) }
    {
        if self.are_known {
            return is_sound_there(&self.config, &self.users, go, come);
        }
        let users = users_of(self.users.alloc, &self.config)?;
        is_sound_there(&self.config, &users, go, come)
    }

    /// Goes back to the configuration from before a change, if there is one: it is sound, and the only
    /// one that is.
    ///
    /// # Errors
    /// `AllocError` where there is no memory.
    pub fn undo(&mut self, change: &RowDifference<A>) -> Result<bool, AllocError>
        requires { IsSoundAlone self.old }
        ensures done { IfOk result (λ is. is ≡ true → IsOnlyEarlier self.old change.now.taken.items change.now.added.items self.new) }
        ensures none { IfOk result (λ is. is ≡ false → (b : ConfigRows) → ¬ IsEarlier self.old change.now.taken.items change.now.added.items b) }
    {
        let go = change.added.as_slice();
        let come = change.taken.as_slice();
        if !self.lead(go, come)? {
            return Ok(false);
        }
        self.is_sound_there(go, come)
    }
}
