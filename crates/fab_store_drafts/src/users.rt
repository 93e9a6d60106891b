//! Who uses what in a configuration.
ghost use Rattle.std.specs.Prelude.{◌≡◌, ◌↔◌, ℕ, List, OnOk, IfOk, IsTrue, true};
ghost use Rattle.std.specs.BTreeSet.{contains};
ghost use Rattle.fab_reach_base.specs.fab_lemmas.Adding.{Adds};
ghost use Rattle.fab_reach_base.specs.fab_names.Orders.{name_cmp};
ghost use Rattle.fab_store_drafts.specs.Uses.{Use};
ghost use Rattle.fab_store_drafts.specs.Users.{IsUse, AreUsers, PutsUse, TakesUse, PutsUses, TakesUses};

use crate::uses::{Used, use_of};
use fab_reach_base::Config;
use fab_reach_base::names::Name;
use fab_reach_base::zoning::{put_in_tree, take_from};
use fab_store_rows::{ConfigRow, config_rows};
use std::alloc::{AllocError, Allocator};
use std::collections::{BTreeMap, BTreeSet};

/// Who uses what in a configuration, as its rows tell.
#[derive(Drop)]
pub struct Users<A: Allocator + Copy> {
    /// Where their memory is from.
    pub alloc: A,
    /// The names of what uses it. Where nothing uses it any more there may be an empty set.
    pub users: BTreeMap<Used, BTreeSet<Name, A>, A>,
}

impl<A: Allocator + Copy> Users<A> {
    /// Nobody uses anything.
    fn new(alloc: A) -> Self
        ensures { (x : Use) → ¬ IsUse result x }
    {
        Users {
            alloc,
            users: BTreeMap::new(alloc),
        }
    }

    /// Puts what a row uses.
    ///
    /// # Errors
    /// `AllocError` where there is no memory.
    fn put_row(&mut self, row: &ConfigRow) -> Result<(), AllocError>
        ensures { OnOk result (PutsUse row.now self.old self.new) }
    {
        match use_of(row) {
            Some((used, user)) => put_in_tree(self.alloc, &mut self.users, used, user),
            None => Ok(()),
        }
    }

    /// Takes what a row uses. It takes no memory.
    fn take_row(&mut self, row: &ConfigRow)
        ensures { TakesUse row.now self.old self.new }
    {
        if let Some((used, user)) = use_of(row) {
            take_from(&mut self.users, &used, &user);
        }
    }

    /// Puts what the rows use.
    ///
    /// # Errors
    /// `AllocError` where there is no memory.
    pub fn put_rows(&mut self, rows: &[ConfigRow]) -> Result<(), AllocError>
        ensures { OnOk result (PutsUses rows.now self.old self.new) }
    {
        for row in rows {
            self.put_row(row)?;
        }
        Ok(())
    }

    /// Takes what the rows use. It takes no memory.
    pub fn take_rows(&mut self, rows: &[ConfigRow])
        ensures { TakesUses rows.now self.old self.new }
    {
        for row in rows {
            self.take_row(row);
        }
    }

    /// Whether something uses it. It takes no memory.
    pub fn is_used(&self, used: &Used) -> bool
        ensures { IsTrue result ↔ ((user : List ℕ) × IsUse self.now (used.now, user)) }
    {
        match self.users.get(used) {
            Some(users) => !users.is_empty(),
            None => false,
        }
    }

    /// Adds the names of what uses it to a set.
    ///
    /// # Errors
    /// `AllocError` where there is no memory.
    pub fn add_to(&self, names: &mut BTreeSet<Name, A>, used: &Used) -> Result<(), AllocError>
        ensures { OnOk result (Adds (λ user. IsUse self.now (used.now, user)) (contains name_cmp names.old) (contains name_cmp names.new)) }
    {
        match self.users.get(used) {
            Some(users) => add_all(names, users),
            None => Ok(()),
        }
    }
}

/// Adds the names of one set to another.
fn add_all<A: Allocator + Copy>(
    names: &mut BTreeSet<Name, A>,
    more: &BTreeSet<Name, A>,
) -> Result<(), AllocError>
    ensures { OnOk result (Adds (λ name. contains name_cmp more.now name ≡ true) (contains name_cmp names.old) (contains name_cmp names.new)) }
{
    for name in more {
        names.insert(*name)?;
    }
    Ok(())
}

/// Who uses what in a configuration.
///
/// # Errors
/// `AllocError` where there is no memory.
pub fn users_of<A: Allocator + Copy>(alloc: A, config: &Config<A>) -> Result<Users<A>, AllocError>
    ensures { IfOk result (λ users. AreUsers config.now users) }
{
    let rows = config_rows(alloc, config)?;
    let mut users = Users::new(alloc);
    users.put_rows(rows.as_slice())?;
    Ok(users)
}
