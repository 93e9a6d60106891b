//! A policy: its callers, its windows and its rules.
ghost use Rattle.std.specs.Prelude.{◌≡◌};
ghost use Rattle.fab_policy_base.specs.Sound.{IsSound};
ghost use Rattle.fab_policy_base.specs.Words.{action_word};

use crate::text::Text;
use fab_names::{Fabric, Name};
use std::marker::Model;

/// What an act does, as a policy names it.
#[derive(Clone, Copy, PartialEq, Eq)]
pub enum Action {
    /// Takes over the ports that a fabric reports.
    Import,
    /// Puts or drops a host, an array or a volume.
    Inventory,
    /// Stages a plan.
    Stage,
    /// Withdraws a plan.
    Withdraw,
    /// Approves a plan.
    Approve,
    /// Tells what a plan would change.
    DryRun,
    /// Activates a plan.
    Activate,
    /// Rolls back the plan that was activated last.
    Rollback,
}

impl Action {
    /// The word for the action, as a policy names it.
    pub fn word(self) -> &'static str
        ensures { result.now ≡ action_word self }
    {
        match self {
            Action::Import => "import",
            Action::Inventory => "inventory",
            Action::Stage => "stage",
            Action::Withdraw => "withdraw",
            Action::Approve => "approve",
            Action::DryRun => "dryrun",
            Action::Activate => "activate",
            Action::Rollback => "rollback",
        }
    }
}

/// Which tenants are a caller's.
#[derive(Drop)]
pub enum Tenants {
    /// Every tenant.
    All,
    /// Those in the list.
    Listed(Vec<Name>),
}

/// Somebody who sends requests.
pub struct Caller {
    /// No other caller has this name.
    pub name: Name,
    /// What the caller shows with each request; no other caller has it.
    pub token: Text,
    /// The roles that rules ask for.
    pub roles: Vec<Name>,
    /// The tenants whose things the caller may see and touch.
    pub tenants: Tenants,
}

// It is written out, so that a caller does not prove again how each part is dropped.
impl Drop for Caller {
    fn drop(self) {
        let Caller {
            name: _,
            token: _,
            roles: _,
            tenants: _,
        } = self;
    }
}

impl Model for Caller {
    ghost use Rattle.fab_policy_base.specs.Policies.{CallerRow, tenants_of};

    ghost Value = { CallerRow };

    ghost view = { λ c. record {
      name = c.name;
      token = c.token;
      roles = c.roles.items;
      tenants = tenants_of c.tenants;
    } };
}

/// How many minutes a week has.
pub const WEEK_MINUTES: u64 = 10080;

/// A part of each week, in minutes from Monday 00:00 UTC: from the first on, before the second.
#[derive(Clone, Copy)]
pub struct WeekSpan {
    /// Its first minute.
    pub from: u64,
    /// The minute after its last, at most `WEEK_MINUTES`.
    pub until: u64,
}

/// A time without changes, in Unix seconds: from the first on, before the second.
#[derive(Clone, Copy)]
pub struct Freeze {
    /// Its first second.
    pub from: u64,
    /// The second after its last.
    pub until: u64,
}

/// Moments at which changes may be made.
pub struct Window {
    /// No other window has this name.
    pub name: Name,
    /// Open in these parts of each week,
    pub weekly: Vec<WeekSpan>,
    /// but not in these times.
    pub freeze: Vec<Freeze>,
}

// It is written out, so that a caller does not prove again how each part is dropped.
impl Drop for Window {
    fn drop(self) {
        let Window {
            name: _,
            weekly: _,
            freeze: _,
        } = self;
    }
}

impl Model for Window {
    ghost use Rattle.fab_policy_base.specs.Policies.{WindowRow};

    ghost Value = { WindowRow };

    ghost view = { λ w. record { name = w.name; weekly = w.weekly.items; freeze = w.freeze.items } };
}

/// How far a rule lets a caller reach.
#[derive(Clone, Copy)]
pub enum Scope {
    /// To the caller's own tenants.
    Own,
}

/// The approvals that a rule asks for.
#[derive(Clone, Copy)]
pub struct Quorum {
    /// From how many callers, 1 to 16.
    pub count: usize,
    /// The role that each of them has.
    pub approver: Option<Name>,
    /// Whether an approval counts at the present revision alone.
    pub fresh: bool,
    /// Whether each touched tenant has an approval of a caller who lists it.
    pub each_tenant: bool,
}

/// A rule: the acts that it speaks of, and what it asks of them.
pub struct Rule {
    /// No other rule has this name.
    pub name: Name,
    /// The actions that it speaks of,
    pub actions: Vec<Action>,
    /// in this fabric alone, where one is given.
    pub fabric: Option<Fabric>,
    /// The role that the caller has.
    pub role: Option<Name>,
    /// Whose things the act may touch.
    pub scope: Option<Scope>,
    /// The name of the window in which the act comes.
    pub window: Option<Name>,
    /// Who approved.
    pub approvals: Option<Quorum>,
}

// It is written out, so that a caller does not prove again how each part is dropped.
impl Drop for Rule {
    fn drop(self) {
        let Rule {
            name: _,
            actions: _,
            fabric: _,
            role: _,
            scope: _,
            window: _,
            approvals: _,
        } = self;
    }
}

impl Model for Rule {
    ghost use Rattle.fab_policy_base.specs.Policies.{RuleRow};

    ghost Value = { RuleRow };

    ghost view = { λ r. record {
      name = r.name;
      actions = r.actions.items;
      fabric = r.fabric;
      role = r.role;
      scope = r.scope;
      window = r.window;
      approvals = r.approvals;
    } };
}

/// Who may change what, and when: callers, windows, and rules in their order.
///
/// A contract sees a policy as the lists of its rows. Names and tokens stand once, each window
/// that a rule names is there, and no limit is passed.
pub struct Policy {
    pub(crate) callers: Vec<Caller>,
    pub(crate) windows: Vec<Window>,
    pub(crate) rules: Vec<Rule>,
}

// It is written out, so that a caller does not prove again how each part is dropped.
impl Drop for Policy {
    fn drop(self) {
        let Policy {
            callers: _,
            windows: _,
            rules: _,
        } = self;
    }
}

impl Model for Policy {
    ghost use Rattle.fab_policy_base.specs.Policies.{PolicyRows};
    ghost use Rattle.fab_policy_base.specs.Sound.{IsSound};

    ghost Value = { PolicyRows };

    ghost view = { λ p. record { callers = p.callers.items; windows = p.windows.items; rules = p.rules.items } };

    ghost invariant = { λ p. IsSound (record { callers = p.callers.items; windows = p.windows.items; rules = p.rules.items }) };
}

impl Policy {
    /// A policy of these callers, windows and rules, in which names and tokens stand once, each window that a
    /// rule names is there, and no limit is passed.
    pub fn new(callers: Vec<Caller>, windows: Vec<Window>, rules: Vec<Rule>) -> Policy
        requires { IsSound (record { callers = callers.items; windows = windows.items; rules = rules.items }) }
        ensures { result ≡ record { callers = callers.items; windows = windows.items; rules = rules.items } }
    {
        Policy {
            callers,
            windows,
            rules,
        }
    }
}
