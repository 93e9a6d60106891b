//! What the tables of a policy's text mean.
ghost use Rattle.std.specs.Prelude.{IfOk, OnOk};
ghost use Rattle.toml.specs.View.{table_view};
ghost use Rattle.fab_policy_text.specs.Shapes as shapes;
ghost use Rattle.fab_policy_text.specs.Tables as tables;

use crate::forms::{Actions, RuleName, quorum};
use crate::read::{Read, field, list_at, only, optional, optional_list};
use fab_policy_base::limits::{MOST_FREEZES, MOST_ROLES, MOST_WEEKLY};
use fab_policy_base::{Caller, Key, PolicyFault, Rule, Window};
use std::alloc::Global;
use toml::{Table, Value};

/// Reads the table of a caller.
fn caller_of(alloc: Global, table: &Table) -> Result<Caller, PolicyFault>
    ensures ok { IfOk result (tables.IsCallerTable (table_view table.now)) }
    ensures fault { shapes.IfRefused result (tables.CallerFault (table_view table.now)) }
{
    only(
        alloc,
        table,
        &[Key::Name, Key::Token, Key::Roles, Key::Tenants],
    )?;
    let name = field(alloc, table, Key::Name)?;
    let token = field(alloc, table, Key::Token)?;
    let roles = list_at(alloc, table, Key::Roles, MOST_ROLES)?;
    let tenants = field(alloc, table, Key::Tenants)?;
    Ok(Caller {
        name,
        token,
        roles,
        tenants,
    })
}

impl Read for Caller {
    ghost use Rattle.fab_policy_text.specs.Shapes.{IsTable, TableFault};
    ghost use Rattle.fab_policy_text.specs.Tables.{IsCallerTable, CallerFault};

    ghost means = { IsTable IsCallerTable };

    ghost wrong = { TableFault CallerFault };

    fn read(alloc: Global, value: &Value, key: Key) -> Result<Caller, PolicyFault> {
        match value.as_table() {
            Some(table) => caller_of(alloc, table),
            None => Err(PolicyFault::WrongType(key)),
        }
    }
}

/// Reads the table of a window.
fn window_of(alloc: Global, table: &Table) -> Result<Window, PolicyFault>
    ensures ok { IfOk result (tables.IsWindowTable (table_view table.now)) }
    ensures fault { shapes.IfRefused result (tables.WindowFault (table_view table.now)) }
{
    only(alloc, table, &[Key::Name, Key::Weekly, Key::Freeze])?;
    let name = field(alloc, table, Key::Name)?;
    let weekly = list_at(alloc, table, Key::Weekly, MOST_WEEKLY)?;
    let freeze = optional_list(alloc, table, Key::Freeze, MOST_FREEZES)?;
    Ok(Window {
        name,
        weekly,
        freeze,
    })
}

impl Read for Window {
    ghost use Rattle.fab_policy_text.specs.Shapes.{IsTable, TableFault};
    ghost use Rattle.fab_policy_text.specs.Tables.{IsWindowTable, WindowFault};

    ghost means = { IsTable IsWindowTable };

    ghost wrong = { TableFault WindowFault };

    fn read(alloc: Global, value: &Value, key: Key) -> Result<Window, PolicyFault> {
        match value.as_table() {
            Some(table) => window_of(alloc, table),
            None => Err(PolicyFault::WrongType(key)),
        }
    }
}

/// Refuses a table with a key that no rule has.
fn only_rule_keys(alloc: Global, table: &Table) -> Result<(), PolicyFault>
    ensures ok { OnOk result (shapes.HasOnly tables.rule_keys (table_view table.now)) }
    ensures fault { shapes.IfRefused result (shapes.HasOther tables.rule_keys (table_view table.now)) }
{
    only(
        alloc,
        table,
        &[
            Key::Name,
            Key::Actions,
            Key::Fabric,
            Key::Role,
            Key::Scope,
            Key::Window,
            Key::Approvals,
            Key::Approver,
            Key::Fresh,
            Key::EachTenant,
        ],
    )
}

/// Reads the table of a rule.
fn rule_of(alloc: Global, table: &Table) -> Result<Rule, PolicyFault>
    ensures ok { IfOk result (tables.IsRuleTable (table_view table.now)) }
    ensures fault { shapes.IfRefused result (tables.RuleFault (table_view table.now)) }
{
    only_rule_keys(alloc, table)?;
    let name: RuleName = field(alloc, table, Key::Name)?;
    let actions: Actions = field(alloc, table, Key::Actions)?;
    let fabric = optional(alloc, table, Key::Fabric)?;
    let role = optional(alloc, table, Key::Role)?;
    let scope = optional(alloc, table, Key::Scope)?;
    let window = optional(alloc, table, Key::Window)?;
    let approvals = quorum(alloc, table)?;
    Ok(Rule {
        name: name.name,
        actions: actions.words,
        fabric,
        role,
        scope,
        window,
        approvals,
    })
}

impl Read for Rule {
    ghost use Rattle.fab_policy_text.specs.Shapes.{IsTable, TableFault};
    ghost use Rattle.fab_policy_text.specs.Tables.{IsRuleTable, RuleFault};

    ghost means = { IsTable IsRuleTable };

    ghost wrong = { TableFault RuleFault };

    fn read(alloc: Global, value: &Value, key: Key) -> Result<Rule, PolicyFault> {
        match value.as_table() {
            Some(table) => rule_of(alloc, table),
            None => Err(PolicyFault::WrongType(key)),
        }
    }
}
