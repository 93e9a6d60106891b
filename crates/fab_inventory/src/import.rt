//! The steps of an import, over maps and records.
ghost use Rattle.std.specs.Prelude.{◌≡◌, ◌≤◌, ℕ, OnOk, IfOk, IfErr};
ghost use Rattle.std.specs.Option.{option_map, option_copied};
ghost use Rattle.std.specs.Ordering.{nat_cmp};
ghost use Rattle.std.specs.BTreeMap.{get};
ghost use Rattle.std.specs.FinMap as map;
ghost use Rattle.fab_inventory.specs.Imports.{Agrees, CheckFails, ImportFails, IsImported, logged_in, logged_out, ListsIn};
ghost use Rattle.fab_inventory.specs.Limits.{most_ports};

use crate::limits::MOST_PORTS;
use crate::{InventoryFault, InventoryLimit, Known, PortRow};
use fab_names::{Fabric, Wwn};
use std::alloc::{AllocError, Allocator};
use std::collections::BTreeMap;

/// Whether the records of each port name are equal.
fn check_rows<A: Allocator + Clone>(alloc: A, rows: &[PortRow]) -> Result<(), InventoryFault>
    ensures ok { OnOk result (Agrees rows.now) }
    ensures err { IfErr result (CheckFails rows.now) }
{
    let mut seen: BTreeMap<Wwn, PortRow, A> = BTreeMap::new(alloc);
    for row in rows {
        match seen.get(&row.name) {
            Some(earlier) => {
                if *earlier != *row {
                    return Err(InventoryFault::PortClash(row.name));
                }
            }
            None => {
                seen.insert(row.name, *row)?;
            }
        }
    }
    Ok(())
}

/// Logs a port out where it is at the fabric.
fn log_out(known: &mut Known, fabric: Fabric)
    ensures { known.new ≡ logged_out fabric known.old }
{
    if let Some((at, _)) = known.at {
        if at == fabric {
            known.at = None;
            known.address = None;
        }
    }
}

/// The ports, where those at the fabric are logged in nowhere.
fn all_logged_out<A: Allocator + Clone>(
    ports: &BTreeMap<Wwn, Known, A>,
    fabric: Fabric,
) -> Result<BTreeMap<Wwn, Known, A>, AllocError>
    ensures { IfOk result (λ next. (q : ℕ) → get nat_cmp next q ≡ option_map (logged_out fabric) (get nat_cmp ports.now q)) }
{
    let mut next = ports.clone()?;
    next.retain(|_name, known| {
        log_out(known, fabric);
        true
    });
    Ok(next)
}

/// What is known of a listed port: it is logged in at the fabric, with the address of its record,
/// if there is one, and the holder that it had.
fn logged_in(fabric: Fabric, row: &PortRow, had: Option<&Known>) -> Known
    ensures { result ≡ logged_in fabric row.now (option_copied had.entry) }
{
    let holder = match had {
        Some(known) => known.holder,
        None => None,
    };
    Known {
        node: row.node,
        at: Some((fabric, row.place)),
        address: row.address,
        holder,
    }
}

/// Logs the listed ports in at the fabric, each with the holder that it had.
fn log_in<A: Allocator + Clone>(
    next: &mut BTreeMap<Wwn, Known, A>,
    ports: &BTreeMap<Wwn, Known, A>,
    fabric: Fabric,
    rows: &[PortRow],
) -> Result<(), AllocError>
    requires { Agrees rows.now }
    ensures { OnOk result (ListsIn fabric rows.now (get nat_cmp ports.now) (get nat_cmp next.old) (get nat_cmp next.new)) }
{
    for row in rows {
        let known = logged_in(fabric, row, ports.get(&row.name));
        next.insert(row.name, known)?;
    }
    Ok(())
}

/// The ports once the whole list of a fabric's ports is taken.
///
/// # Errors
/// `PortClash` at the first record that differs from an earlier one of its port name,
/// `Limit(Ports)` where more than 4096 ports would be known, or `Memory`.
pub fn imported_ports<A: Allocator + Copy>(
    alloc: A,
    ports: &BTreeMap<Wwn, Known, A>,
    fabric: Fabric,
    rows: &[PortRow],
) -> Result<BTreeMap<Wwn, Known, A>, InventoryFault>
    ensures ok { IfOk result (λ next. IsImported fabric rows.now (map.from_entries ports.now.entries) (map.from_entries next.entries)) }
    ensures few { IfOk result (λ next. map.len (map.from_entries {R = nat_cmp} next.entries) ≤ most_ports) }
    ensures err { IfErr result (ImportFails fabric rows.now (map.from_entries ports.now.entries)) }
{
    check_rows(alloc, rows)?;
    let mut next = all_logged_out(ports, fabric)?;
    log_in(&mut next, ports, fabric, rows)?;
    if next.len() > MOST_PORTS {
        return Err(InventoryFault::Limit(InventoryLimit::Ports));
    }
    Ok(next)
}
