//! The body of a host or an array.

ghost use Rattle.std.specs.Prelude.{ℕ, ◌≡◌, ◌≢◌, [], List, MatchOption, IfOk, IfErr};
ghost use Rattle.serde_json.specs.Data.{Data, object, member, no_members};
ghost use Rattle.serde_json.specs.View.{view, items_view};
ghost use Rattle.fab_wire_requests.specs.Values.{SpellsPorts, ArePorts};
ghost use Rattle.fab_wire_requests.specs.Bodies.{SpellsHolder, SpellsNoHolder, IsFault};

use crate::fault::BodyFault;
use crate::values::{has_keys, is_key, name_in, port_in, value_of};
use fab_inventory::MOST_PORTS_OF_HOLDER;
use fab_names::{Name, Wwn};
use serde_json::Value;
use std::alloc::{Allocator, Global};

/// What the body of a host or an array says.
#[derive(Drop)]
pub struct HolderBody<A: Allocator> {
    /// Its ports as listed: at most 64, equal ones counted.
    pub ports: Vec<Wwn, A>,
    /// Whose it is.
    pub tenant: Name,
}

/// Reads the body of a host or an array: `{"ports":[..],"tenant":..}`, an object with just these
/// keys, whose ports are at most 64 texts of world-wide names, equal ones counted, and whose tenant
/// is a name.
///
/// `alloc` is for the ports, and `global` for what `serde_json` makes on the way, of which nothing
/// is left.
///
/// # Errors
/// `Bad` where the text spells no such body, also where it is not UTF-8 or no JSON. `Memory` where
/// there was none, and never for an empty text. No port is left of what was read.
pub fn read_holder<A: Allocator>(
    alloc: A,
    global: Global,
    text: &[u8],
) -> Result<HolderBody<A>, BodyFault>
    ensures ok { IfOk result (λ body. SpellsHolder text.now body.ports.items body.tenant) }
    ensures err { IfErr result (IsFault (SpellsNoHolder text.now)) }
    ensures empty { IfErr result (λ fault. fault ≡ BodyFault.Memory → text.now ≢ []) }
{
    let value = match value_of(global, text) {
        Ok(value) => value,
        Err(fault) => return Err(fault),
    };
    let Some((ports, tenant)) = two_members(&value, "ports", "tenant") else {
        return Err(BodyFault::Bad);
    };
    let Some(tenant) = name_in(tenant) else {
        return Err(BodyFault::Bad);
    };
    match ports_in(alloc, ports) {
        Ok(ports) => Ok(HolderBody { ports, tenant }),
        Err(fault) => Err(fault),
    }
}

/// The values of an object with just these two keys.
fn two_members<'v>(value: &'v Value, first: &str, second: &str) -> Option<(&'v Value, &'v Value)>
    ensures { MatchOption result
        ((a b : Data) → ¬ (view value.now ≡ object (member first.now a (member second.now b no_members))))
        (λ p. view value.now ≡ object (member first.now (view p.0.now) (member second.now (view p.1.now) no_members))) }
{
    let Some(map) = value.as_object() else {
        return None;
    };
    if !has_keys(map, 2) {
        return None;
    }
    let Some((one, a)) = map.first_key_value() else {
        return None;
    };
    let Some((two, b)) = map.last_key_value() else {
        return None;
    };
    if !is_key(one, first) {
        return None;
    }
    if !is_key(two, second) {
        return None;
    }
    Some((a, b))
}

/// The world-wide names that a value is a list of, at most 64.
///
/// # Errors
/// `Bad` where it is no such list, or `Memory`.
fn ports_in<A: Allocator>(alloc: A, value: &Value) -> Result<Vec<Wwn, A>, BodyFault>
    ensures ok { IfOk result (λ ports. ArePorts (view value.now) ports.items) }
    ensures err { IfErr result (IsFault ((ports : List ℕ) → ¬ (ArePorts (view value.now) ports))) }
{
    let Some(list) = value.as_array() else {
        return Err(BodyFault::Bad);
    };
    let values = list.as_slice();
    if values.len() > MOST_PORTS_OF_HOLDER {
        return Err(BodyFault::Bad);
    }
    read_ports(alloc, values)
}

/// The world-wide names that values are, in order.
///
/// # Errors
/// `Bad` where one of them is none, or `Memory`.
fn read_ports<A: Allocator>(alloc: A, values: &[Value]) -> Result<Vec<Wwn, A>, BodyFault>
    ensures ok { IfOk result (λ ports. SpellsPorts (items_view values.now) ports.items) }
    ensures err { IfErr result (IsFault ((ports : List ℕ) → ¬ (SpellsPorts (items_view values.now) ports))) }
{
    let mut ports = Vec::new(alloc);
    for value in values {
        let Some(port) = port_in(value) else {
            return Err(BodyFault::Bad);
        };
        let Ok(()) = ports.push(port) else {
            return Err(BodyFault::Memory);
        };
    }
    Ok(ports)
}
