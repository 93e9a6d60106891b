//! The body of a volume.

ghost use Rattle.std.specs.Prelude.{◌≡◌, ◌≢◌, [], MatchOption, codes, IfOk, IfErr};
ghost use Rattle.serde_json.specs.Data.{Data, object, member, no_members};
ghost use Rattle.serde_json.specs.View.{view};
ghost use Rattle.fab_wire_requests.specs.Bodies.{SpellsVolume, SpellsNoVolume, IsFault};

use crate::fault::BodyFault;
use crate::values::{capacity_in, has_keys, is_key, name_in, value_of};
use fab_inventory::Volume;
use serde_json::Value;
use std::alloc::Global;

/// Reads the body of a volume: `{"array":..,"bytes":..,"tenant":..}`, an object with just these
/// keys, whose array and tenant are names, and whose bytes are a number from 1 to
/// 9223372036854775807 that is written whole, without a fraction or an exponent.
///
/// `global` is for what `serde_json` makes on the way, of which nothing is left. The volume itself
/// takes no memory.
///
/// # Errors
/// `Bad` where the text spells no such body, also where it is not UTF-8 or no JSON. `Memory` where
/// there was none, and never for an empty text.
pub fn read_volume(global: Global, text: &[u8]) -> Result<Volume, BodyFault>
    ensures ok { IfOk result (SpellsVolume text.now) }
    ensures err { IfErr result (IsFault (SpellsNoVolume text.now)) }
    ensures empty { IfErr result (λ fault. fault ≡ BodyFault.Memory → text.now ≢ []) }
{
    let value = match value_of(global, text) {
        Ok(value) => value,
        Err(fault) => return Err(fault),
    };
    let Some((array, bytes, tenant)) = volume_members(&value) else {
        return Err(BodyFault::Bad);
    };
    let Some(array) = name_in(array) else {
        return Err(BodyFault::Bad);
    };
    let Some(bytes) = capacity_in(bytes) else {
        return Err(BodyFault::Bad);
    };
    let Some(tenant) = name_in(tenant) else {
        return Err(BodyFault::Bad);
    };
    Ok(Volume {
        array,
        tenant,
        bytes,
    })
}

/// The values of an object with the keys of a volume and no other.
fn volume_members(value: &Value) -> Option<(&Value, &Value, &Value)>
    ensures { MatchOption result
        ((a b c : Data) → ¬ (view value.now ≡ object (member (codes "array") a (member (codes "bytes") b (member (codes "tenant") c no_members)))))
        (λ p. view value.now ≡ object (member (codes "array") (view p.0.now) (member (codes "bytes") (view p.1.now) (member (codes "tenant") (view p.2.now) no_members)))) }
{
    let Some(map) = value.as_object() else {
        return None;
    };
    if !has_keys(map, 3) {
        return None;
    }
    let Some((one, a)) = map.first_key_value() else {
        return None;
    };
    let Some((three, c)) = map.last_key_value() else {
        return None;
    };
    if !is_key(one, "array") {
        return None;
    }
    if !is_key(three, "tenant") {
        return None;
    }
    let Some(b) = value.get("bytes") else {
        return None;
    };
    Some((a, b, c))
}
