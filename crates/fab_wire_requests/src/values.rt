//! The values that bodies are made of.

ghost use Rattle.std.specs.Prelude.{ℕ, ◌≡◌, ◌≢◌, [], List, length, MatchOption, IfOk, IfErr, IsTrue, ◌↔◌, string_bytes};
ghost use Rattle.serde_json.specs.View.{view};
ghost use Rattle.fab_wire_requests.specs.Values.{IsCapacity, IsName, IsPort};
ghost use Rattle.fab_wire_requests.specs.Bodies.{HasValue, HasNoValue, IsFault};

use crate::fault::BodyFault;
use fab_inventory::MOST_BYTES;
use fab_names::{Name, Wwn};
use serde_json::{Map, Value};
use std::alloc::Global;

/// The value that a text is.
///
/// # Errors
/// `Bad` where it is none, or `Memory`, and never that for an empty text.
pub fn value_of(global: Global, text: &[u8]) -> Result<Value, BodyFault>
    ensures ok { IfOk result (λ value. HasValue text.now (view value)) }
    ensures err { IfErr result (IsFault (HasNoValue text.now)) }
    ensures empty { IfErr result (λ fault. fault ≡ BodyFault.Memory → text.now ≢ []) }
{
    match Value::from_slice(global, text) {
        Ok(value) => Ok(value),
        Err(fault) => {
            if fault.is_memory() {
                Err(BodyFault::Memory)
            } else {
                Err(BodyFault::Bad)
            }
        }
    }
}

/// Whether a map has so many keys.
pub fn has_keys(map: &Map<String, Value>, count: usize) -> bool
    ensures { IsTrue result ↔ (length map.now.entries ≡ count) }
{
    map.len() == count
}

/// Whether a key is this text.
pub fn is_key(key: &String, text: &str) -> bool
    ensures { IsTrue result ↔ (string_bytes key.now ≡ text.now) }
{
    key.as_str() == text
}

/// The name that a value is, if it is one.
pub fn name_in(value: &Value) -> Option<Name>
    ensures { MatchOption result ((name : List ℕ) → ¬ (IsName (view value.now) name))
        (IsName (view value.now)) }
{
    let Some(text) = value.as_str() else {
        return None;
    };
    match Name::read(text) {
        Ok(name) => Some(name),
        Err(_) => None,
    }
}

/// The world-wide name that a value is, if it is one.
pub fn port_in(value: &Value) -> Option<Wwn>
    ensures { MatchOption result ((port : ℕ) → ¬ (IsPort (view value.now) port))
        (IsPort (view value.now)) }
{
    let Some(text) = value.as_str() else {
        return None;
    };
    match Wwn::read(text) {
        Ok(wwn) => Some(wwn),
        Err(_) => None,
    }
}

/// The capacity that a value is, if it is one.
pub fn capacity_in(value: &Value) -> Option<u64>
    ensures { MatchOption result ((bytes : ℕ) → ¬ (IsCapacity (view value.now) bytes))
        (IsCapacity (view value.now)) }
{
    let Some(bytes) = value.as_u64() else {
        return None;
    };
    if bytes == 0 || bytes > MOST_BYTES {
        return None;
    }
    Some(bytes)
}
