//! Objects and arrays, piece by piece.

ghost use Rattle.std.specs.Prelude.{ℕ, ◌+◌, ◌≤◌, length, OnOk};
ghost use Rattle.serde_json.specs.Data.{Members, object, member, no_members};
ghost use Rattle.serde_json.specs.Written.{comma_if};
ghost use Rattle.fab_wire_streams.specs.Taking.{Takes};
ghost use Rattle.fab_wire_streams.specs.JsonText.{members_json};
ghost use Rattle.fab_wire_streams.specs.Values.{list_data, maybe_member};
ghost use Rattle.fab_wire_streams.specs.Bounds.{key_most, maybe_most, sum_of};
ghost use Rattle.fab_wire_streams.specs.Pieces.{key_json, item_json};

use crate::escapes::put_string;
use crate::sink::Sink;
use crate::streams::WriteFailed;
use crate::values::Json;

/// An object of these members, in the order in which they stand. Behind a key, `?` in place of
/// `:` leaves the member out where its `Option` has no value.
///
/// ```
/// object! { "error": Text("exists"), "name": name, "step"? step }
/// ```
#[macro_export]
macro_rules! object {
    ($($members:tt)*) => {
        $crate::structures::Object($crate::members!($($members)*))
    };
}

/// The members of `object!`, each behind the one before.
#[macro_export]
macro_rules! members {
    () => {
        $crate::structures::End
    };
    ($key:literal : $value:expr $(, $($rest:tt)*)?) => {
        $crate::structures::Field {
            key: $key,
            value: $value,
            rest: $crate::members!($($($rest)*)?),
        }
    };
    ($key:literal ? $value:expr $(, $($rest:tt)*)?) => {
        $crate::structures::Maybe {
            key: $key,
            value: $value,
            rest: $crate::members!($($($rest)*)?),
        }
    };
}

/// The members of an object.
pub trait Fields {
    /// The keys and their values, in order.
    ghost members: { Self → Members };

    /// How many bytes their text has at most.
    ghost most: { Self → ℕ };

    /// Puts the members, after others or as the first, and the closing brace.
    fn put_fields<S: Sink>(&self, later: bool, sink: &mut S) -> Result<(), WriteFailed>
        ensures text { Takes S.took S.cut sink.old (members_json later (members self.now))
            sink.new result }
        ensures bound { OnOk result
            (length (members_json later (members self.now)) ≤ most self.now) };
}

/// No member.
#[derive(Clone, Copy)]
pub struct End;

/// A member, and others behind it.
#[derive(Clone, Copy)]
pub struct Field<V, R> {
    /// Its key.
    pub key: &'static str,
    /// Its value.
    pub value: V,
    /// The members behind it.
    pub rest: R,
}

/// A member if there is a value, and others behind it.
#[derive(Clone, Copy)]
pub struct Maybe<V, R> {
    /// Its key.
    pub key: &'static str,
    /// Its value, if there is one.
    pub value: Option<V>,
    /// The members behind it.
    pub rest: R,
}

/// An object of these members.
#[derive(Clone, Copy)]
pub struct Object<F>(pub F);

/// An array of the values of a list, in its order.
#[derive(Clone, Copy)]
pub struct Array<'a, T>(pub &'a [T]);

impl Fields for End {
    ghost members = { λ e. no_members };

    ghost most = { λ e. 1 };

    #[tactic(auto, unfolding(crate::specs::JsonText::members_json))]
    fn put_fields<S: Sink>(&self, later: bool, sink: &mut S) -> Result<(), WriteFailed> {
        sink.take(b"}")
    }
}

impl<V: Json, R: Fields> Fields for Field<V, R> {
    ghost members = { λ f. member f.key.now (V.value f.value) (R.members f.rest) };

    ghost most = { λ f. key_most f.key.now + V.most f.value + R.most f.rest };

    fn put_fields<S: Sink>(&self, later: bool, sink: &mut S) -> Result<(), WriteFailed> {
        let Ok(()) = put_key(sink, later, self.key) else {
            return Err(WriteFailed);
        };
        let Ok(()) = self.value.put(sink) else {
            return Err(WriteFailed);
        };
        self.rest.put_fields(true, sink)
    }
}

impl<V: Json, R: Fields> Fields for Maybe<V, R> {
    ghost members = { λ m. maybe_member V.value m.key.now m.value (R.members m.rest) };

    ghost most = { λ m. key_most m.key.now + maybe_most V.most m.value + R.most m.rest };

    fn put_fields<S: Sink>(&self, later: bool, sink: &mut S) -> Result<(), WriteFailed> {
        let Some(value) = &self.value else {
            return self.rest.put_fields(later, sink);
        };
        let Ok(()) = put_key(sink, later, self.key) else {
            return Err(WriteFailed);
        };
        let Ok(()) = value.put(sink) else {
            return Err(WriteFailed);
        };
        self.rest.put_fields(true, sink)
    }
}

/// Puts a comma, where something stands before.
fn put_comma<S: Sink>(sink: &mut S, later: bool) -> Result<(), WriteFailed>
    ensures { Takes S.took S.cut sink.old (comma_if later) sink.new result }
{
    if later { sink.take(b",") } else { Ok(()) }
}

/// Puts a key and its colon, after others or as the first.
fn put_key<S: Sink>(sink: &mut S, later: bool, key: &str) -> Result<(), WriteFailed>
    ensures { Takes S.took S.cut sink.old (key_json later key.now) sink.new result }
{
    let Ok(()) = put_comma(sink, later) else {
        return Err(WriteFailed);
    };
    let Ok(()) = put_string(sink, key.as_bytes()) else {
        return Err(WriteFailed);
    };
    sink.take(b":")
}

impl<F: Fields> Json for Object<F> {
    ghost value = { λ o. object (F.members o.0) };

    ghost most = { λ o. 1 + F.most o.0 };

    fn put<S: Sink>(&self, sink: &mut S) -> Result<(), WriteFailed> {
        let Ok(()) = sink.take(b"{") else {
            return Err(WriteFailed);
        };
        self.0.put_fields(false, sink)
    }
}

impl<T: Json> Json for Array<'_, T> {
    ghost value = { λ a. list_data T.value a.0.now };

    ghost most = { λ a. 2 + sum_of (λ item. T.most item + 1) a.0.now };

    fn put<S: Sink>(&self, sink: &mut S) -> Result<(), WriteFailed> {
        let Ok(()) = sink.take(b"[") else {
            return Err(WriteFailed);
        };
        let mut later = false;
        for item in self.0 {
            let Ok(()) = put_item(sink, later, item) else {
                return Err(WriteFailed);
            };
            later = true;
        }
        sink.take(b"]")
    }
}

/// Puts an item, after others or as the first.
fn put_item<S: Sink, T: Json>(sink: &mut S, later: bool, item: &T) -> Result<(), WriteFailed>
    ensures text { Takes S.took S.cut sink.old (item_json later (T.value item.now))
        sink.new result }
    ensures bound { OnOk result
        (length (item_json later (T.value item.now)) ≤ T.most item.now + 1) }
{
    let Ok(()) = put_comma(sink, later) else {
        return Err(WriteFailed);
    };
    item.put(sink)
}
