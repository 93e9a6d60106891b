//! What is written as JSON: numbers, texts, booleans, and null.

ghost use Rattle.std.specs.Prelude.{ℕ, ◌≡◌, ◌<◌, ◌^◌, ◌≤◌, length, OnOk};
ghost use Rattle.serde_json.specs.Data.{Data, boolean, string};
ghost use Rattle.fab_wire_streams.specs.Taking.{Takes};
ghost use Rattle.fab_wire_streams.specs.JsonText.{json_text};
ghost use Rattle.fab_wire_streams.specs.Values.{whole, or_null};
ghost use Rattle.fab_wire_streams.specs.Bounds.{string_most, or_most};

use crate::escapes::put_string;
use crate::sink::{Sink, Size};
use crate::streams::WriteFailed;
use itoa::Buffer;

/// What is written as JSON.
pub trait Json {
    /// The value that is written.
    ghost value: { Self → Data };

    /// How many bytes its text has at most.
    ghost most: { Self → ℕ };

    /// Puts the compact text of the value, as `serde_json` has it: no space, and the shortest
    /// escapes. A failure of the sink ends it.
    fn put<S: Sink>(&self, sink: &mut S) -> Result<(), WriteFailed>
        ensures text { Takes S.took S.cut sink.old (json_text (value self.now)) sink.new result }
        ensures bound { OnOk result (length (json_text (value self.now)) ≤ most self.now) };
}

/// How many bytes the compact text of a value has.
///
/// They are counted by the call that writes them, so this takes as long as writing.
pub fn text_len<T: Json>(value: &T) -> u64
    requires { T.most value.now < 2 ^ 64 }
    ensures { result ≡ length (json_text (T.value value.now)) }
{
    let mut size = Size::new();
    match value.put(&mut size) {
        Ok(()) => size.bytes(),
        Err(_) => unreachable!(),
    }
}

/// A text as a JSON string.
#[derive(Clone, Copy)]
pub struct Text<'a>(pub &'a str);

impl Json for Text<'_> {
    ghost value = { λ t. string t.0.now };

    ghost most = { λ t. string_most (length t.0.now) };

    #[tactic(auto, unfolding(crate::specs::JsonText::json_text, crate::specs::JsonText::quoted_json))]
    fn put<S: Sink>(&self, sink: &mut S) -> Result<(), WriteFailed> {
        put_string(sink, self.0.as_bytes())
    }
}

impl Json for u64 {
    ghost value = { whole };

    ghost most = { λ n. 20 };

    #[tactic(auto, unfolding(crate::specs::JsonText::json_text))]
    fn put<S: Sink>(&self, sink: &mut S) -> Result<(), WriteFailed> {
        sink.take(Buffer::new().format(*self).as_bytes())
    }
}

impl Json for u16 {
    ghost value = { whole };

    ghost most = { λ n. 5 };

    #[tactic(auto, unfolding(crate::specs::JsonText::json_text))]
    fn put<S: Sink>(&self, sink: &mut S) -> Result<(), WriteFailed> {
        sink.take(Buffer::new().format(*self).as_bytes())
    }
}

impl Json for u8 {
    ghost value = { whole };

    ghost most = { λ n. 3 };

    #[tactic(auto, unfolding(crate::specs::JsonText::json_text))]
    fn put<S: Sink>(&self, sink: &mut S) -> Result<(), WriteFailed> {
        sink.take(Buffer::new().format(*self).as_bytes())
    }
}

impl Json for bool {
    ghost value = { boolean };

    ghost most = { λ b. 5 };

    #[tactic(auto, unfolding(crate::specs::JsonText::json_text))]
    fn put<S: Sink>(&self, sink: &mut S) -> Result<(), WriteFailed> {
        if *self {
            sink.take(b"true")
        } else {
            sink.take(b"false")
        }
    }
}

/// A value, or null.
impl<T: Json> Json for Option<T> {
    ghost value = { or_null T.value };

    ghost most = { or_most T.most };

    #[tactic(auto, unfolding(crate::specs::JsonText::json_text))]
    fn put<S: Sink>(&self, sink: &mut S) -> Result<(), WriteFailed> {
        match self {
            Some(value) => value.put(sink),
            None => sink.take(b"null"),
        }
    }
}
