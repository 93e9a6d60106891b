//! What goes in and out in pieces: streams that count their failures, and JSON (RFC 8259).
//!
//! A value is put piece by piece, without memory, by one traversal: into a `Counted` writer it is
//! written, into a `Size` its bytes are counted. `object!` makes an object of its members.
//!
//! ```
//! let body = object! { "lun": 3u16, "volume": volume };
//! let len = text_len(&body);
//! let done = body.put(&mut writer);
//! ```
#![tactic(auto)]

pub mod counted;
pub mod escapes;
pub mod laws;
pub mod names;
pub mod sink;
pub mod streams;
pub mod structures;
pub mod values;
