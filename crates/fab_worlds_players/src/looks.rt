//! Worlds of which it is known what two callers have to be told of every pair of a host and a volume, and of
//! every volume: a few that were written by hand, and 100 random ones. `tools/looks_worlds.py` makes their text.
//!
//! A line is a word, a space, and a text:
//!
//! | word | text |
//! |---|---|
//! | `#` | what the file is |
//! | `world` | a number: a world begins that has nothing |
//! | `a`, `b` | a line of the port list of a fabric |
//! | `import` | none: both port lists are imported, and begin anew |
//! | `host`, `array` | a name, a tenant, and N_Port_Names |
//! | `volume` | a name, a tenant, and an array |
//! | `+` | a line of a plan |
//! | `plan` | none: the plan is done, and begins anew |
//! | `why` | a caller, a host and a volume, ` = `, and `FABRIC INITIATOR TARGET UNIT` of each path in order, or the word of the missing link |
//! | `who` | a caller and a volume, ` = `, and `HOST A B` of each host in order, or `nobody` |
//! | `pairs` | a caller, a host and a volume, ` = `, and `FABRIC INITIATOR TARGET` with `zone NAME`, `default`, or `apart` and the zones of each port (`0`, `1:NAME`, or how many), or `none` |
//! | `by` | a caller and a volume, ` = `, and `HOST TENANT UNITS GROUPS` of each host in order, or `nobody` |

mod asking;
mod making;
mod playing;

pub use playing::play;
