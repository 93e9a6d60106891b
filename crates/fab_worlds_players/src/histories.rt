//! Histories: configurations with the changes of the activations in force, of which it is known whether a desk
//! opens with them: a table of told ones, sound and spoiled, and 2,000 random ones. `tools/store_histories.py`
//! makes their text.
//!
//! A line is a word, a space, and a text:
//!
//! | word | text |
//! |---|---|
//! | `#` | what comes |
//! | `host`, `array` | a name, and N_Port_Names, none of which is logged in |
//! | `volume` | a name, and an array |
//! | `row` | a row of a configuration, as an entry of the table of changes: the first is 0, the next 1 |
//! | `history` | none: a history begins that has nothing but what is known |
//! | `now` | the numbers of the rows of the configuration |
//! | `plan` | a name, and the numbers of the rows that its activation added, each behind `+`, and of those that it took, each behind `-`: the oldest activation first |
//! | `opens` | none: the rows are those of a world |
//! | `undo` | none: the table of changes is damaged |
//! | `scarce` | `opens` or `undo`: that, each request for memory refused in turn, or, where one is refused, that there is no memory |

mod answers;
mod making;
mod playing;

pub use playing::play;
