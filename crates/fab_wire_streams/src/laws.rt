//! What holds of the escapes of texts that are printed.

ghost use Rattle.std.specs.Prelude.{ℕ, ◌≡◌, true, List};
ghost use Rattle.std.specs.List.{flat_map, list_all};
ghost use Rattle.fab_names.specs.Names.{IsNameText};
ghost use Rattle.fab_wire_streams.specs.Escapes.{escapes_json, is_line_byte, line_escape};
ghost use Rattle.fab_wire_streams.specs.Printed.{WordsAreLines};

/// A text of line ends and bytes that stand for themselves has `\n` for each line end, and no
/// other escape.
pub fn only_line_ends_are_escaped()
    ensures { (text : List ℕ) → list_all is_line_byte text ≡ true
        → escapes_json text ≡ flat_map line_escape text }
{}

/// A name has no escape.
pub fn names_have_no_escape()
    ensures { (name : List ℕ) → IsNameText name → escapes_json name ≡ name }
{}

/// Printed names, world-wide names, numbers and members are made of line ends and bytes that stand
/// for themselves.
pub fn printed_words_have_no_escape()
    ensures { WordsAreLines }
{}
