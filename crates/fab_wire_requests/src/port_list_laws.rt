//! What a text lists, and which of its records is faulty.

ghost use Rattle.std.specs.Prelude.{ℕ, ◌≡◌, List};
ghost use Rattle.fab_inventory.specs.declared.port.PortRow.{PortRow};
ghost use Rattle.fab_wire_requests.specs.PortLists.{ListsPorts, IsFaultAt};

/// A text lists one list of rows, or has one first faulty record, and never both.
///
/// So a port list is refused with `Line` exactly where it lists nothing, memory aside.
pub fn a_port_list_is_read_in_one_way()
    ensures rows { (text : List ℕ) (rows others : List PortRow)
        → ListsPorts text rows → ListsPorts text others → rows ≡ others }
    ensures line { (text : List ℕ) (line other : ℕ)
        → IsFaultAt text line → IsFaultAt text other → line ≡ other }
    ensures not_both { (text : List ℕ) (rows : List PortRow) (line : ℕ)
        → ListsPorts text rows → ¬ (IsFaultAt text line) }
{}
