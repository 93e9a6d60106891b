//! Laws of texts and orders: each is the contract of a function that does nothing.
ghost use Rattle.std.specs.Prelude.{◌≡◌, ◌^◌, ◌<◌, ℕ, List};
ghost use Rattle.fab_names.specs.Fabrics.{SpellsFabric};
ghost use Rattle.fab_names.specs.Places.{Position, SpellsPlace};
ghost use Rattle.fab_names.specs.WorldWideNames.{SpellsWwn, wwn_text};
ghost use Rattle.fab_names.specs.Addresses.{IsAddress, SpellsAddress, address_text};
ghost use Rattle.fab_names.specs.Members.{SpellsMember, member_text};
ghost use Rattle.fab_names.specs.Orders.{fabric_cmp, fabric_order, place_cmp, place_order, member_cmp, member_order};
ghost use Rattle.fab_names.specs.declared.fabric.Fabric.{Fabric};
ghost use Rattle.fab_names.specs.declared.member.Member.{Member};

/// Fabrics are ordered: A before B.
pub fn fabrics_in_order()
    ensures { (f g : Fabric) → fabric_cmp f g ≡ fabric_order f g }
{}

/// Places are ordered by domain, and then by physical port.
pub fn places_in_order()
    ensures { (p q : Position) → place_cmp p q ≡ place_order p q }
{}

/// Members are ordered: by N_Port_Name, by Node_Name, by place, by address, by alias.
pub fn members_in_order()
    ensures { (m k : Member) → member_cmp m k ≡ member_order m k }
{}

/// A text spells one fabric at most.
pub fn one_fabric()
    ensures { (text : List ℕ) (f g : Fabric) → SpellsFabric text f → SpellsFabric text g → f ≡ g }
{}

/// A text spells one world-wide name at most.
pub fn one_wwn()
    ensures { (text : List ℕ) (n m : ℕ) → SpellsWwn text n → SpellsWwn text m → n ≡ m }
{}

/// A text spells one place at most.
pub fn one_place()
    ensures { (text : List ℕ) (p q : Position) → SpellsPlace text p → SpellsPlace text q → p ≡ q }
{}

/// A text spells one address at most.
pub fn one_address()
    ensures { (text : List ℕ) (n m : ℕ) → SpellsAddress text n → SpellsAddress text m → n ≡ m }
{}

/// A text spells one member at most.
pub fn one_member()
    ensures { (text : List ℕ) (m k : Member) → SpellsMember text m → SpellsMember text k → m ≡ k }
{}

/// What is printed of a world-wide name is a text of it.
pub fn printed_wwn_is_read()
    ensures { (n : ℕ) → 0 < n → n < 2 ^ 64 → SpellsWwn (wwn_text n) n }
{}

/// What is printed of an address is a text of it.
pub fn printed_address_is_read()
    ensures { (n : ℕ) → IsAddress n → SpellsAddress (address_text n) n }
{}

/// What is printed of a member that was read is a text of it.
pub fn printed_member_is_read()
    ensures { (text : List ℕ) (m : Member) → SpellsMember text m → SpellsMember (member_text m) m }
{}
