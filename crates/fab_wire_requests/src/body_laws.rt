//! What a body spells: each law is the contract of a function that does nothing.

ghost use Rattle.std.specs.Prelude.{ℕ, ◌≡◌, List};
ghost use Rattle.fab_inventory.specs.declared.holder.Volume.{Volume};
ghost use Rattle.fab_wire_requests.specs.Bodies.{SpellsHolder, SpellsVolume};

/// A body spells the ports and the tenant of one holder at most.
pub fn one_holder()
    ensures { (text ports others tenant other : List ℕ)
        → SpellsHolder text ports tenant → SpellsHolder text others other
        → (ports ≡ others) × (tenant ≡ other) }
{}

/// A body spells one volume at most.
pub fn one_volume()
    ensures { (text : List ℕ) (volume other : Volume)
        → SpellsVolume text volume → SpellsVolume text other → volume ≡ other }
{}
