//! Values of the maps that rows are gathered into.
use crate::kind::Value;
use crate::kinds::Head;
use fab_names::{Address, Name};
use fab_reach_base::inventory::{Holder, Seat, Volume};

impl Value for Seat {
    ghost use Rattle.fab_store_load.specs.Values.{same_seat};

    ghost same = { same_seat };
}

impl Value for Address {
    ghost use Rattle.std.proofs.lemmas.Map.Views.{exact_unsigned_eq};

    ghost same = { exact_unsigned_eq };
}

impl Value for Holder {
    ghost use Rattle.fab_store_load.specs.Values.{same_holder};

    ghost same = { same_holder };
}

impl Value for Volume {
    ghost use Rattle.fab_store_load.specs.Values.{same_volume};

    ghost same = { same_volume };
}

impl Value for Name {
    ghost use Rattle.fab_store_load.specs.Values.{same_name};

    ghost same = { same_name };
}

impl Value for Option<Name> {
    ghost use Rattle.fab_store_load.specs.Values.{same_name_or_none};

    ghost same = { same_name_or_none };
}

impl Value for u64 {
    ghost use Rattle.std.proofs.lemmas.Map.Views.{exact_unsigned_eq};

    ghost same = { exact_unsigned_eq };
}

impl Value for bool {
    ghost use Rattle.fab_store_load.specs.Values.{same_flag};

    ghost same = { same_flag };
}

impl Value for Head {
    ghost use Rattle.fab_store_load.specs.Values.{same_head};

    ghost same = { same_head };
}
