//! Laws: each is the contract of a function that does nothing.
ghost use Rattle.std.specs.Prelude.{List};
ghost use Rattle.fab_reach_base.specs.Records.{ConfigRows};
ghost use Rattle.fab_reach_base.specs.Soundness.{IsSoundAlone};
ghost use Rattle.fab_store_rows.specs.Differences.{IsDifference};
ghost use Rattle.fab_store_rows.specs.declared.config_row.ConfigRow.{ConfigRow};
ghost use Rattle.fab_store_rows.specs.Tidy.{IsTidy};
ghost use Rattle.fab_store_drafts.specs.There.{IsSoundThere};

/// The configuration before a change is sound just where it is so at the rows that differ, if the one
/// after the change is sound.
pub fn sound_before_a_change()
    ensures sound { (c d : ConfigRows) (taken added : List ConfigRow) → IsSoundAlone c → IsTidy d → IsDifference d c taken added → IsSoundThere d added taken → IsSoundAlone d }
    ensures exact { (c d : ConfigRows) (taken added : List ConfigRow) → IsSoundAlone c → IsTidy d → IsDifference d c taken added → IsSoundAlone d → IsSoundThere d added taken }
{}
