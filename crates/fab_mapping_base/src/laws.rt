//! Laws of mappings. Nothing runs here.
ghost use Rattle.std.specs.Prelude.{◌≡◌};
ghost use Rattle.fab_mapping_base.specs.Limits.{last_unit, most_groups_served, most_host_groups, most_hosts, most_storage_groups, most_targets, most_units};

use crate::limits::{
    LAST_UNIT, MOST_GROUPS_SERVED, MOST_HOST_GROUPS, MOST_HOSTS, MOST_STORAGE_GROUPS, MOST_TARGETS,
    MOST_UNITS,
};

/// The constants are the limits that the definitions tell.
pub fn constants_are_the_limits()
    ensures hosts { MOST_HOSTS ≡ most_hosts }
    ensures host_groups { MOST_HOST_GROUPS ≡ most_host_groups }
    ensures storage_groups { MOST_STORAGE_GROUPS ≡ most_storage_groups }
    ensures groups_served { MOST_GROUPS_SERVED ≡ most_groups_served }
    ensures targets { MOST_TARGETS ≡ most_targets }
    ensures units { MOST_UNITS ≡ most_units }
    ensures unit { LAST_UNIT ≡ last_unit }
{}
