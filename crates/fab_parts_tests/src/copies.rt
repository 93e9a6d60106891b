//! A copy of a zoning stays as it is when the zoning changes.
use crate::named::named;
use fab_names::{Fabric, Member, Name, Wwn};
use fab_zoning::{DefaultFlag, Zoning};
use std::alloc::Global;
use std::process::Abort;

/// What may be seen of a zoning: an alias of a port; a zone, and one in the active set; a zone set, and one
/// that is active.
#[derive(Clone, Copy)]
enum Kind {
    Alias,
    Zone,
    Active,
    Set,
    ActiveSet,
}

/// All that is in the zoning of the test, and what is active in it.
const SEEN: &[(Kind, &str)] = &[
    (Kind::Alias, "disk"),
    (Kind::Zone, "z1"),
    (Kind::Active, "z1"),
    (Kind::Set, "s1"),
    (Kind::ActiveSet, "s1"),
];

/// Whether there is one of this name.
fn has(zoning: &Zoning<Global>, kind: Kind, name: &Name) -> bool {
    match kind {
        Kind::Alias => zoning.alias(name).is_some(),
        Kind::Zone => zoning.zone(name).is_some(),
        Kind::Active => zoning.has_active(name, &Member::Port(Wwn::new(1))),
        Kind::Set => zoning.zone_set(name).is_some(),
        Kind::ActiveSet => zoning.active() == Some(*name),
    }
}

/// Whether all is in it, or nothing of it; of its fabric, under the default zone that permits or denies.
fn is_whole(rt: &impl Abort, zoning: &Zoning<Global>, wanted: bool) -> bool {
    for &(kind, text) in SEEN {
        if has(zoning, kind, &named(rt, text)) != wanted {
            return false;
        }
    }
    zoning.fabric() == Fabric::B && matches!(zoning.flag(), DefaultFlag::Permit) == wanted
}

/// A zoning with an alias, a zone of it, and a set of the zone, which is active.
fn filled(rt: &(impl Abort + AllocGlobal)) -> Zoning<Global> {
    let (alias, zone, set) = (named(rt, "disk"), named(rt, "z1"), named(rt, "s1"));
    let mut zoning = Zoning::new(rt.alloc(), Fabric::B);
    zoning
        .put_alias(alias, &[Member::Port(Wwn::new(1))])
        .expect(rt, "an alias");
    zoning
        .put_zone(zone, &[Member::Alias(alias)])
        .expect(rt, "a zone");
    zoning.put_set(set, &[zone]).expect(rt, "a set");
    zoning.activate(&set).expect(rt, "an active set");
    zoning.set_default(DefaultFlag::Permit);
    zoning
}

/// Takes all out again.
fn clear(rt: &impl Abort, zoning: &mut Zoning<Global>) {
    zoning.deactivate();
    zoning.drop_set(&named(rt, "s1")).expect(rt, "a set");
    zoning.drop_zone(&named(rt, "z1")).expect(rt, "a zone");
    zoning.drop_alias(&named(rt, "disk")).expect(rt, "an alias");
    zoning.set_default(DefaultFlag::Deny);
}

#[test]
fn copy_is_equal(rt: HostRuntime) {
    let mut zoning = filled(&rt);
    let copy = zoning.copy().expect(&rt, "memory");
    assert!(rt; is_whole(&rt, &zoning, true) && is_whole(&rt, &copy, true));
    clear(&rt, &mut zoning);
    assert!(rt; is_whole(&rt, &zoning, false) && is_whole(&rt, &copy, true));
}
