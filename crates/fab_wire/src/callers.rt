//! Who is a caller: whoever has a token in the policy of the desk.

ghost use Rattle.std.specs.Prelude.{◌≡◌, ◌≤◌, ◌<◌, ◌+◌, length, IfSome, IfNone};
ghost use Rattle.fab_desk.specs.Handled.{policy_of};
ghost use Rattle.fab_wire.specs.Known.{is_known};
ghost use Rattle.fab_wire_base.specs.Limits.{most_head, most_body};
ghost use Rattle.fab_wire_base.specs.Whole.{IsWhole, Lacks};

use fab_desk::Desk;
use fab_desk::store_base::Store;
use fab_reach_books::PathBook;
use fab_wire_base::callers::Callers;
use fab_wire_base::routes::Routes;
use fab_wire_base::whole::lacks;
use std::alloc::Allocator;
use std::str;

/// The callers of a desk, by their tokens.
#[derive(Drop)]
pub struct KnownTo<'d, A: Allocator + Copy, S: Store<A>, B: PathBook<A>> {
    desk: &'d Desk<A, S, B>,
}

impl<'d, A: Allocator + Copy, S: Store<A>, B: PathBook<A>> KnownTo<'d, A, S, B> {
    /// The callers of a desk.
    pub fn of(desk: &'d Desk<A, S, B>) -> Self
        ensures { result.desk ≡ desk.entry }
    {
        KnownTo { desk }
    }
}

impl<'d, A: Allocator + Copy, S: Store<A>, B: PathBook<A>> Callers for KnownTo<'d, A, S, B> {
    ghost use Rattle.fab_desk.specs.Handled.{policy_of};
    ghost use Rattle.fab_wire.specs.Known.{is_known};

    ghost knows_token = { λ k. is_known (policy_of k.desk.now) };

    fn knows(&self, token: &[u8]) -> bool {
        self.desk.policy_is_sound();
        match str::from_utf8(token) {
            Ok(text) => self.desk.knows(text),
            Err(_) => false,
        }
    }
}

/// How many bytes of an input have to be there before it is looked at again, for a desk; none where every
/// input that begins with these bytes asks the desk the same.
pub fn lacks_for<A: Allocator + Copy, S: Store<A>, B: PathBook<A>>(
    routes: &Routes,
    desk: &Desk<A, S, B>,
    bytes: &[u8],
) -> Option<usize>
    ensures whole { IfNone result (IsWhole (is_known (policy_of desk.now)) bytes.now) }
    ensures lacks { IfSome result (Lacks (is_known (policy_of desk.now)) bytes.now) }
    ensures bound { IfSome result (λ size. (length bytes.now < size) × (size ≤ most_head + most_body)) }
{
    lacks(routes, &KnownTo::of(desk), bytes)
}
