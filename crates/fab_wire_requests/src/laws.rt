//! A law of what requests mean: the contract of a function that does nothing.

ghost use Rattle.fab_wire_requests.specs.Laws.{MeansOne};

use crate::body_laws::one_volume;

/// A kind of request, a target and a body mean one thing at most.
pub fn requests_mean_one_thing()
    ensures { MeansOne }
{
    one_volume();
}
