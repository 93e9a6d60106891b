//! The table of refusals: their numbers, names and statuses.

ghost use Rattle.std.specs.Prelude.{◌≡◌};
ghost use Rattle.fab_wire_answers.specs.Codes.{line_of};
ghost use Rattle.fab_wire_answers.specs.Faults.{code_of_wire, code_of_step, code_of_fault};

use fab_desk_base::DeskFault;
use fab_wire_base::requests as wire;
use fab_world::plans;
use http::StatusCode;

/// What a request is refused with: a line of the table of refusals.
#[derive(Clone, Copy)]
pub enum Code {
    /// No caller has the token.
    NoCaller,
    /// The input does not begin with a head, or the lengths in it are bad.
    BadHead,
    /// The path has no route.
    NoRoute,
    /// The route does not take the method.
    BadMethod,
    /// A body is taken, and the head gives no length.
    NoLength,
    /// The body is longer than any that is taken.
    TooLarge,
    /// The body says nothing that could be asked.
    BadBody,
    /// The policy denies it.
    Denied,
    /// What it is about is not there, or is not for the caller.
    NotFound,
    /// The name is taken.
    Exists,
    /// Something is held or used by another.
    InUse,
    /// Something that is named is not there.
    UnknownName,
    /// A port or a volume is not on the array of the storage group.
    WrongArray,
    /// One host, target and unit would have two volumes.
    UnitClash,
    /// There would be too many of something.
    Limit,
    /// The plan is in another state.
    WrongState,
    /// The plan is not the last one in force.
    NotLast,
    /// Something that the earlier configuration names is gone.
    Gone,
    /// The caller is the author of the plan.
    OwnPlan,
    /// Two records of one port differ.
    PortClash,
    /// There was no memory.
    Memory,
    /// The store refused.
    Store,
    /// The store refused a change before, and the desk was not opened again since.
    Halted,
}

impl Code {
    /// The number, 1 to 23.
    pub fn number(self) -> u8
        ensures { result ≡ (line_of self).number }
    {
        match self {
            Code::NoCaller => 1,
            Code::BadHead => 2,
            Code::NoRoute => 3,
            Code::BadMethod => 4,
            Code::NoLength => 5,
            Code::TooLarge => 6,
            Code::BadBody => 7,
            Code::Denied => 8,
            Code::NotFound => 9,
            Code::Exists => 10,
            Code::InUse => 11,
            Code::UnknownName => 12,
            Code::WrongArray => 13,
            Code::UnitClash => 14,
            Code::Limit => 15,
            Code::WrongState => 16,
            Code::NotLast => 17,
            Code::Gone => 18,
            Code::OwnPlan => 19,
            Code::PortClash => 20,
            Code::Memory => 21,
            Code::Store => 22,
            Code::Halted => 23,
        }
    }

    /// The name: letters and `-`.
    pub fn name(self) -> &'static str
        ensures { result.now ≡ (line_of self).name }
    {
        match self {
            Code::NoCaller => "no-caller",
            Code::BadHead => "bad-head",
            Code::NoRoute => "no-route",
            Code::BadMethod => "bad-method",
            Code::NoLength => "no-length",
            Code::TooLarge => "too-large",
            Code::BadBody => "bad-body",
            Code::Denied => "denied",
            Code::NotFound => "not-found",
            Code::Exists => "exists",
            Code::InUse => "in-use",
            Code::UnknownName => "unknown-name",
            Code::WrongArray => "wrong-array",
            Code::UnitClash => "unit-clash",
            Code::Limit => "limit",
            Code::WrongState => "wrong-state",
            Code::NotLast => "not-last",
            Code::Gone => "gone",
            Code::OwnPlan => "own-plan",
            Code::PortClash => "port-clash",
            Code::Memory => "memory",
            Code::Store => "store",
            Code::Halted => "halted",
        }
    }

    /// The status (RFC 9110, section 15).
    pub fn status(self) -> StatusCode
        ensures { result ≡ (line_of self).status }
    {
        match self {
            Code::NoCaller => StatusCode::UNAUTHORIZED,
            Code::BadHead => StatusCode::BAD_REQUEST,
            Code::NoRoute => StatusCode::NOT_FOUND,
            Code::BadMethod => StatusCode::METHOD_NOT_ALLOWED,
            Code::NoLength => StatusCode::LENGTH_REQUIRED,
            Code::TooLarge => StatusCode::PAYLOAD_TOO_LARGE,
            Code::BadBody => StatusCode::BAD_REQUEST,
            Code::Denied => StatusCode::FORBIDDEN,
            Code::NotFound => StatusCode::NOT_FOUND,
            Code::Memory => StatusCode::SERVICE_UNAVAILABLE,
            Code::Store => StatusCode::SERVICE_UNAVAILABLE,
            Code::Halted => StatusCode::SERVICE_UNAVAILABLE,
            _ => StatusCode::CONFLICT,
        }
    }
}

/// What a request is refused with before the desk is asked.
pub fn code_of_wire(why: wire::Refusal) -> Code
    ensures { result ≡ code_of_wire why }
{
    match why {
        wire::Refusal::NoCaller => Code::NoCaller,
        wire::Refusal::BadHead => Code::BadHead,
        wire::Refusal::NoRoute => Code::NoRoute,
        wire::Refusal::BadMethod(_) => Code::BadMethod,
        wire::Refusal::NoLength => Code::NoLength,
        wire::Refusal::TooLarge => Code::TooLarge,
        wire::Refusal::BadBody(_) => Code::BadBody,
    }
}

/// What a plan is refused with.
pub fn code_of_step(why: plans::Refusal) -> Code
    ensures { result ≡ code_of_step why }
{
    match why {
        plans::Refusal::Exists(_) => Code::Exists,
        plans::Refusal::Unknown(_) => Code::UnknownName,
        plans::Refusal::WrongArray(_) => Code::WrongArray,
        plans::Refusal::UnitTaken { .. } => Code::UnitClash,
        plans::Refusal::InUse { .. } => Code::InUse,
        plans::Refusal::Limit(_) => Code::Limit,
        plans::Refusal::Clash(_) => Code::UnitClash,
    }
}

/// What the desk refuses with.
pub fn code_of_fault(fault: DeskFault) -> Code
    ensures { result ≡ code_of_fault fault }
{
    match fault {
        DeskFault::NoCaller => Code::NoCaller,
        DeskFault::BadBody { .. } => Code::BadBody,
        DeskFault::Denied { .. } => Code::Denied,
        DeskFault::NotFound => Code::NotFound,
        DeskFault::Exists(_) => Code::Exists,
        DeskFault::InUse { .. } => Code::InUse,
        DeskFault::Unknown(_) => Code::UnknownName,
        DeskFault::Limit(_) => Code::Limit,
        DeskFault::WrongState(_) => Code::WrongState,
        DeskFault::NotLast(_) => Code::NotLast,
        DeskFault::Gone(_) => Code::Gone,
        DeskFault::OwnPlan => Code::OwnPlan,
        DeskFault::PortClash(_) => Code::PortClash,
        DeskFault::Plan { refusal, .. } => code_of_step(refusal),
        DeskFault::Memory => Code::Memory,
        DeskFault::Store => Code::Store,
        DeskFault::Halted => Code::Halted,
    }
}
