//! The router over the table of kinds, and the parts that a path captures.

ghost use Rattle.std.specs.Prelude.{◌≡◌, OnOk, IfOk, IfErr, true};
ghost use Rattle.fab_wire_base.specs.Routes.{fits, with_route, desk_table, route_of};
ghost use Rattle.fab_wire_base.specs.Parts.{part_at};
ghost use Rattle.fab_wire_base.specs.Segments.{segment_at, from_slash_on, to_slash};

use crate::kinds::{Route, every_route};
use matchit::{InsertError, Router};
use percent_encoding::percent_decode;
use std::alloc::{AllocError, Allocator, Global};

/// The routes of the desk: whoever serves makes them once, and looks up the path of each request.
///
/// They are those of the table of kinds, all of them and no other.
pub struct Routes {
    router: Router<Route>,
    ghost whole: { router ≡ desk_table },
}

// It is written out, so that a caller does not prove again how each part is dropped.
impl Drop for Routes {
    fn drop(self) {
        let Routes { router: _ } = self;
    }
}

impl Routes {
    /// All routes.
    ///
    /// # Errors
    /// `AllocError` where there is no memory.
    pub fn new(global: Global) -> Result<Routes, AllocError> {
        match make_router(global) {
            Ok(router) => Ok(Routes { router }),
            Err(_) => Err(AllocError),
        }
    }

    /// The route of a path, if it has one.
    pub fn find(&self, path: &str) -> Option<Route>
        ensures { result ≡ route_of path.now }
    {
        match self.router.at(path) {
            Ok(found) => Some(*found.value),
            Err(_) => None,
        }
    }
}

/// A router over every route.
///
/// `OutOfMemory` is its only error, since no route conflicts with those before it.
fn make_router(alloc: Global) -> Result<Router<Route>, InsertError>
    ensures ok { IfOk result (λ router. router ≡ desk_table) }
    ensures err { IfErr result (λ fault. fault ≡ InsertError.OutOfMemory) }
{
    let mut router = Router::new(alloc);
    let routes = every_route();
    for route in routes.as_slice() {
        add(&mut router, *route)?;
    }
    Ok(router)
}

/// Adds one route to a router.
fn add(router: &mut Router<Route>, route: Route) -> Result<(), InsertError>
    requires { fits route router.old ≡ true }
    ensures ok { OnOk result (router.new ≡ with_route route router.old) }
    ensures err { IfErr result (λ fault. fault ≡ InsertError.OutOfMemory) }
{
    router.insert(route.path(), route)
}

/// The segment of a path behind so many slashes, with its escapes read: `%` and two hexadecimal
/// digits are that byte (RFC 3986, section 2.1).
///
/// # Errors
/// `AllocError` where there is no memory.
pub fn decoded_segment<A: Allocator>(
    alloc: A,
    path: &[u8],
    slashes: usize,
) -> Result<Vec<u8, A>, AllocError>
    ensures { IfOk result (λ bytes. bytes.items ≡ part_at slashes path.now) }
{
    let mut bytes = Vec::new(alloc);
    percent_decode(segment(path, slashes)).append_to(&mut bytes)?;
    Ok(bytes)
}

/// The segment of a path behind so many slashes.
fn segment(path: &[u8], slashes: usize) -> &[u8]
    ensures { result.now ≡ segment_at slashes path.now }
{
    let mut rest = path;
    for _ in 0..slashes {
        rest = behind_slash(rest);
    }
    before_slash(rest)
}

/// What stands behind the first slash.
fn behind_slash(path: &[u8]) -> &[u8]
    ensures { result.now ≡ from_slash_on path.now }
{
    let mut rest = path;
    while let Some((first, left)) = rest.split_first() {
        if *first == b'/' {
            return left;
        }
        rest = left;
    }
    rest
}

/// What stands before the first slash.
fn before_slash(path: &[u8]) -> &[u8]
    ensures { result.now ≡ to_slash path.now }
{
    let mut end = 0;
    while end < path.len() && path[end] != b'/' {
        end += 1;
    }
    &path[..end]
}
