//! What is heard of an input byte by byte, where one read fails and later ones work again; and the longest body.

ghost use Rattle.std.specs.Prelude.{◌||◌, codes};
ghost use Rattle.std.specs.Str.{bytes_eq};

use fab_test_wire::streams::Slow;
use fab_wire_base::callers::Callers;
use fab_wire_base::hear::{Heard, hear};
use fab_wire_base::kinds::Kind;
use fab_wire_base::routes::Routes;
use fab_wire_streams::counted::Counted;
use std::alloc::Global;
use std::io::Read;
use std::process::Abort;

/// What is to be heard: what is asked for, the target, and the body.
type Wanted<'w> = (Kind, &'w [u8], &'w [u8]);

/// A plan to be staged: a head of 75 bytes, and a body of 13.
const STAGE: &[u8] =
    b"PUT /plans/p1 HTTP/1.1\r\nAuthorization: Bearer t-ada\r\nContent-Length: 13\r\n\r\ndeactivate A\n";

const STAGED: Wanted<'static> = (Kind::Stage, b"/plans/p1", b"deactivate A\n");

/// A question, which takes no body: a head alone, of 101 bytes.
const QUESTION: &[u8] =
    b"GET /joined/10:00:00:00:00:00:00:01/50:00:00:00:00:00:00:01 HTTP/1.1\r\nAuthorization: Bearer t-ada\r\n\r\n";

const QUESTIONED: Wanted<'static> = (
    Kind::Joined,
    b"/joined/10:00:00:00:00:00:00:01/50:00:00:00:00:00:00:01",
    b"",
);

/// The one caller of these tests.
struct Ada;

impl Callers for Ada {
    ghost knows_token = { λ _ token. bytes_eq token (codes "t-ada") };

    fn knows(&self, token: &[u8]) -> bool {
        token == b"t-ada".as_slice()
    }
}

/// What is heard, by routes that are made for it.
fn heard_by<R: Read>(rt: &(impl Abort + AllocGlobal), reader: &mut Counted<R>) -> Heard<Global> {
    let routes = Routes::new(rt.alloc()).expect(rt, "memory");
    hear(rt.alloc(), &routes, &Ada, reader)
}

/// Whether this was to be heard.
fn is_wanted(wanted: Wanted<'_>, heard: &Heard<Global>) -> bool {
    match heard {
        Heard::Asked(asked) => {
            asked.token.as_slice() == b"t-ada".as_slice()
                && asked.kind == wanted.0
                && asked.target.as_slice() == wanted.1
                && asked.body.as_slice() == wanted.2
        }
        _ => false,
    }
}

/// Whether hearing an input byte by byte, of which the read of this number fails, ends there, if it is made,
/// or has heard what is wanted before it.
fn ends_at(
    rt: &(impl Abort + AllocGlobal),
    input: &[u8],
    k: u64,
    is_made: bool,
    wanted: Wanted<'_>,
) -> bool {
    let mut reader = Counted::new(Slow::new(input, 1, k));
    let heard = heard_by(rt, &mut reader);
    let failures = reader.failures();
    let reads = reader.into_inner().reads();
    if is_made {
        matches!(heard, Heard::ReadFailed) && failures == 1 && reads == k.saturating_add(1)
    } else {
        is_wanted(wanted, &heard) && failures == 0 && reads == k
    }
}

/// The first read where an input that is heard byte by byte ends otherwise than it has to: at that read,
/// where it fails, and at the last byte, where the read behind it would fail.
fn first_other(rt: &(impl Abort + AllocGlobal), input: &[u8], wanted: Wanted<'_>) -> Option<u64> {
    let reads = input.len() as u64;
    for k in 0..=reads {
        if !ends_at(rt, input, k, k < reads, wanted) {
            return Some(k);
        }
    }
    None
}

/// A failed read is not tried again, and behind a request nothing is read.
#[test]
fn reader_fails(rt: HostRuntime) {
    assert_eq!(rt; first_other(&rt, STAGE, STAGED), None);
    assert_eq!(rt; first_other(&rt, QUESTION, QUESTIONED), None);
}

/// The greatest length of a body.
const MOST: usize = 1048576;

/// The head of an import whose body has that length.
const LARGEST: &[u8] =
    b"POST /imports/A HTTP/1.1\r\nAuthorization: Bearer t-ada\r\nContent-Length: 1048576\r\n\r\n";

/// The head, a body of so many letters, and a letter behind it.
fn largest(rt: &(impl Abort + AllocGlobal)) -> Vec<u8> {
    let mut input = Vec::from_slice(rt.alloc(), LARGEST).expect(rt, "memory");
    let size = LARGEST.len().saturating_add(MOST).saturating_add(1);
    input.resize(size, b'a').expect(rt, "memory");
    input
}

/// Just the body is heard.
#[test]
fn the_longest_body_is_heard(rt: HostRuntime) {
    let input = largest(&rt);
    let end = LARGEST.len() + MOST;
    let body = input
        .as_slice()
        .get(LARGEST.len()..end)
        .expect(&rt, "a body");
    let heard = heard_by(&rt, &mut Counted::new(input.as_slice()));
    assert!(rt; is_wanted((Kind::Import, b"/imports/A", body), &heard));
}
