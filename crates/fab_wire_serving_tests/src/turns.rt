//! Connections over loopback. The bytes of most of them are sent before they are served.

use super::doubles::{Broken, Busy, Crowd, Leaky, Taking, Ticking};
use super::echo::{Echo, Held, MUCH, fill};
use fab_wire_log::Watch;
use fab_wire_serving::{Listens, ServeFault, listen_at, serve_on};
use mio::Poll;
use std::cell::Cell;
use std::io::{Read, Write};
use std::net::{Net, Shutdown, TcpListener, TcpStream};
use std::process::Abort;
use std::time::{Clock, Duration};

fn listen(rt: &(impl Abort + Net<Listener = TcpListener, Stream = TcpStream>)) -> TcpListener {
    listen_at(rt, "127.0.0.1:0").expect(rt, "a listener")
}

/// Nobody from elsewhere reaches what listens at an address of this machine alone.
#[test]
fn listening_is_at_the_address_that_is_told(rt: HostRuntime) {
    let address = listen(&rt).local_addr().expect(&rt, "an address");
    assert!(&rt; address.ip().is_loopback());
}

/// A connection over which these bytes were sent.
fn told(
    rt: &(impl Abort + Net<Stream = TcpStream>),
    listener: &TcpListener,
    bytes: &[u8],
) -> TcpStream {
    let address = listener.local_addr().expect(rt, "an address");
    let mut stream = TcpStream::connect(rt, address).expect(rt, "a connection");
    stream.write_all(bytes).expect(rt, "bytes sent");
    stream
}

/// A connection over which these bytes were sent, and the end.
fn told_whole(
    rt: &(impl Abort + Net<Stream = TcpStream>),
    listener: &TcpListener,
    bytes: &[u8],
) -> TcpStream {
    let stream = told(rt, listener, bytes);
    stream.shutdown(Shutdown::Write).expect(rt, "the end sent");
    stream
}

/// Whether the answer is this one, whole.
fn is_answered(rt: &(impl Abort + AllocGlobal), stream: &TcpStream, answer: &[u8]) -> bool {
    let mut stream = stream;
    let mut bytes = Vec::new(rt.alloc());
    stream.read_to_end(&mut bytes).expect(rt, "an answer");
    bytes.as_slice() == answer
}

/// What is told over each of some connections, and the answer.
type Turns = &'static [(&'static [u8], &'static [u8])];

/// Connections over which this was sent, and the end.
fn told_each(
    rt: &(impl Abort + AllocGlobal + Net<Stream = TcpStream>),
    listener: &TcpListener,
    turns: Turns,
) -> Vec<TcpStream> {
    let mut streams = Vec::new(rt.alloc());
    for turn in turns {
        let stream = told_whole(rt, listener, turn.0);
        streams.push(stream).expect(rt, "memory");
    }
    streams
}

/// Whether the answers are these, whole.
fn are_answered(rt: &(impl Abort + AllocGlobal), streams: &[TcpStream], turns: Turns) -> bool {
    for (stream, turn) in streams.iter().zip(turns) {
        if !is_answered(rt, stream, turn.1) {
            return false;
        }
    }
    true
}

/// How connections are served: whether the system tells who is ready, how many milliseconds a connection may
/// last, the Unix seconds before the first turn, if the clock tells them, how many turns there are, what the
/// echo is opened anew over, in order, and which writes the log refuses.
#[derive(Clone, Copy)]
struct How<'s> {
    is_told: bool,
    most: u64,
    moment: Option<u64>,
    count: Option<u64>,
    stores: &'s [Option<bool>],
    fails: (u64, u64),
}

/// How long a connection may last, but in the tests of just that.
const LONG: u64 = 30000;

/// One connection, which has its turn at 1000.
const ONE: How<'static> = How {
    is_told: true,
    most: LONG,
    moment: Some(999),
    count: Some(1),
    stores: &[],
    fails: (0, 0),
};

/// Two connections, at 1000 and 1001.
const BOTH: How<'static> = How {
    count: Some(2),
    ..ONE
};

/// What came of it: the log, how many writes it refused, and why serving ended.
#[derive(Drop)]
struct Came {
    log: String,
    refusals: u64,
    end: &'static str,
}

/// Why serving ended.
fn end_of(ended: Result<(), ServeFault>) -> &'static str {
    match ended {
        Ok(()) => "done",
        Err(ServeFault::Listener(_)) => "listener",
        Err(ServeFault::NoClock) => "no clock",
    }
}

/// What tells which connections have sent something, where the system tells it.
fn polled(rt: &(impl Abort + Net), is_told: bool) -> Option<Poll> {
    if is_told {
        Some(Poll::new(rt).expect(rt, "a poll"))
    } else {
        None
    }
}

/// A log that takes all but some writes.
fn leaky(rt: &impl AllocGlobal, fails: (u64, u64)) -> Leaky {
    Leaky {
        taken: Vec::new(rt.alloc()),
        calls: 0,
        fails,
    }
}

/// Serves connections.
fn serve<C: Clock, L: Listens>(
    rt: &(impl Abort + AllocGlobal + Net),
    clock: &C,
    listener: &L,
    how: How<'_>,
) -> Came {
    let held = Cell::new(false);
    serve_while(rt, clock, listener, how, &held)
}

/// The same, where this says whether an echo has what it was opened over. It is opened anew only where it has
/// let go of that. The clock is read whenever it is opened, so that by a clock that goes on at each reading
/// that takes time.
fn serve_while<'h, C: Clock, L: Listens>(
    rt: &(impl Abort + AllocGlobal + Net),
    clock: &C,
    listener: &L,
    how: How<'_>,
    held: &'h Cell<bool>,
) -> Came {
    let mut watch = Watch::new(
        rt.alloc(),
        clock,
        leaky(rt, how.fails),
        polled(rt, how.is_told),
    );
    watch.most = Duration::from_millis(how.most);
    let mut moment = how.moment;
    let opened = Cell::new(0usize);
    let mut echo = Echo::over(Held::take(held, true).ok());
    let ended = serve_on(
        &mut watch,
        &mut echo,
        listener,
        &mut || {
            moment = Some(moment?.saturating_add(1));
            moment
        },
        how.count,
        &|| {
            clock.monotonic().map_err(|_| ())?;
            let place = opened.get();
            opened.set(place.saturating_add(1));
            match how.stores.get(place) {
                Some(Some(opens)) => Held::take(held, *opens),
                _ => Err(()),
            }
        },
    );
    let refusals = watch.log.failures();
    let log = String::from_utf8(watch.log.into_inner().taken).expect(rt, "a text");
    let end = end_of(ended);
    Came { log, refusals, end }
}

/// Whether this is the line of a connection over which these bytes were sent, by a clock that has gone
/// on by so many seconds at each reading, where a connection may last so many milliseconds.
fn has_line(
    rt: &(impl Abort + AllocGlobal + Net<Listener = TcpListener, Stream = TcpStream>),
    bytes: &[u8],
    step: u64,
    most: u64,
    line: &str,
) -> bool {
    let listener = listen(rt);
    let _stream = told_whole(rt, &listener, bytes);
    let how = How { most, ..ONE };
    serve(rt, &Ticking::by(step), &listener, how).log.as_str() == line
}

/// Connections over which this is told and answered: by how many seconds the clock goes on at each reading, how
/// they are served, and the log.
struct Case {
    turns: Turns,
    step: u64,
    how: How<'static>,
    log: &'static str,
}

/// Ends the test unless the connections are served so.
fn serves(
    rt: &(impl Abort + AllocGlobal + Net<Listener = TcpListener, Stream = TcpStream>),
    case: &Case,
) {
    let listener = listen(rt);
    let streams = told_each(rt, &listener, case.turns);
    let came = serve(rt, &Ticking::by(case.step), &listener, case.how);
    assert_eq!(rt; came.log.as_str(), case.log);
    assert!(rt; are_answered(rt, streams.as_slice(), case.turns));
}

const TWO: Turns = &[(b"one", b"one"), (b"two", b"two")];

const HALTED: Turns = &[
    (b"!1", b"halted"),
    (b"2", b"halted"),
    (b"3", b"halted"),
    (b"4", b"4"),
];

const ANEW: Turns = &[(b"!", b"halted"), (b"a", b"a")];

const STARVED: Turns = &[(b"#much", b"#much"), (b"b", b"b")];

/// The server is halted by the first; no store is there before the second, and one that is refused before
/// the third. Opening it anew takes ten seconds, which the log counts, and the 20 seconds and a bit that
/// the connection has do not: it has as many as the one before; both are taken up at one time. There is no
/// memory for the bytes of the first: it is served as if nothing were gathered, and answered. The system
/// does not tell who is ready: connections are served one by one, from beginning to end.
const CASES: &[Case] = &[
    Case {
        turns: HALTED,
        step: 0,
        how: How {
            count: Some(4),
            stores: &[None, Some(false), Some(true)],
            ..ONE
        },
        log: "1000 503 0 ms\n1001 503 0 ms\n1002 503 0 ms\n1003 200 0 ms\n",
    },
    Case {
        turns: ANEW,
        step: 10,
        how: How {
            most: 20001,
            stores: &[Some(true)],
            ..BOTH
        },
        log: "1000 503 70000 ms\n1001 200 160000 ms\n",
    },
    Case {
        turns: STARVED,
        step: 0,
        how: BOTH,
        log: "1000 200 0 ms\n1001 200 0 ms\n",
    },
    Case {
        turns: TWO,
        step: 0,
        how: How {
            is_told: false,
            ..BOTH
        },
        log: "1000 200 0 ms\n1001 200 0 ms\n",
    },
];

#[test]
fn each_turn_is_served_by_what_there_is(rt: HostRuntime) {
    for case in CASES {
        serves(&rt, case);
    }
}

/// Bytes, how many seconds the clock goes on at each reading, how many milliseconds a connection may
/// last, and the line. From when a connection is taken up the clock is read before its server is opened
/// anew and as its time begins, before the read, before what there is to write is written, when it is
/// served, and when its turn has ended and for the line.
const LINES: &[(&[u8], u64, u64, &str)] = &[
    (b"a", 1, LONG, "1000 200 7000 ms\n"),
    (b"", 1, LONG, "1000 empty 6000 ms\n"),
    (b"a", 10, 20001, "1000 200 70000 ms\n"),
    (b"a", 10, 20000, "1000 unsent 70000 ms\n"),
    (b"a", 10, 10001, "1000 unsent 70000 ms\n"),
    (b"a", 10, 10000, "1000 unread 60000 ms\n"),
];

#[test]
fn each_connection_has_its_line(rt: HostRuntime) {
    for &(bytes, step, most, line) in LINES {
        assert!(rt; has_line(&rt, bytes, step, most, line));
    }
}

/// The writes that the log refuses, what it has then of two connections, and how many refusals are counted: a
/// line of which a write was refused is left as it is, and the next one is written.
const LEAKS: &[((u64, u64), &str, u64)] = &[
    ((0, 0), "1000 200 0 ms\n1001 200 0 ms\n", 0),
    ((0, 1), "1001 200 0 ms\n", 1),
    ((2, 3), "1000 1001 200 0 ms\n", 1),
];

#[test]
fn what_the_log_refuses_is_left_out(rt: HostRuntime) {
    for &(fails, text, refusals) in LEAKS {
        let listener = listen(&rt);
        let _streams = told_each(&rt, &listener, TWO);
        let came = serve(&rt, &Ticking::by(0), &listener, How { fails, ..BOTH });
        assert!(rt; came.log.as_str() == text && came.refusals == refusals);
    }
}

/// Of what is sent only 64 bytes are read.
#[test]
fn an_answer_is_not_lost_where_more_is_sent_than_read(rt: HostRuntime) {
    let listener = listen(&rt);
    let stream = told_whole(&rt, &listener, &[b'x'; 100000]);
    serve(&rt, &rt, &listener, ONE);
    assert!(rt; is_answered(&rt, &stream, &[b'x'; 64]));
}

/// It is longer than what is read at once, and comes in one piece.
#[test]
fn a_long_request_is_told_to_its_end(rt: HostRuntime) {
    let listener = listen(&rt);
    let mut bytes = [0u8; 12000];
    fill(&mut bytes);
    bytes[0] = b'+';
    bytes[11999] = b'.';
    let stream = told(&rt, &listener, &bytes);
    serve(&rt, &rt, &listener, ONE);
    assert!(rt; is_answered(&rt, &stream, &bytes));
}

/// The client takes it while it is sent, in as many writes as it takes.
#[test]
fn a_long_answer_is_taken_to_its_end(rt: HostRuntime) {
    let listener = listen(&rt);
    let client = told_whole(&rt, &listener, b"*");
    client.set_nonblocking(true).expect(&rt, "a socket");
    let clock = Taking::by(&client);
    let came = serve(&rt, &clock, &listener, ONE);
    assert_eq!(rt; came.log.as_str(), "1000 200 0 ms\n");
    clock.monotonic().expect(&rt, "a clock");
    assert_eq!(rt; clock.taken(), Some(MUCH + 1));
}

/// A client that came first and takes nothing of its answer; and one that came after it, whose answer is
/// sent meanwhile, and whose line comes behind that of the first.
#[test]
fn a_client_that_takes_nothing_delays_no_other(rt: HostRuntime) {
    let listener = listen(&rt);
    let _full = told(&rt, &listener, b"*");
    let stream = told_whole(&rt, &listener, b"a");
    let came = serve(&rt, &rt, &listener, How { most: 1000, ..BOTH });
    assert!(rt; came.log.starts_with("1000 unsent 1"));
    assert!(rt; came.log.contains("\n1001 200 "));
    assert!(rt; is_answered(&rt, &stream, b"a"));
}

/// So many connections over which nothing is sent.
fn silent(
    rt: &(impl Abort + AllocGlobal + Net<Stream = TcpStream>),
    listener: &TcpListener,
    count: usize,
) -> Vec<TcpStream> {
    let mut streams = Vec::new(rt.alloc());
    for _ in 0..count {
        streams.push(told(rt, listener, b"")).expect(rt, "memory");
    }
    streams
}

/// Whether so many clients that came first and send nothing do not delay one that came after them.
fn delay_none(
    rt: &(impl Abort + AllocGlobal + Clock + Net<Listener = TcpListener, Stream = TcpStream>),
    count: usize,
) -> bool {
    let listener = listen(rt);
    let _silent = silent(rt, &listener, count);
    let stream = told(rt, &listener, b"a");
    let how = How {
        most: 500,
        count: Some((count as u64).saturating_add(1)),
        ..ONE
    };
    let log = serve(rt, rt, &listener, how).log;
    log.starts_with("1000 200 ")
        && log.contains("\n1001 unread 5")
        && is_answered(rt, &stream, b"a")
}

/// The seats are enough for all that come at once.
#[test]
fn a_silent_client_delays_no_other(rt: HostRuntime) {
    assert!(rt; delay_none(&rt, 1));
    assert!(rt; delay_none(&rt, 127));
}

/// How many clients there are with one more than has a seat.
const CROWD: u64 = 257;

/// All seats are taken by clients that send nothing, and one more comes, which asks: after two seconds one
/// of them is let go for it.
#[test]
fn silent_clients_make_way_for_a_newcomer(rt: HostRuntime) {
    let listener = listen(&rt);
    let crowd = Crowd {
        rt: &rt,
        alloc: rt.alloc(),
        listener: &listener,
        left: Cell::new(CROWD),
        clients: Cell::new(Vec::new(rt.alloc())),
    };
    let how = How {
        most: 4000,
        count: Some(CROWD),
        ..ONE
    };
    let log = serve(&rt, &rt, &crowd, how).log;
    assert!(rt; log.starts_with("1000 unread 2"));
    assert!(rt; log.contains(" ms\n1001 200 "));
    let mut clients = crowd.clients.replace(Vec::new(rt.alloc()));
    let last = clients.pop().expect(&rt, "a client");
    assert!(rt; is_answered(&rt, &last, b"a"));
}

/// So many connections, none of which is taken up yet, over which a byte was sent, and the end. Each comes
/// about at once: one that the system leaves out would come about a second later at the earliest.
fn waiting(
    rt: &(impl Abort + AllocGlobal + Net<Stream = TcpStream>),
    listener: &TcpListener,
    count: usize,
) -> Vec<TcpStream> {
    let address = listener.local_addr().expect(rt, "an address");
    let most = Duration::from_millis(500);
    let mut streams = Vec::new(rt.alloc());
    for _ in 0..count {
        let mut stream = TcpStream::connect_timeout(rt, &address, most).expect(rt, "a connection");
        stream.write_all(b"a").expect(rt, "bytes sent");
        stream.shutdown(Shutdown::Write).expect(rt, "the end sent");
        streams.push(stream).expect(rt, "memory");
    }
    streams
}

/// How many clients come at once: more than there are seats for, and more than twice as many as are kept by
/// a listener that does not ask for more.
const MANY: usize = 300;

/// All are kept until they are taken up, and are answered.
#[test]
fn clients_that_come_at_once_are_left_out_by_nobody(rt: HostRuntime) {
    let listener = listen(&rt);
    let streams = waiting(&rt, &listener, MANY);
    let how = How {
        count: Some(MANY as u64),
        ..ONE
    };
    serve(&rt, &rt, &listener, how);
    for stream in &streams {
        assert!(rt; is_answered(&rt, stream, b"a"));
    }
}

/// Accepting fails once, while the first connection is there: that one is served, and then the second.
#[test]
fn a_refused_connection_is_waited_for_while_others_are_there(rt: HostRuntime) {
    let listener = listen(&rt);
    let streams = told_each(&rt, &listener, TWO);
    let busy = Busy {
        listener: &listener,
        calls: Cell::new(0),
        fails_at: 1,
    };
    assert!(rt; serve(&rt, &rt, &busy, BOTH).end == "done");
    assert!(rt; are_answered(&rt, streams.as_slice(), TWO));
}

/// Why serving ends that may go on, where a byte was sent over a connection.
fn end_over_one<C: Clock>(
    rt: &(impl Abort + AllocGlobal + Net<Listener = TcpListener, Stream = TcpStream>),
    clock: &C,
    moment: Option<u64>,
) -> &'static str {
    let listener = listen(rt);
    let _stream = told_whole(rt, &listener, b"1");
    let how = How {
        moment,
        count: None,
        ..ONE
    };
    serve(rt, clock, &listener, how).end
}

/// A log that takes nothing ends nothing.
#[test]
fn serving_ends_with_the_count_the_listener_or_a_clock(rt: HostRuntime) {
    let listener = listen(&rt);
    let none = How {
        count: Some(0),
        ..ONE
    };
    assert!(rt; serve(&rt, &rt, &listener, none).end == "done");
    let deaf = Busy {
        listener: &listener,
        calls: Cell::new(0),
        fails_at: 0,
    };
    assert!(rt; serve(&rt, &rt, &deaf, How { count: None, ..ONE }).end == "listener");
    assert!(rt; end_over_one(&rt, &rt, None) == "no clock");
    assert!(rt; end_over_one(&rt, &Broken, Some(1)) == "no clock");
    let stream = told_whole(&rt, &listener, b"2");
    let fails = (0, u64::MAX);
    assert!(rt; serve(&rt, &rt, &listener, How { fails, ..ONE }).end == "done");
    assert!(rt; is_answered(&rt, &stream, b"2"));
}
