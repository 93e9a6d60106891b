//! Connections over loopback, whose requests are sent before a desk serves them one after the other: each
//! at the moment at which its turn comes.

use super::answers::exchange_in;
use fab_policy_base::Policy;
use fab_policy_text::ReadPolicy;
use fab_program_desks::Front;
use fab_store::{OpenFault, SqlStore, Store};
use fab_test_wire::Exchange;
use fab_wire::Desk;
use fab_wire_base::routes::Routes;
use fab_wire_log::Watch;
use fab_wire_serving::{Forgets, serve_on};
use mio::Poll;
use sqlite::{Alter, Connection};
use std::alloc::Global;
use std::io::{Read, Write};
use std::net::{Ipv4Addr, Net, SocketAddr, TcpListener, TcpStream};
use std::process::Abort;
use std::time::Clock;

/// The policy lets imports through in the first minute of 1970 alone.
const POLICY: &str = r#"[[callers]]
name = "ada"
token = "t-ada"
roles = []
tenants = "*"
[[windows]]
name = "first-minute"
weekly = [[4320, 4321]]
[[rules]]
name = "in-time"
actions = ["import"]
window = "first-minute"
"#;

/// Requests with their answers, the first at the last second of that minute.
const ASKED: &[&str] = &[
    r#"ada POST /imports/A port_name,node_name,domain,port
10:00:00:00:00:00:00:01,20:00:00:00:00:00:00:01,1,1
 -> 200 OK: {"revision":1}"#,
    r#"ada POST /imports/A port_name,node_name,domain,port
 -> 403 Forbidden: {"code":8,"error":"denied","need":"window","rule":1,"rule_name":"in-time"}"#,
    r#"ada GET /ports/10:00:00:00:00:00:00:01 -> 200 OK: {"at":{"address":null,"domain":1,"fabric":"A","port":1},"node_name":"20:00:00:00:00:00:00:01","port_name":"10:00:00:00:00:00:00:01"}"#,
];

/// A desk over this store, to be served.
fn front_of<S: Store<Global>>(rt: &(impl Abort + AllocGlobal), store: S) -> Front<S> {
    let policy = Policy::read(rt.alloc(), POLICY).expect(rt, "a policy");
    let routes = Routes::new(rt.alloc()).expect(rt, "routes");
    let alloc = rt.alloc();
    match Desk::open(alloc, store, policy) {
        Ok(desk) => Front {
            alloc,
            routes,
            desk,
        },
        Err(_) => panic!(rt; "no desk"),
    }
}

/// A connection over which the request was sent.
fn sent(
    rt: &(impl Abort + Net<Stream = TcpStream>),
    listener: &TcpListener,
    exchange: &Exchange,
) -> TcpStream {
    let address = listener.local_addr().expect(rt, "an address");
    let mut stream = TcpStream::connect(rt, address).expect(rt, "a connection");
    let request = exchange.request.as_bytes();
    stream.write_all(request).expect(rt, "a request sent");
    stream
}

/// Ends the test where the connection's answer is another.
fn is_answered(rt: &(impl Abort + AllocGlobal), stream: &TcpStream, exchange: &Exchange) {
    let mut stream = stream;
    let mut answer = Vec::new(rt.alloc());
    stream.read_to_end(&mut answer).expect(rt, "an answer");
    assert!(rt; answer.as_slice() == exchange.answer.as_bytes());
}

/// Serves as many connections as there are requests, the first at second 59 and each a second later.
fn serve<F: Forgets<Fault = OpenFault>>(
    rt: &(impl Abort + AllocGlobal + Clock + Net),
    listener: &TcpListener,
    front: &mut F,
) {
    let log = Vec::new(rt.alloc());
    let mut watch = Watch::new(rt.alloc(), rt, log, Poll::new(rt).ok());
    let mut moment = 58u64;
    let mut now = || {
        moment = moment.saturating_add(1);
        Some(moment)
    };
    let count = Some(ASKED.len() as u64);
    let again = || Err(OpenFault::Store);
    let served = serve_on(&mut watch, front, listener, &mut now, count, &again);
    assert!(rt; served.is_ok());
}

/// Sends all requests, has them served by a desk over this store, and compares the answers.
fn are_served<S: Store<Global>>(
    rt: &(impl Abort + AllocGlobal + Clock + Net<Listener = TcpListener, Stream = TcpStream>),
    store: S,
) {
    let address = SocketAddr::from((Ipv4Addr::LOCALHOST, 0));
    let listener = TcpListener::bind(rt, address).expect(rt, "a listener");
    let mut streams = Vec::new(rt.alloc());
    for text in ASKED {
        let stream = sent(rt, &listener, &exchange_in(rt, text));
        streams.push(stream).expect(rt, "memory");
    }
    let mut front = front_of(rt, store);
    serve(rt, &listener, &mut front);
    for (stream, text) in streams.iter().zip(ASKED) {
        is_answered(rt, stream, &exchange_in(rt, text));
    }
}

/// The same over these tables, which are made.
fn are_served_over<S: Alter + Drop>(
    rt: &(impl Abort + AllocGlobal + Clock + Net<Listener = TcpListener, Stream = TcpStream>),
    tables: SqlStore<S>,
) {
    let mut tables = tables;
    assert!(rt; tables.init().is_ok());
    are_served(rt, tables);
}

#[test]
fn connections_are_served_in_turn_by_a_desk(rt: HostRuntime) {
    let Ok(connection) = Connection::open_in_memory(rt.alloc()) else {
        panic!(rt; "no connection");
    };
    are_served_over(&rt, SqlStore::new(connection, rt.alloc()));
}
