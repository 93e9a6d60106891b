//! Names of hosts, one behind the other.
ghost use Rattle.std.specs.Prelude.{◌≡◌};
ghost use Rattle.fab_files_tries.specs.Names as names;
ghost use Rattle.fab_files_tries.specs.Names.{hosts_text, listed_text, spaced_names};
ghost use Rattle.fab_wire_streams.specs.Taking.{Takes};

use fab_names::Name;
use fab_wire_streams::sink::{Sink, put_all};
use fab_wire_streams::streams::WriteFailed;
use itoa::Buffer;

/// `host` or `hosts`, behind a space.
pub fn hosts_word(count: usize) -> &'static str
    ensures { result.now ≡ names.hosts_word count }
{
    if count == 1 { " host" } else { " hosts" }
}

/// Puts a name behind a space.
fn put_spaced<S: Sink>(sink: &mut S, name: &Name) -> Result<(), WriteFailed>
    ensures { Takes S.took S.cut sink.old (names.spaced name.now) sink.new result }
{
    put_all(sink, &[b" ".as_slice(), name.as_bytes()])
}

/// Puts names, each behind a space.
fn put_names<S: Sink>(sink: &mut S, hosts: &[Name]) -> Result<(), WriteFailed>
    ensures { Takes S.took S.cut sink.old (spaced_names hosts.now) sink.new result }
{
    for name in hosts {
        let Ok(()) = put_spaced(sink, name) else {
            return Err(WriteFailed);
        };
    }
    Ok(())
}

/// Puts how many hosts there are.
fn put_count<S: Sink>(sink: &mut S, count: usize) -> Result<(), WriteFailed>
    ensures { Takes S.took S.cut sink.old (names.count_text count) sink.new result }
{
    let mut digits = Buffer::new();
    let texts = [
        b" ".as_slice(),
        digits.format(count).as_bytes(),
        hosts_word(count).as_bytes(),
        b":".as_slice(),
    ];
    put_all(sink, &texts)
}

/// Puts how many hosts there are, and their names.
fn put_counted<S: Sink>(sink: &mut S, hosts: &[Name]) -> Result<(), WriteFailed>
    ensures { Takes S.took S.cut sink.old (names.counted_text hosts.now) sink.new result }
{
    let Ok(()) = put_count(sink, hosts.len()) else {
        return Err(WriteFailed);
    };
    put_names(sink, hosts)
}

/// Puts hosts, behind a space: how many there are and their names, or that there is none.
pub fn put_hosts<S: Sink>(sink: &mut S, hosts: &[Name]) -> Result<(), WriteFailed>
    ensures { Takes S.took S.cut sink.old (hosts_text hosts.now) sink.new result }
{
    if hosts.is_empty() {
        sink.take(b" none")
    } else {
        put_counted(sink, hosts)
    }
}

/// Puts names, each behind a space, or that there is none.
pub fn put_listed<S: Sink>(sink: &mut S, hosts: &[Name]) -> Result<(), WriteFailed>
    ensures { Takes S.took S.cut sink.old (listed_text hosts.now) sink.new result }
{
    if hosts.is_empty() {
        sink.take(b" none")
    } else {
        put_names(sink, hosts)
    }
}
