//! What files contain.
ghost use Rattle.std.specs.Prelude.{◌≡◌, ◌↔◌, IfOk, IsTrue, MatchResult};
ghost use Rattle.fab_wire_streams.specs.Counting.{inner_of, failures_of};
ghost use Rattle.fab_program_outside.specs.Contents.{HasContent, HasFirst, IsReadFault, IsTooLarge, IsUnread, IsPolicyAt, IsPolicyFrom, IsPolicyOf, fault_of_policy};

use crate::faults::Fault;
use crate::files::Files;
use fab_policy_base::{Policy, PolicyFault};
use fab_policy_text::ReadPolicy;
use fab_wire_streams::counted::Counted;
use std::alloc::Global;
use std::io::{ErrorKind, Read};
use std::{io, str};

/// The greatest length of a policy's file, and of a port list's, in bytes.
const MOST_FILE: u64 = 1_048_576;

/// The bytes of a file, of which there is one more than a file may have where it has more.
///
/// # Errors
/// `File` where it is not there, or cannot be opened or read; `Memory`.
pub fn bytes_of<F: Files>(alloc: Global, files: &F, path: &str) -> Result<Vec<u8>, Fault>
    ensures { MatchResult result (λ bytes. HasContent F.File.remaining (F.opens files.now path.now) bytes.items) (IsUnread (F.opens files.now path.now)) }
{
    match files.open(path) {
        Some(file) => {
            let mut file = Counted::new(file);
            read_all(alloc, &mut file)
        }
        None => Err(Fault::File),
    }
}

/// What a reader gives, up to one byte more than a file may have.
///
/// # Errors
/// `File` where a read fails; `Memory`.
fn read_all<R: Read>(alloc: Global, reader: &mut Counted<R>) -> Result<Vec<u8>, Fault>
    ensures { MatchResult result (λ bytes. HasFirst (R.remaining (inner_of reader.old)) bytes.items) (IsReadFault (failures_of reader.old) (failures_of reader.new)) }
{
    let before = reader.failures();
    match first_bytes(alloc, reader) {
        Ok(bytes) => Ok(bytes),
        Err(error) if error.kind() == ErrorKind::OutOfMemory => Err(Fault::Memory),
        Err(_) => Err(unread(before, reader.failures())),
    }
}

/// What a reader gives, up to one byte more than a file may have. A read that is interrupted is tried
/// again.
///
/// # Errors
/// That of a read that fails, or of want of memory.
fn first_bytes<R: Read>(alloc: Global, reader: &mut Counted<R>) -> io::Result<Vec<u8>>
    ensures { IfOk result (λ bytes. HasFirst (R.remaining (inner_of reader.old)) bytes.items) }
{
    let mut bytes = Vec::new(alloc);
    match reader.take(MOST_FILE + 1).read_to_end(&mut bytes) {
        Ok(_) => Ok(bytes),
        Err(error) => Err(error),
    }
}

/// Why a reader was not read to its end, by how many of its reads had failed before and have failed now.
fn unread(before: u64, after: u64) -> Fault
    ensures { IsReadFault before after result }
{
    if before < after {
        Fault::File
    } else {
        Fault::Memory
    }
}

/// Whether these are more bytes than a file may have.
pub fn is_too_large(bytes: &[u8]) -> bool
    ensures { IsTrue result ↔ IsTooLarge bytes.now }
{
    bytes.len() as u64 > MOST_FILE
}

/// The policy that a file spells.
///
/// # Errors
/// `File` where the file is not there, or cannot be opened or read; `Policy` where it has more than
/// 1048576 bytes, or spells no policy; `Memory`.
pub fn policy_of<F: Files>(alloc: Global, files: &F, path: &str) -> Result<Policy, Fault>
    ensures { IsPolicyAt F.File.remaining (F.opens files.now path.now) result }
{
    match bytes_of(alloc, files, path) {
        Ok(bytes) => policy_in(alloc, bytes.as_slice()),
        Err(fault) => Err(fault),
    }
}

/// The policy that the bytes of a file spell.
///
/// # Errors
/// `Policy` where there are more than 1048576 of them, or they spell none; `Memory`.
fn policy_in(alloc: Global, bytes: &[u8]) -> Result<Policy, Fault>
    ensures { IsPolicyOf bytes.now result }
{
    if is_too_large(bytes) {
        return Err(Fault::Policy);
    }
    match str::from_utf8(bytes) {
        Ok(text) => policy_from(alloc, text),
        Err(_no_text) => Err(Fault::Policy),
    }
}

/// The policy that a text spells.
///
/// # Errors
/// `Policy` where it spells none; `Memory`.
pub fn policy_from(alloc: Global, text: &str) -> Result<Policy, Fault>
    ensures { IsPolicyFrom text.now result }
{
    match Policy::read(alloc, text) {
        Ok(policy) => Ok(policy),
        Err(fault) => Err(of_policy(fault)),
    }
}

/// The fault of a text from which no policy was read.
fn of_policy(fault: PolicyFault) -> Fault
    ensures { result ≡ fault_of_policy fault }
{
    match fault {
        PolicyFault::Memory => Fault::Memory,
        _ => Fault::Policy,
    }
}
