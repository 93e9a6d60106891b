//! Reads a port list: the CSV text (RFC 4180) of the ports that are logged in to one fabric.

ghost use Rattle.std.specs.Prelude.{ℕ, ◌≡◌, ◌≢◌, ◌<◌, ◌+◌, ◌↔◌, [], ◌∷◌, Bool, IsTrue, Option, IfOk, IfErr, Some, length, MatchOption, MatchBool};
ghost use Rattle.csv.specs.Records.{fields_of, field_at};
ghost use Rattle.fab_inventory.specs.declared.port.PortRow.{PortRow};
ghost use Rattle.fab_wire_requests.specs.PortLists.{address_column, four_columns, header_of, IsNoHeader, IsAddressPart, SpellsAddressOrNone, SpellsRow, ListsPorts, IsFileFault};
ghost use Rattle.fab_wire_requests.specs.RecordFields.{others_of, texts_of, HasFourOrFive};
ghost use Rattle.fab_wire_requests.specs.RecordReaders.{IsReaderOf};

use csv::{ByteRecord, Reader, ReaderBuilder};
use fab_inventory::PortRow;
use fab_names::{Address, Place, read_address, read_wwn};
use std::alloc::{Allocator, Global};

/// Why a port list is refused.
#[derive(Clone, Copy, Debug)]
pub enum FileFault {
    /// The number of the first faulty record, of which the header is 1.
    Line(usize),
    /// There was no memory.
    Memory,
}

/// Reads the rows of a port list: the header `port_name,node_name,domain,port`, and then a record
/// of four fields for each row; or the header with `,address` behind it, and then records of five
/// fields, of which the last is an N_Port_ID, or empty where the port has none. Records are those
/// that `csv` reads.
///
/// Rows come from `alloc`, and what `csv` needs from `global`.
///
/// # Errors
/// `Line` with the first record that is none of these, and 1 where there is no record; `Memory`.
pub fn read_ports<A: Allocator + Copy>(
    alloc: A,
    global: Global,
    text: &[u8],
) -> Result<Vec<PortRow, A>, FileFault>
    ensures ok { IfOk result (λ rows. ListsPorts text.now rows.items) }
    ensures err { IfErr result (IsFileFault text.now) }
{
    let mut rows = Vec::new(alloc);
    let mut columns = None;
    for item in reader_of(global, text).into_byte_records() {
        let Ok(fields) = item else {
            return Err(FileFault::Memory);
        };
        match columns {
            Some(addressed) => {
                let Some(row) = read_row(addressed, &fields) else {
                    return Err(FileFault::Line(line_behind(&rows)));
                };
                if rows.push(row).is_err() {
                    return Err(FileFault::Memory);
                }
            }
            None => {
                let Some(addressed) = header_in(&fields) else {
                    return Err(FileFault::Line(1));
                };
                columns = Some(addressed);
            }
        }
    }
    match columns {
        Some(_) => Ok(rows),
        None => Err(FileFault::Line(1)),
    }
}

/// A reader of the records of a text, of any length and with no header row set apart.
fn reader_of(global: Global, text: &[u8]) -> Reader<&[u8]>
    ensures { IsReaderOf text.now result }
{
    ReaderBuilder::new()
        .has_headers(false)
        .flexible(true)
        .from_reader(global, text)
}

/// The number of the record behind the header and these rows.
fn line_behind<A: Allocator>(rows: &Vec<PortRow, A>) -> usize
    ensures { result ≡ length rows.now.items + 2 }
{
    rows.len() + 2
}

/// The row of a record, if its fields spell one.
fn read_row(addressed: bool, fields: &ByteRecord) -> Option<PortRow>
    ensures { MatchOption result ((row : PortRow) → ¬ (SpellsRow addressed (fields_of fields.now) row))
        (SpellsRow addressed (fields_of fields.now)) }
{
    match texts_in(fields) {
        Some(texts) => row_of(addressed, texts),
        None => None,
    }
}

/// The row that texts spell, if they spell one.
fn row_of(addressed: bool, texts: Texts<'_>) -> Option<PortRow>
    ensures { MatchOption result ((row : PortRow) → ¬ (SpellsRow addressed (texts_of texts.entry) row))
        (SpellsRow addressed (texts_of texts.entry)) }
{
    let Some(name) = read_wwn(texts.name) else {
        return None;
    };
    let Some(node) = read_wwn(texts.node) else {
        return None;
    };
    let Ok(place) = Place::from_texts(texts.domain, texts.slot) else {
        return None;
    };
    let Some(address) = address_in(addressed, texts.address) else {
        return None;
    };
    Some(PortRow {
        name,
        node,
        place,
        address,
    })
}

/// The address of a record, or that it has none, if what stands behind its four fields is either.
fn address_in(addressed: bool, text: Option<&[u8]>) -> Option<Option<Address>>
    ensures { MatchOption result ((address : Option ℕ) → ¬ (IsAddressPart addressed (others_of text.entry) address))
        (IsAddressPart addressed (others_of text.entry)) }
{
    match text {
        Some(field) => address_of(addressed, field),
        None => { if addressed { None } else { Some(None) } }
    }
}

/// The address that the fifth field of a record spells, or that the record has none, if the field
/// is either: none of them without a column of addresses.
fn address_of(addressed: bool, field: &[u8]) -> Option<Option<Address>>
    ensures { MatchOption result ((address : Option ℕ) → ¬ (IsAddressPart addressed (field.now ∷ []) address))
        (IsAddressPart addressed (field.now ∷ [])) }
{
    if addressed {
        address_or_none(field)
    } else {
        None
    }
}

/// The address that a field spells, or that it is empty, if it is either.
fn address_or_none(field: &[u8]) -> Option<Option<Address>>
    ensures { MatchOption result ((address : Option ℕ) → ¬ (SpellsAddressOrNone field.now address))
        (SpellsAddressOrNone field.now) }
{
    if field.is_empty() {
        return Some(None);
    }
    match read_address(field) {
        Some(address) => Some(Some(address)),
        None => None,
    }
}

/// Whether the list has a column of addresses, if a record is a header.
fn header_in(fields: &ByteRecord) -> Option<bool>
    ensures { MatchOption result (IsNoHeader (fields_of fields.now)) (λ addressed. fields_of fields.now ≡ header_of addressed) }
{
    match texts_in(fields) {
        Some(texts) => header_among(texts),
        None => None,
    }
}

/// Whether the list has a column of addresses, if texts are those of a header.
fn header_among(texts: Texts<'_>) -> Option<bool>
    ensures { MatchOption result (IsNoHeader (texts_of texts.entry)) (λ addressed. texts_of texts.entry ≡ header_of addressed) }
{
    if !names_four(texts) {
        return None;
    }
    column_in(texts.address)
}

/// Whether the first four texts are those of a header.
fn names_four(texts: Texts<'_>) -> bool
    ensures { MatchBool result (texts_of texts.entry ≡ four_columns (others_of texts.entry.address))
        (texts_of texts.entry ≢ four_columns (others_of texts.entry.address)) }
{
    texts.name == b"port_name".as_slice()
        && texts.node == b"node_name".as_slice()
        && texts.domain == b"domain".as_slice()
        && texts.slot == b"port".as_slice()
}

/// Whether there is a column of addresses, if what stands behind the first four fields of a header
/// says so.
fn column_in(text: Option<&[u8]>) -> Option<bool>
    ensures { MatchOption result ((addressed : Bool) → others_of text.entry ≢ address_column addressed)
        (λ addressed. others_of text.entry ≡ address_column addressed) }
{
    match text {
        Some(text) => {
            if text == b"address".as_slice() {
                Some(true)
            } else {
                None
            }
        }
        None => Some(false),
    }
}

/// The fields of a record of four, or of five.
#[derive(Clone, Copy)]
struct Texts<'a> {
    name: &'a [u8],
    node: &'a [u8],
    domain: &'a [u8],
    slot: &'a [u8],
    address: Option<&'a [u8]>,
}

/// The fields of a record, where there are four or five.
fn texts_in(fields: &ByteRecord) -> Option<Texts<'_>>
    ensures { MatchOption result (¬ (HasFourOrFive (fields_of fields.now))) (λ texts. texts_of texts ≡ fields_of fields.now) }
{
    if !has_four_or_five(fields) {
        return None;
    }
    let name = field_in(fields, 0);
    let node = field_in(fields, 1);
    let domain = field_in(fields, 2);
    let slot = field_in(fields, 3);
    let address = fields.get(4);
    Some(Texts {
        name,
        node,
        domain,
        slot,
        address,
    })
}

/// Whether a record has four fields, or five.
fn has_four_or_five(fields: &ByteRecord) -> bool
    ensures { IsTrue result ↔ HasFourOrFive (fields_of fields.now) }
{
    fields.len() == 4 || fields.len() == 5
}

/// The field of a record at a place.
fn field_in(fields: &ByteRecord, i: usize) -> &[u8]
    requires { i < length (fields_of fields.now) }
    ensures { Some result.now ≡ field_at (fields_of fields.now) i }
{
    match fields.get(i) {
        Some(field) => field,
        None => &[],
    }
}
