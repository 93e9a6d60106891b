//! What columns show: each is read exactly where it shows a value, and written of a value.
ghost use Rattle.std.specs.Prelude.{◌≡◌, ◌<◌, ◌≤◌, ◌^◌, ℕ, List, Option, MatchOption, IfOk, IsTrue, ◌↔◌, Bool, get_or, length, string_bytes};
ghost use Rattle.std.specs.Option.{option_map};
ghost use Rattle.fab_names.specs.Names.{SpellsName};
ghost use Rattle.fab_names.specs.WorldWideNames.{SpellsPlain};
ghost use Rattle.fab_names.specs.Fabrics.{SpellsFabric};
ghost use Rattle.fab_names.specs.Places.{Position};
ghost use Rattle.fab_names.specs.Members.{SpellsMember, SpellsPrinted, member_text};
ghost use Rattle.fab_names.specs.declared.fabric.Fabric.{Fabric};
ghost use Rattle.fab_names.specs.declared.member.Member.{Member};
ghost use Rattle.fab_names.specs.Addresses.{SpellsAddress, SpellsPrintedAddress};
ghost use Rattle.fab_names.specs.Addresses as spelled;
ghost use Rattle.fab_names.specs.declared.member.Member.TheVariants as member;
ghost use Rattle.fab_inventory.specs.Words.{kind_text};
ghost use Rattle.fab_inventory.specs.declared.holder.HolderKind.{HolderKind};
ghost use Rattle.fab_store_columns_base.specs.Columns as spec;

use fab_inventory::HolderKind;
use fab_names::{
    Address, FIRST_DOMAIN, Fabric, LAST_DOMAIN, LAST_SLOT, Member, Name, Place, Wwn, read_number,
};
use std::alloc::{AllocError, Allocator};

/// The name in a text, if it spells one. It takes no memory.
pub fn read_name(text: &str) -> Option<Name>
    ensures { MatchOption result ((n : List ℕ) → ¬ SpellsName text.now n) (SpellsName text.now) }
{
    match Name::read(text) {
        Ok(name) => Some(name),
        Err(_) => None,
    }
}

/// The text of a name: its own characters.
///
/// # Errors
/// `AllocError` where there is no memory.
pub fn name_text<A: Allocator>(alloc: A, name: &Name) -> Result<String<A>, AllocError>
    ensures { IfOk result (λ text. SpellsName (string_bytes text) name.now) }
{
    name.as_str().to_string(alloc)
}

/// The name in a column that may be null, which shows no name: nothing where the text spells none.
/// It takes no memory.
pub fn read_name_or_null<A: Allocator>(text: &Option<String<A>>) -> Option<Option<Name>>
    ensures { MatchOption result ((n : Option (List ℕ)) → ¬ spec.ShowsOption SpellsName (option_map string_bytes text.now) n)
        (spec.ShowsOption SpellsName (option_map string_bytes text.now)) }
{
    match text {
        None => Some(None),
        Some(text) => match read_name(text.as_str()) {
            Some(name) => Some(Some(name)),
            None => None,
        },
    }
}

/// The column of a name, or null.
///
/// # Errors
/// `AllocError` where there is no memory.
pub fn name_or_null<A: Allocator>(
    alloc: A,
    name: &Option<Name>,
) -> Result<Option<String<A>>, AllocError>
    ensures { IfOk result (λ text. spec.ShowsOption SpellsName (option_map string_bytes text) name.now) }
{
    match name {
        None => Ok(None),
        Some(name) => match name_text(alloc, name) {
            Ok(text) => Ok(Some(text)),
            Err(fault) => Err(fault),
        },
    }
}

/// The sixteen lower-case digits of a world-wide name.
///
/// # Errors
/// `AllocError` where there is no memory.
pub fn plain_text<A: Allocator>(alloc: A, name: Wwn) -> Result<String<A>, AllocError>
    ensures { IfOk result (λ text. SpellsPlain (string_bytes text) name) }
{
    let _number = name.number();
    name.plain().as_str().to_string(alloc)
}

/// The fabric in a text, `A` or `B`. It takes no memory.
pub fn read_fabric(text: &str) -> Option<Fabric>
    ensures { MatchOption result ((f : Fabric) → ¬ SpellsFabric text.now f) (SpellsFabric text.now) }
{
    match Fabric::read(text) {
        Ok(fabric) => Some(fabric),
        Err(_) => None,
    }
}

/// The address in a text of six lower-case digits, if it spells one. It takes no memory.
pub fn read_address(text: &str) -> Option<Address>
    ensures { MatchOption result ((n : ℕ) → ¬ SpellsPrintedAddress text.now n) (SpellsPrintedAddress text.now) }
{
    Address::read_printed(text)
}

/// The text of an address: six lower-case digits.
///
/// # Errors
/// `AllocError` where there is no memory.
pub fn address_text<A: Allocator>(alloc: A, address: Address) -> Result<String<A>, AllocError>
    ensures { IfOk result (λ text. SpellsPrintedAddress (string_bytes text) address) }
{
    address_is_spelled(address);
    address.print(alloc)
}

/// The place in three columns that are not null.
fn read_place(fabric: &str, domain: i64, slot: i64) -> Option<(Fabric, Place)>
    ensures { MatchOption result ((at : Fabric × Position) → ¬ spec.ShowsPlace fabric.now domain slot at)
        (spec.ShowsPlace fabric.now domain slot) }
{
    let Some(fabric) = read_fabric(fabric) else {
        return None;
    };
    if domain < FIRST_DOMAIN as i64
        || domain > LAST_DOMAIN as i64
        || slot < 0
        || slot > LAST_SLOT as i64
    {
        return None;
    }
    Some((fabric, Place::new(domain as u8, slot as u16)))
}

/// The place in three columns, fabric, domain (1 to 239) and physical port (0 to 4095), which are
/// all null where a port is logged in nowhere. It takes no memory.
pub fn read_at<A: Allocator>(
    fabric: &Option<String<A>>,
    domain: Option<i64>,
    slot: Option<i64>,
) -> Option<Option<(Fabric, Place)>>
    ensures { MatchOption result ((at : Option (Fabric × Position)) → ¬ spec.ShowsAt (option_map string_bytes fabric.now) domain slot at)
        (spec.ShowsAt (option_map string_bytes fabric.now) domain slot) }
{
    match (fabric, domain, slot) {
        (None, None, None) => Some(None),
        (Some(fabric), Some(domain), Some(slot)) => {
            match read_place(fabric.as_str(), domain, slot) {
                Some(at) => Some(Some(at)),
                None => None,
            }
        }
        _ => None,
    }
}

/// The kind of holder in a text, `host` or `array`. It takes no memory.
pub fn read_kind(text: &str) -> Option<HolderKind>
    ensures { MatchOption result ((k : HolderKind) → ¬ (text.now ≡ kind_text k)) (λ k. text.now ≡ kind_text k) }
{
    match text {
        "host" => Some(HolderKind::Host),
        "array" => Some(HolderKind::Array),
        _ => None,
    }
}

/// The number in a column, if it is from the least on and up to the most, which a database keeps.
pub fn read_count(column: &i64, least: u64, most: u64) -> Option<u64>
    requires { most < 2 ^ 63 }
    ensures { MatchOption result ((n : ℕ) → ¬ spec.ShowsNumber least most column.now n) (spec.ShowsNumber least most column.now) }
{
    let column = *column;
    if column < 0 {
        return None;
    }
    let number = column as u64;
    if number < least || number > most {
        return None;
    }
    Some(number)
}

/// The answer in a column of 0 and 1: 0 for no, 1 for yes.
pub fn read_flag(column: &i64) -> Option<bool>
    ensures { MatchOption result ((b : Bool) → ¬ (column.now ≡ spec.flag_number b)) (λ b. column.now ≡ spec.flag_number b) }
{
    match *column {
        0 => Some(false),
        1 => Some(true),
        _ => None,
    }
}

/// The column of an answer: 0 for no, 1 for yes.
pub fn flag_column(flag: bool) -> i64
    ensures { result ≡ spec.flag_number flag }
{
    if flag { 1 } else { 0 }
}

/// Whether there are digits behind a leading zero.
fn has_leading_zero(text: &str) -> bool
    ensures { IsTrue result ↔ ((get_or text.now 0 0 ≡ 48) × (2 ≤ length text.now)) }
{
    let digits = text.as_bytes();
    digits.len() >= 2 && digits[0] == b'0'
}

/// The number in a text of its decimal digits without leading zeros, up to the most. It takes no
/// memory.
pub fn read_decimal(text: &str, most: u64) -> Option<u64>
    ensures { MatchOption result ((n : ℕ) → ¬ spec.ShowsDecimal most text.now n) (spec.ShowsDecimal most text.now) }
{
    let Some(number) = read_number(text.as_bytes()) else {
        return None;
    };
    if number > most as u128 {
        return None;
    }
    if has_leading_zero(text) {
        return None;
    }
    Some(number as u64)
}

/// An N_Port_Name is spelled by its printed form.
fn port_is_spelled(name: Wwn)
    ensures { SpellsMember (member_text (member.Port name)) (member.Port name) }
{
    let _number = name.number();
}

/// A Node_Name is spelled by its printed form.
fn node_is_spelled(name: Wwn)
    ensures { SpellsMember (member_text (member.Node name)) (member.Node name) }
{
    let _number = name.number();
}

/// A place is spelled by its printed form.
fn place_is_spelled(place: Place)
    ensures { SpellsMember (member_text (member.Place place)) (member.Place place) }
{
    let _domain = place.domain();
    let _slot = place.slot();
}

/// An address is spelled by its printed form.
fn address_is_spelled(address: Address)
    ensures { SpellsAddress (spelled.address_text address) address }
{
    let _number = address.number();
}

/// So it is as a member.
fn address_member_is_spelled(address: Address)
    ensures { SpellsMember (member_text (member.Address address)) (member.Address address) }
{
    address_is_spelled(address);
}

/// The name of an alias is spelled by its printed form.
fn alias_is_spelled(name: &Name)
    ensures { SpellsMember (member_text (member.Alias name.now)) (member.Alias name.now) }
{
    let _text = name.as_str();
}

/// Each member is spelled by its printed form.
fn is_spelled(member: &Member)
    ensures { SpellsMember (member_text member.now) member.now }
{
    match member {
        Member::Port(name) => port_is_spelled(*name),
        Member::Node(name) => node_is_spelled(*name),
        Member::Place(place) => place_is_spelled(*place),
        Member::Address(address) => address_member_is_spelled(*address),
        Member::Alias(name) => alias_is_spelled(name),
    }
}

/// The printed form of a member.
///
/// # Errors
/// `AllocError` where there is no memory.
pub fn print_member<A: Allocator>(alloc: A, member: &Member) -> Result<String<A>, AllocError>
    ensures { IfOk result (λ text. SpellsPrinted (string_bytes text) member.now) }
{
    is_spelled(member);
    member.print(alloc)
}
