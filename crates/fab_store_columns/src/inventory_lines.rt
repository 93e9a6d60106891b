//! Lines of the tables of ports, addresses, holders and volumes.
ghost use Rattle.std.specs.Prelude.{◌≡◌, ◌≤◌, Some, MatchOption, IfOk, string_bytes};
ghost use Rattle.std.specs.Option.{option_map};
ghost use Rattle.fab_inventory.specs.Limits.{most_bytes};
ghost use Rattle.fab_store_rows.specs.declared.inventory_row.PortEntry.{PortEntry};
ghost use Rattle.fab_store_rows.specs.declared.inventory_row.AddressRow.{AddressRow};
ghost use Rattle.fab_store_rows.specs.declared.inventory_row.HolderRow.{HolderRow};
ghost use Rattle.fab_store_rows.specs.declared.inventory_row.VolumeRow.{VolumeRow};
ghost use Rattle.fab_store_columns_base.specs.Columns.{ShowsAt};
ghost use Rattle.fab_store_columns.specs.InventoryLines.{ShowsPort, ShowsAddress, ShowsHolder, ShowsVolume};

use fab_inventory::MOST_BYTES;
use fab_names::{Fabric, Place, Wwn};
use fab_store_columns_base::{
    address_text, name_or_null, name_text, plain_text, read_address, read_at, read_count,
    read_kind, read_name, read_name_or_null,
};
use fab_store_rows::{AddressRow, HolderRow, PortEntry, VolumeRow};
use std::alloc::{AllocError, Allocator};
use std::marker::Model;

/// A line of `ports`. A contract sees its columns.
#[derive(Drop)]
pub struct PortLine<A: Allocator + Copy> {
    /// The sixteen lower-case digits of the N_Port_Name.
    pub wwpn: String<A>,
    /// The sixteen lower-case digits of the Node_Name.
    pub wwnn: String<A>,
    /// `A` or `B`; this and the next two are null where the port is logged in nowhere.
    pub fabric: Option<String<A>>,
    /// The Domain_ID.
    pub domain: Option<i64>,
    /// The physical port.
    pub slot: Option<i64>,
    /// The name of the holder, or null.
    pub holder: Option<String<A>>,
}

impl<A: Allocator + Copy> Model for PortLine<A> {
    ghost use Rattle.std.specs.Prelude.{string_bytes};
    ghost use Rattle.std.specs.Option.{option_map};
    ghost use Rattle.fab_store_columns.specs.InventoryLines.{PortColumns};

    ghost Value = { PortColumns };

    ghost view = { λ l. record {
      wwpn = string_bytes l.wwpn;
      wwnn = string_bytes l.wwnn;
      fabric = option_map string_bytes l.fabric;
      domain = l.domain;
      slot = l.slot;
      holder = option_map string_bytes l.holder;
    } };
}

/// A line of `addresses`. A contract sees its columns.
#[derive(Drop)]
pub struct AddressLine<A: Allocator + Copy> {
    /// The sixteen lower-case digits of the N_Port_Name.
    pub wwpn: String<A>,
    /// The six lower-case digits of the address.
    pub address: String<A>,
}

impl<A: Allocator + Copy> Model for AddressLine<A> {
    ghost use Rattle.std.specs.Prelude.{string_bytes};
    ghost use Rattle.fab_store_columns.specs.InventoryLines.{AddressColumns};

    ghost Value = { AddressColumns };

    ghost view = { λ l. record { wwpn = string_bytes l.wwpn; address = string_bytes l.address } };
}

/// A line of `holders`. A contract sees its columns.
#[derive(Drop)]
pub struct HolderLine<A: Allocator + Copy> {
    pub name: String<A>,
    /// `host` or `array`.
    pub kind: String<A>,
    pub tenant: String<A>,
}

impl<A: Allocator + Copy> Model for HolderLine<A> {
    ghost use Rattle.std.specs.Prelude.{string_bytes};
    ghost use Rattle.fab_store_columns.specs.InventoryLines.{HolderColumns};

    ghost Value = { HolderColumns };

    ghost view = { λ l. record { name = string_bytes l.name; kind = string_bytes l.kind; tenant = string_bytes l.tenant } };
}

/// A line of `volumes`. A contract sees its columns.
#[derive(Drop)]
pub struct VolumeLine<A: Allocator + Copy> {
    pub name: String<A>,
    pub array: String<A>,
    pub tenant: String<A>,
    /// 1 to 9223372036854775807.
    pub bytes: i64,
}

impl<A: Allocator + Copy> Model for VolumeLine<A> {
    ghost use Rattle.std.specs.Prelude.{string_bytes};
    ghost use Rattle.fab_store_columns.specs.InventoryLines.{VolumeColumns};

    ghost Value = { VolumeColumns };

    ghost view = { λ l. record { name = string_bytes l.name; array = string_bytes l.array; tenant = string_bytes l.tenant; bytes = l.bytes } };
}

impl<A: Allocator + Copy> PortLine<A> {
    /// The port that the line shows, if it shows one. It takes no memory.
    pub fn read(&self) -> Option<PortEntry>
        ensures { MatchOption result ((p : PortEntry) → ¬ ShowsPort self.now p) (ShowsPort self.now) }
    {
        let name = Wwn::read_plain(self.wwpn.as_str())?;
        let node = Wwn::read_plain(self.wwnn.as_str())?;
        let Some(at) = read_at(&self.fabric, self.domain, self.slot) else {
            return None;
        };
        let Some(holder) = read_name_or_null(&self.holder) else {
            return None;
        };
        Some(PortEntry {
            name,
            node,
            at,
            holder,
        })
    }

    /// The line that shows the port.
    ///
    /// # Errors
    /// `AllocError` where there is no memory.
    pub fn print(alloc: A, port: &PortEntry) -> Result<Self, AllocError>
        ensures { IfOk result (λ line. ShowsPort line port.now) }
    {
        let wwpn = plain_text(alloc, port.name)?;
        let wwnn = plain_text(alloc, port.node)?;
        let holder = name_or_null(alloc, &port.holder)?;
        match port.at {
            Some(at) => logged_in(alloc, wwpn, wwnn, holder, at),
            None => Ok(PortLine {
                wwpn,
                wwnn,
                fabric: None,
                domain: None,
                slot: None,
                holder,
            }),
        }
    }
}

/// The line of a port that is logged in at the place.
fn logged_in<A: Allocator + Copy>(
    alloc: A,
    wwpn: String<A>,
    wwnn: String<A>,
    holder: Option<String<A>>,
    at: (Fabric, Place),
) -> Result<PortLine<A>, AllocError>
    ensures { IfOk result (λ line. (line.wwpn ≡ string_bytes wwpn) × (line.wwnn ≡ string_bytes wwnn)
        × (line.holder ≡ option_map string_bytes holder) × ShowsAt line.fabric line.domain line.slot (Some at)) }
{
    Ok(PortLine {
        wwpn,
        wwnn,
        fabric: Some(at.0.print(alloc)?),
        domain: Some(at.1.domain() as i64),
        slot: Some(at.1.slot() as i64),
        holder,
    })
}

impl<A: Allocator + Copy> AddressLine<A> {
    /// The address of a port that the line shows, if it shows one. It takes no memory.
    pub fn read(&self) -> Option<AddressRow>
        ensures { MatchOption result ((r : AddressRow) → ¬ ShowsAddress self.now r) (ShowsAddress self.now) }
    {
        let Some(port) = Wwn::read_plain(self.wwpn.as_str()) else {
            return None;
        };
        let Some(address) = read_address(self.address.as_str()) else {
            return None;
        };
        Some(AddressRow { port, address })
    }

    /// The line that shows the address of a port.
    ///
    /// # Errors
    /// `AllocError` where there is no memory.
    pub fn print(alloc: A, row: &AddressRow) -> Result<Self, AllocError>
        ensures { IfOk result (λ line. ShowsAddress line row.now) }
    {
        Ok(AddressLine {
            wwpn: plain_text(alloc, row.port)?,
            address: address_text(alloc, row.address)?,
        })
    }
}

impl<A: Allocator + Copy> HolderLine<A> {
    /// The holder that the line shows, if it shows one. It takes no memory.
    pub fn read(&self) -> Option<HolderRow>
        ensures { MatchOption result ((r : HolderRow) → ¬ ShowsHolder self.now r) (ShowsHolder self.now) }
    {
        let name = read_name(self.name.as_str())?;
        let kind = read_kind(self.kind.as_str())?;
        let tenant = read_name(self.tenant.as_str())?;
        Some(HolderRow { name, kind, tenant })
    }

    /// The line that shows the holder.
    ///
    /// # Errors
    /// `AllocError` where there is no memory.
    pub fn print(alloc: A, row: &HolderRow) -> Result<Self, AllocError>
        ensures { IfOk result (λ line. ShowsHolder line row.now) }
    {
        Ok(HolderLine {
            name: name_text(alloc, &row.name)?,
            kind: row.kind.word().to_string(alloc)?,
            tenant: name_text(alloc, &row.tenant)?,
        })
    }
}

impl<A: Allocator + Copy> VolumeLine<A> {
    /// The volume that the line shows, if it shows one. It takes no memory.
    pub fn read(&self) -> Option<VolumeRow>
        ensures { MatchOption result ((r : VolumeRow) → ¬ ShowsVolume self.now r) (ShowsVolume self.now) }
    {
        let name = read_name(self.name.as_str())?;
        let array = read_name(self.array.as_str())?;
        let tenant = read_name(self.tenant.as_str())?;
        let Some(bytes) = read_count(&self.bytes, 1, MOST_BYTES) else {
            return None;
        };
        Some(VolumeRow {
            name,
            array,
            tenant,
            bytes,
        })
    }

    /// The line that shows the volume.
    ///
    /// # Errors
    /// `AllocError` where there is no memory.
    pub fn print(alloc: A, row: &VolumeRow) -> Result<Self, AllocError>
        requires { (1 ≤ row.now.bytes) × (row.now.bytes ≤ most_bytes) }
        ensures { IfOk result (λ line. ShowsVolume line row.now) }
    {
        Ok(VolumeLine {
            name: name_text(alloc, &row.name)?,
            array: name_text(alloc, &row.array)?,
            tenant: name_text(alloc, &row.tenant)?,
            bytes: row.bytes as i64,
        })
    }
}
