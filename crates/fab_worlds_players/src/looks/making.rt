//! A world that is made line by line.

use fab_inventory::HolderKind;
use fab_names::{Fabric, Name, Wwn};
use fab_plans::trial;
use fab_plans_text::read_plan;
use fab_wire_requests::port_list::read_ports;
use fab_world::World;
use std::alloc::Global;

/// The first line of a port list.
const HEADER: &str = "port_name,node_name,domain,port\n";

/// The bytes of each volume.
const BYTES: u64 = 512;

/// A world, and the texts of what comes to it next.
pub struct Making {
    alloc: Global,
    ports_a: String,
    ports_b: String,
    plan: String,
    pub world: World<Global>,
}

// It is written out, so that an owner does not prove again how each part is dropped.
impl Drop for Making {
    fn drop(self) {
        let Making {
            alloc: _,
            ports_a: _,
            ports_b: _,
            plan: _,
            world: _,
        } = self;
    }
}

/// Adds a line to a text.
fn add(text: &mut String, line: &str) -> Option<()> {
    text.push_str(line).ok()?;
    text.push('\n').ok()
}

/// The name of this text.
pub fn name_of(text: &str) -> Option<Name> {
    Name::read(text).ok()
}

/// The N_Port_Names of a text, with a space between them.
fn wwns_of(alloc: Global, text: &str) -> Option<Vec<Wwn>> {
    let mut names = Vec::new(alloc);
    for word in text.split(' ') {
        if let Ok(name) = Wwn::read(word) {
            names.push(name).ok()?;
        }
    }
    Some(names)
}

impl Making {
    /// A world that has nothing.
    pub fn new(alloc: Global) -> Self {
        Making {
            alloc,
            ports_a: String::new(alloc),
            ports_b: String::new(alloc),
            plan: String::new(alloc),
            world: World::new(alloc),
        }
    }

    /// Imports the ports of a fabric.
    fn import_at(&mut self, fabric: Fabric, rows: &str) -> Option<()> {
        let mut text = String::from_str(self.alloc, HEADER).ok()?;
        text.push_str(rows).ok()?;
        let rows = read_ports(self.alloc, self.alloc, text.as_bytes()).ok()?;
        self.world.inventory.import(fabric, &rows).ok()
    }

    /// Imports both port lists, which begin anew.
    fn import(&mut self) -> Option<()> {
        let a = std::mem::replace(&mut self.ports_a, String::new(self.alloc));
        let b = std::mem::replace(&mut self.ports_b, String::new(self.alloc));
        self.import_at(Fabric::A, a.as_str())?;
        self.import_at(Fabric::B, b.as_str())
    }

    /// Puts a host or an array.
    fn hold(&mut self, kind: HolderKind, text: &str) -> Option<()> {
        let (name, rest) = text.split_once(' ')?;
        let (tenant, ports) = rest.split_once(' ').unwrap_or((rest, ""));
        let ports = wwns_of(self.alloc, ports)?;
        let (name, tenant) = (name_of(name)?, name_of(tenant)?);
        self.world
            .inventory
            .put_holder(name, kind, tenant, &ports)
            .ok()
    }

    /// Puts a volume.
    fn put_volume(&mut self, text: &str) -> Option<()> {
        let (name, rest) = text.split_once(' ')?;
        let (tenant, array) = rest.split_once(' ')?;
        let (name, tenant, array) = (name_of(name)?, name_of(tenant)?, name_of(array)?);
        self.world
            .inventory
            .put_volume(name, array, tenant, BYTES)
            .ok()
    }

    /// Does the plan, which begins anew.
    fn activate(&mut self) -> Option<()> {
        let plan = std::mem::replace(&mut self.plan, String::new(self.alloc));
        let steps = read_plan(self.alloc, plan.as_str()).ok()?;
        let config = trial(&self.world.config, &self.world.inventory, &steps).ok()?;
        self.world.config = config;
        Some(())
    }

    /// Does what a line of this word says.
    pub fn make(&mut self, word: &str, text: &str) -> Option<()> {
        match word {
            "a" => add(&mut self.ports_a, text),
            "b" => add(&mut self.ports_b, text),
            "import" => self.import(),
            "host" => self.hold(HolderKind::Host, text),
            "array" => self.hold(HolderKind::Array, text),
            "volume" => self.put_volume(text),
            "+" => add(&mut self.plan, text),
            "plan" => self.activate(),
            _ => None,
        }
    }
}
