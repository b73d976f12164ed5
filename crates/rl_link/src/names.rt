// The names that requests have for ports, reset kinds and fields.
ghost use Rattle.std.specs.Prelude.{◌≡◌, ◌<◌, ◌++◌, ◌∷◌, [], IfOk, OnOk, length, map, get_or};
ghost use Rattle.rl_model.specs.Chip.{field_path};
ghost use Rattle.rl_model.specs.Fields.{field_of};
ghost use Rattle.rl_map.specs.Layout.{port_at};
ghost use Rattle.rl_link.specs.Requests.{name_at, port_name};

use crate::request::push;
use rl_map::Layout;
use rl_model::{Chip, Item};
use std::alloc::{AllocError, Global};
use std::marker::Model;

// Names by number.
#[derive(Drop)]
struct Table {
    names: Vec<Vec<u8>>,
}

impl Model for Table {
    ghost use Rattle.std.specs.Prelude.{ℕ, List, map};

    ghost Value = { List (List ℕ) };

    ghost view = { λ t. map (λ name. name.items) t.names.items };
}

impl Table {
    ghost use Rattle.std.specs.Prelude.{◌≡◌, ◌++◌, ◌∷◌, [], OnOk};

    fn new(alloc: Global) -> Table
        ensures { result ≡ [] }
    {
        Table {
            names: Vec::new(alloc),
        }
    }

    fn push(&mut self, name: Vec<u8>) -> Result<(), AllocError>
        ensures { OnOk result (self.new ≡ self.old ++ name.items ∷ []) }
    {
        self.names.push(name)?;
        Ok(())
    }

    // The name of that number, which is empty past the end.
    fn get(&self, number: u32) -> &[u8]
        ensures { result.now ≡ name_at self.now number }
    {
        match self.names.get(number as usize) {
            Some(name) => name,
            None => &[],
        }
    }
}

/// The root map of each port, each reset kind, and each field's path, as requests name them.
#[derive(Drop)]
pub struct Names {
    ports: Table,
    kinds: Table,
    fields: Table,
}

impl Model for Names {
    ghost use Rattle.rl_link.specs.Requests.{NameData};

    ghost Value = { NameData };

    ghost view = { λ n. record { ports = n.ports; kinds = n.kinds; fields = n.fields } };
}

fn port_name(layout: &Layout, port: u32) -> &[u8]
    requires { port < length layout.now.ports }
    ensures { result.now ≡ port_name layout.now (port_at layout.now port) }
{
    layout.map_name(layout.port_map(port))
}

fn port_table(alloc: Global, layout: &Layout) -> Result<Table, AllocError>
    ensures { IfOk result (λ table. table ≡ map (port_name layout.now) layout.now.ports) }
{
    let mut table = Table::new(alloc);
    for port in 0..layout.ports() {
        table.push(port_name(layout, port).to_vec(alloc)?)?;
    }
    Ok(table)
}

#[tactic(auto, using(crate::proofs::NameLemmas::next_is))]
fn kind_table(alloc: Global, chip: &Chip) -> Result<Table, AllocError>
    ensures { IfOk result (λ table. table ≡ chip.now.kinds) }
{
    let mut table = Table::new(alloc);
    for kind in 0..chip.kinds() {
        table.push(chip.kind_name(kind).to_vec(alloc)?)?;
    }
    Ok(table)
}

// The path of a field's register, a dot and the field's name.
fn field_name(alloc: Global, chip: &Chip, field: u32) -> Result<Vec<u8>, AllocError>
    requires { field < length chip.now.fields }
    ensures { IfOk result (λ name. name.items ≡ field_path chip.now (field_of chip.now field)) }
{
    let reg = chip.field(field).reg;
    let mut name = Vec::new(alloc);
    push(&mut name, chip.path(Item::Reg(reg)))?;
    push(&mut name, b".")?;
    push(&mut name, chip.field_name(field))?;
    Ok(name)
}

fn field_table(alloc: Global, chip: &Chip) -> Result<Table, AllocError>
    ensures { IfOk result (λ table. table ≡ map (field_path chip.now) chip.now.fields) }
{
    let mut table = Table::new(alloc);
    for field in 0..chip.fields() {
        table.push(field_name(alloc, chip, field)?)?;
    }
    Ok(table)
}

impl Names {
    ghost use Rattle.std.specs.Prelude.{◌≡◌, [], IfOk};
    ghost use Rattle.rl_link.specs.Requests.{name_at, names_of};

    /// The names in a chip and its layout.
    pub fn build(alloc: Global, chip: &Chip, layout: &Layout) -> Result<Names, AllocError>
        ensures { IfOk result (λ names. names ≡ names_of chip.now layout.now) }
    {
        Ok(Names {
            ports: port_table(alloc, layout)?,
            kinds: kind_table(alloc, chip)?,
            fields: field_table(alloc, chip)?,
        })
    }

    /// No names.
    pub fn none(alloc: Global) -> Names
        ensures { result ≡ record { ports = []; kinds = []; fields = [] } }
    {
        Names {
            ports: Table::new(alloc),
            kinds: Table::new(alloc),
            fields: Table::new(alloc),
        }
    }

    /// The root map of a port.
    pub fn port(&self, port: u32) -> &[u8]
        ensures { result.now ≡ name_at self.now.ports port }
    {
        self.ports.get(port)
    }

    /// The name of a reset kind.
    pub fn kind(&self, kind: u32) -> &[u8]
        ensures { result.now ≡ name_at self.now.kinds kind }
    {
        self.kinds.get(kind)
    }

    /// The path of a field.
    pub fn field(&self, field: u32) -> &[u8]
        ensures { result.now ≡ name_at self.now.fields field }
    {
        self.fields.get(field)
    }
}
