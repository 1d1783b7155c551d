//! The connections that the lines so far speak of.
ghost use Rattle.std.specs.Prelude.{◌≡◌, ◌++◌, ◌∷◌, [], OnOk};
ghost use Rattle.replay_script.specs.Connections.{entered, entered_by, entered_by_line, place_in, role_of as the_role_of};
ghost use Rattle.replay_script.specs.Traffic.{allowed_by, names as names_of, noted, noted_by, traffic_of};

use crate::role::{Role, entering, role_of};
use crate::traffic::Traffic;
use poa_base::{Items, Name, ScriptLine, WantMemory};
use std::alloc::Global;

/// A connection and the lines that it has had.
#[derive(Drop)]
pub(crate) struct Connection {
    pub(crate) name: Name,
    pub(crate) traffic: Traffic,
}

/// The connections that lines speak of, and the names of those that they entered, in the order of their first lines.
#[derive(Drop)]
pub(crate) struct Connections {
    pub(crate) rows: Vec<Connection>,
    pub(crate) names: Vec<Name>,
}

impl Connections {
    pub(crate) fn new(alloc: Global) -> Self
        ensures rows { result.rows.items ≡ [] }
        ensures names { result.names.items ≡ [] }
    {
        Connections {
            rows: Vec::new(alloc),
            names: Vec::new(alloc),
        }
    }

    /// The place of a name; how many connections there are, where it isn't among them.
    pub(crate) fn place(&self, name: &Name) -> usize
        ensures { result ≡ place_in name.now self.now.names.items }
    {
        place(self.names.as_slice(), name)
    }

    fn traffic(&self, name: &Name) -> Traffic
        ensures { result ≡ traffic_of name.now self.now.rows.items }
    {
        traffic(self.rows.as_slice(), name)
    }

    /// Whether a line may stand behind those so far.
    pub(crate) fn allow(&self, line: &ScriptLine) -> bool
        ensures { result ≡ allowed_by self.now.rows.items (the_role_of line.now) }
    {
        match role_of(line) {
            None => true,
            Some((name, role)) => self.traffic(name).allows(role),
        }
    }

    /// Takes a line in, whose connection is entered where this is its first.
    pub(crate) fn enter(&mut self, line: &ScriptLine) -> Result<(), WantMemory>
        ensures rows { OnOk result
            (self.new.rows.items ≡ noted_by (the_role_of line.now) self.old.rows.items) }
        ensures names { OnOk result (self.new.names.items
            ≡ entered_by (entered_by_line line.now) self.old.names.items) }
    {
        note_line(&mut self.rows, line)?;
        enter_line(&mut self.names, line)
    }

    /// The names of the connections.
    pub(crate) fn into_names(self) -> Items<Name>
        ensures { result ≡ self.names.items }
    {
        Items::from_vec(self.names)
    }
}

fn place(names: &[Name], name: &Name) -> usize
    ensures { result ≡ place_in name.now names.now }
{
    for (i, other) in names.iter().enumerate() {
        if other.as_slice() == name.as_slice() {
            return i;
        }
    }
    names.len()
}

fn enter_line(names: &mut Vec<Name>, line: &ScriptLine) -> Result<(), WantMemory>
    ensures { OnOk result
        (names.new.items ≡ entered_by (entered_by_line line.now) names.old.items) }
{
    match entering(line) {
        None => Ok(()),
        Some(name) => enter(names, name),
    }
}

#[tactic(auto, using(crate::proofs::Rows::entered_there, crate::proofs::Rows::entered_last))]
fn enter(names: &mut Vec<Name>, name: &Name) -> Result<(), WantMemory>
    ensures { OnOk result (names.new.items ≡ entered name.now names.old.items) }
{
    if place(names.as_slice(), name) < names.len() {
        return Ok(());
    }
    names.push(name.clone()?)?;
    Ok(())
}

fn row_of(rows: &[Connection], name: &Name) -> usize
    ensures { result ≡ place_in name.now (names_of rows.now) }
{
    for (i, row) in rows.iter().enumerate() {
        if row.name.as_slice() == name.as_slice() {
            return i;
        }
    }
    rows.len()
}

fn traffic(rows: &[Connection], name: &Name) -> Traffic
    ensures { result ≡ traffic_of name.now rows.now }
{
    for row in rows {
        if row.name.as_slice() == name.as_slice() {
            return row.traffic;
        }
    }
    Traffic::none()
}

fn note_line(rows: &mut Vec<Connection>, line: &ScriptLine) -> Result<(), WantMemory>
    ensures { OnOk result (rows.new.items ≡ noted_by (the_role_of line.now) rows.old.items) }
{
    match role_of(line) {
        None => Ok(()),
        Some((name, role)) => note(rows, name, role),
    }
}

fn note(rows: &mut Vec<Connection>, name: &Name, role: Role) -> Result<(), WantMemory>
    ensures { OnOk result (rows.new.items ≡ noted name.now role rows.old.items) }
{
    let place = row_of(rows.as_slice(), name);
    let Some(row) = rows.get_mut(place) else {
        add(rows, name, Traffic::none().with(role))?;
        return Ok(());
    };
    row.traffic = row.traffic.with(role);
    Ok(())
}

fn add(rows: &mut Vec<Connection>, name: &Name, traffic: Traffic) -> Result<(), WantMemory>
    ensures { OnOk result
        (rows.new.items ≡ rows.old.items ++ record { name = name.now; traffic = traffic } ∷ []) }
{
    let name = name.clone()?;
    rows.push(Connection { name, traffic })?;
    Ok(())
}
