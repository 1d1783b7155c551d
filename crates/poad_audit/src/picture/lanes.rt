//! The lanes of a picture.
ghost use Rattle.std.specs.Prelude.{◌≡◌, ◌++◌, map, IfOk, OnOk};
ghost use Rattle.std.specs.List.{flat_map};
ghost use Rattle.poad_audit.specs.PictureLanes as drawn;
ghost use Rattle.poad_audit.specs.declared.picture.lane.Lane.TheVariants.{One};

use crate::picture::band::Band;
use crate::picture::bar::Bar;
use crate::picture::lane::Lane;
use crate::picture::numbers::{connections_in, numbers_in};
use journal_explain::{CallName, Trail};
use poa_base::WantMemory;
use std::alloc::Global;

/// The names of the calls that have a bar.
pub(crate) fn names_in(
    alloc: Global,
    bars: &[Bar],
    trails: &[Trail],
) -> Result<Vec<CallName>, WantMemory>
    ensures { IfOk result (λ names. names.items ≡ drawn.names_in bars.now trails.now) }
{
    trails
        .iter()
        .filter(|trail| is_seen(bars, trail))
        .map(|trail| trail.name)
        .collect(alloc)
}

fn is_seen(bars: &[Bar], trail: &Trail) -> bool
    ensures { result ≡ drawn.is_seen bars.now trail.now }
{
    let arrival = trail.name.arrival;
    bars.iter().any(|bar| bar.call == arrival)
}

/// The lanes of these calls, of the workers that are at these bars, and of the activations.
pub(crate) fn lanes_in(
    alloc: Global,
    names: &[CallName],
    bars: &[Bar],
) -> Result<Vec<Lane>, WantMemory>
    ensures { IfOk result (λ lanes. lanes.items ≡ drawn.lanes_in names.now bars.now) }
{
    let mut lanes = Vec::new(alloc);
    let conns = connections_in(alloc, names)?;
    put_connections(&mut lanes, names, conns.as_slice())?;
    put_band(alloc, &mut lanes, Band::Workers, bars)?;
    put_band(alloc, &mut lanes, Band::Activations, bars)?;
    Ok(lanes)
}

/// Adds these connections, each with its calls.
fn put_connections(
    lanes: &mut Vec<Lane>,
    names: &[CallName],
    conns: &[u32],
) -> Result<(), WantMemory>
    ensures { OnOk result (lanes.new.items ≡ lanes.old.items ++ flat_map (drawn.connection_lanes names.now) conns.now) }
{
    for conn in conns {
        put_connection(lanes, names, *conn)?;
    }
    Ok(())
}

/// Adds a connection with its calls.
fn put_connection(lanes: &mut Vec<Lane>, names: &[CallName], conn: u32) -> Result<(), WantMemory>
    ensures { OnOk result (lanes.new.items ≡ lanes.old.items ++ drawn.connection_lanes names.now conn) }
{
    lanes.push(Lane::Connection(conn))?;
    put_calls(lanes, names, conn)
}

/// Adds the calls of a connection.
fn put_calls(lanes: &mut Vec<Lane>, names: &[CallName], conn: u32) -> Result<(), WantMemory>
    ensures { OnOk result (lanes.new.items ≡ lanes.old.items ++ flat_map (drawn.call_lane conn) names.now) }
{
    for name in names {
        put_call(lanes, *name, conn)?;
    }
    Ok(())
}

/// Adds a call, where it is of that connection.
fn put_call(lanes: &mut Vec<Lane>, name: CallName, conn: u32) -> Result<(), WantMemory>
    ensures { OnOk result (lanes.new.items ≡ lanes.old.items ++ drawn.call_lane conn name) }
{
    if name.conn == conn {
        lanes.push(Lane::Call(name))?;
    }
    Ok(())
}

/// Adds all workers, or all activations.
fn put_band(
    alloc: Global,
    lanes: &mut Vec<Lane>,
    band: Band,
    bars: &[Bar],
) -> Result<(), WantMemory>
    ensures { OnOk result (lanes.new.items ≡ lanes.old.items ++ drawn.band_lanes band bars.now) }
{
    lanes.push(Lane::Head(band))?;
    let numbers = numbers_in(alloc, band, bars)?;
    put_each(lanes, band, numbers.as_slice())
}

/// Adds these of them.
fn put_each(lanes: &mut Vec<Lane>, band: Band, numbers: &[u32]) -> Result<(), WantMemory>
    ensures { OnOk result (lanes.new.items ≡ lanes.old.items ++ map (One band) numbers.now) }
{
    for number in numbers {
        lanes.push(Lane::One(band, *number))?;
    }
    Ok(())
}
