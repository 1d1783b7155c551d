//! The six lines.
ghost use Rattle.std.specs.Prelude.{◌≡◌, ◌++◌, IfOk, OnOk};
ghost use Rattle.poa_history.specs.Legal.{IsLegal};
ghost use Rattle.poa_history.specs.Lifetime.{HasLifetime};
ghost use Rattle.poad_files.specs.Counts.{count_line};
ghost use Rattle.poad_load.specs.Counts.{lines_of, sum_line};
ghost use Rattle.poad_load.specs.Played.{Tells};

use crate::sum::{Sum, stored_sum};
use crate::tally::{Tally, tally_of};
use poa_base::WantMemory;
use poa_core::Core;
use std::alloc::Global;

/// How many calls came, entries were made, incarnations brought a servant and servants were etherealized, how many bytes
/// the messages have, and the sum of the stored registers.
pub(crate) fn load_lines(
    alloc: Global,
    calls: u32,
    core: &Core,
    messages: &[u8],
) -> Result<Vec<u8>, WantMemory>
    ensures tells { IfOk result (λ text. Tells calls core.now messages.now text.items) }
    ensures legal { IsLegal core.now.config core.now.run core.now.limit core.now.history }
    ensures lifetime { HasLifetime core.now.config core.now.run core.now.history }
{
    let counted = tally_of(core);
    let sum = stored_sum(core.store())?;
    let text = six_lines(alloc, calls, counted, messages.len(), sum)?;
    Ok(text)
}

// These counts as lines.
fn six_lines(
    alloc: Global,
    calls: u32,
    counted: Tally,
    bytes: usize,
    sum: Sum,
) -> Result<Vec<u8>, WantMemory>
    ensures { IfOk result
        (λ text. text.items ≡ lines_of calls counted.entries counted.incarnations
        counted.etherealized bytes sum.value) }
{
    let mut out = Vec::new(alloc);
    put_count(&mut out, "calls", calls as usize)?;
    put_count(&mut out, "entries", counted.entries)?;
    put_count(&mut out, "incarnations", counted.incarnations)?;
    put_count(&mut out, "etherealized", counted.etherealized)?;
    put_count(&mut out, "reply bytes", bytes)?;
    put_sum(&mut out, sum)?;
    Ok(out)
}

// Adds a line.
fn put_count(out: &mut Vec<u8>, name: &str, count: usize) -> Result<(), WantMemory>
    ensures { OnOk result (out.new.items ≡ out.old.items ++ count_line name.now count) }
{
    let line = format!(in *out.allocator(); "{name} {count}\n")?;
    out.extend_from_slice(line.as_bytes())
}

// Adds the line of the sum.
fn put_sum(out: &mut Vec<u8>, sum: Sum) -> Result<(), WantMemory>
    ensures { OnOk result (out.new.items ≡ out.old.items ++ sum_line sum.value) }
{
    let value = sum.value;
    let line = format!(in *out.allocator(); "stored sum {value}\n")?;
    out.extend_from_slice(line.as_bytes())
}
