//! How many there are of each kind.
ghost use Rattle.std.specs.Prelude.{◌≡◌, ◌++◌, ◌≤◌, ◌<◌, ◌^◌, length, IfOk, OnOk};
ghost use Rattle.poa_policy.specs.Kept.{KeepsRules};
ghost use Rattle.poad_files.specs.Counts.{count_line, counts_text, below_root as the_below_root};

use poa_base::{AdapterConf, Bytes, Config, WantMemory};
use std::alloc::Global;

/// Five lines: `managers N`, `servants N`, `adapters N`, `objects N` and `forwards N`. The manager `root` and
/// the root adapter count too.
pub fn counts(alloc: Global, config: &Config) -> Result<Bytes, WantMemory>
    requires { KeepsRules config.now }
    ensures { IfOk result (λ text. text ≡ counts_text config.now) }
{
    let mut out = Vec::new(alloc);
    put_count(&mut out, "managers", config.managers.len() + 1)?;
    put_count(&mut out, "servants", config.servants.len())?;
    let adapters = below_root(config.adapters.as_slice());
    put_count(&mut out, "adapters", adapters + 1)?;
    put_count(&mut out, "objects", config.objects.len())?;
    put_count(&mut out, "forwards", config.forwards.len())?;
    Ok(Bytes::from_vec(out))
}

// Adds a line.
fn put_count(out: &mut Vec<u8>, name: &str, count: usize) -> Result<(), WantMemory>
    ensures { OnOk result (out.new.items ≡ out.old.items ++ count_line name.now count) }
{
    let line = format!(in *out.allocator(); "{name} {count}\n")?;
    out.extend_from_slice(line.as_bytes())
}

// How many entries are below the root.
fn below_root(adapters: &[AdapterConf]) -> usize
    ensures count { result ≡ the_below_root adapters.now }
    ensures most { result ≤ length adapters.now }
{
    let mut count = 0;
    for adapter in adapters {
        if !adapter.path.as_slice().is_empty() {
            count += 1;
        }
    }
    count
}
