//! What is printed of the activation that serves a call: its servant, and with which entry it began.
ghost use Rattle.std.specs.Prelude.{◌≡◌, ◌++◌, IfOk, OnOk, option_copied};
ghost use Rattle.poad_audit.specs.Servants as printed;

use crate::verdict_text::{fixed, named};
use journal_explain::{Servant, Service};
use poa_base::{Bytes, WantMemory};
use std::alloc::Global;

/// Adds what is told of it behind its number.
pub(crate) fn put_service(
    alloc: Global,
    out: &mut Vec<u8>,
    service: Option<&Service>,
) -> Result<(), WantMemory>
    ensures { OnOk result (out.new.items
        ≡ out.old.items ++ printed.service_text (option_copied service.entry)) }
{
    match service {
        Some(service) => put_told(alloc, out, service),
        None => Ok(()),
    }
}

fn put_told(alloc: Global, out: &mut Vec<u8>, service: &Service) -> Result<(), WantMemory>
    ensures { OnOk result (out.new.items ≡ out.old.items ++ printed.told_text service.now) }
{
    let since = since_text(alloc, service.begun)?;
    put_servant(alloc, out, service.servant.as_ref())?;
    out.extend_from_slice(since.as_slice())
}

fn put_servant(
    alloc: Global,
    out: &mut Vec<u8>,
    servant: Option<&Servant>,
) -> Result<(), WantMemory>
    ensures { OnOk result (out.new.items
        ≡ out.old.items ++ printed.of_servant (option_copied servant.entry)) }
{
    let Some(servant) = servant else {
        return Ok(());
    };
    let text = servant_text(alloc, servant)?;
    out.extend_from_slice(b" of ")?;
    out.extend_from_slice(text.as_slice())
}

fn since_text(alloc: Global, begun: Option<u64>) -> Result<Bytes, WantMemory>
    ensures { IfOk result (λ text. text ≡ printed.since_text begun) }
{
    match begun {
        Some(entry) => {
            let text = format!(in alloc; ", begun with entry {entry}")?;
            Ok(Bytes::from_vec(text.into_bytes()))
        }
        None => fixed(alloc, ", one of the configuration's"),
    }
}

fn servant_text(alloc: Global, servant: &Servant) -> Result<Bytes, WantMemory>
    ensures { IfOk result (λ text. text ≡ printed.servant_text servant.now) }
{
    match servant {
        Servant::Named(name) => named(alloc, "the servant ", name),
        Servant::Fresh(_) => fixed(alloc, "a fresh servant"),
    }
}

/// What the servant activator brought.
pub(crate) fn brought_text(alloc: Global, servant: Option<&Servant>) -> Result<Bytes, WantMemory>
    ensures { IfOk result (λ text. text ≡ printed.brought_text (option_copied servant.entry)) }
{
    let Some(servant) = servant else {
        return fixed(alloc, "the servant activator brought none");
    };
    let text = servant_text(alloc, servant)?;
    let mut out = Vec::from_slice(alloc, b"the servant activator brought ")?;
    out.extend_from_slice(text.as_slice())?;
    Ok(Bytes::from_vec(out))
}
