//! The bytes of a command.
ghost use Rattle.std.specs.Prelude.{◌≡◌, ◌∷◌, ◌++◌, [], IfOk, OnOk};
ghost use Rattle.text_words.specs.Token.{Token, spelled, tails};
ghost use Rattle.admin_line.specs.Command.{command_tokens, order_tokens};
ghost use Rattle.admin_line.specs.Fixed.{verb_word};

use crate::fixed::{End, Pace, Shift, Verb};
use poa_base::{Command, Endpoint, Name, Oid, Order, Path, WantMemory};
use std::alloc::Global;
use text_words::{Worded, put_identity, put_number, put_path, put_word};

pub(crate) fn command_bytes(alloc: Global, command: &Command) -> Result<Vec<u8>, WantMemory>
    ensures { IfOk result (λ out. out.items ≡ spelled (command_tokens command.now)) }
{
    match command {
        Command::Manager { manager, order } => manager_bytes(alloc, manager, *order),
        Command::Create { path } => adapter_bytes(alloc, Verb::Create, path),
        Command::Destroy {
            path,
            etherealize,
            wait,
        } => destroy_bytes(alloc, path, *etherealize, *wait),
        Command::Activate { path, servant } => served_bytes(alloc, Verb::Activate, path, servant),
        Command::ActivateId { path, oid, servant } => activate_id_bytes(alloc, path, oid, servant),
        Command::Deactivate { path, oid } => deactivate_bytes(alloc, path, oid),
        Command::Reference { path, servant } => served_bytes(alloc, Verb::Reference, path, servant),
        Command::Preset { path, servant } => served_bytes(alloc, Verb::Preset, path, servant),
        Command::Forward { path, endpoint } => forward_bytes(alloc, path, endpoint),
        Command::Unforward { path } => adapter_bytes(alloc, Verb::Unforward, path),
        Command::Shutdown => verb_bytes(alloc, Verb::Shutdown),
        Command::Bad { word } => bad_bytes(alloc, *word),
    }
}

fn verb_bytes(alloc: Global, verb: Verb) -> Result<Vec<u8>, WantMemory>
    ensures { IfOk result (λ out. out.items ≡ verb_word verb) }
{
    Vec::from_slice(alloc, verb.word())
}

fn adapter_bytes(alloc: Global, verb: Verb, path: &Path) -> Result<Vec<u8>, WantMemory>
    ensures { IfOk result (λ out. out.items ≡ spelled (Token.keyword (verb_word verb) ∷ Token.path path.now ∷ [])) }
{
    let mut out = verb_bytes(alloc, verb)?;
    put_path(&mut out, path)?;
    Ok(out)
}

fn served_bytes(
    alloc: Global,
    verb: Verb,
    path: &Path,
    servant: &Name,
) -> Result<Vec<u8>, WantMemory>
    ensures { IfOk result
        (λ out. out.items ≡ spelled (Token.keyword (verb_word verb) ∷ Token.path path.now ∷ Token.named servant.now ∷ [])) }
{
    let mut out = adapter_bytes(alloc, verb, path)?;
    put_word(&mut out, servant.as_slice())?;
    Ok(out)
}

fn manager_bytes(alloc: Global, manager: &Name, order: Order) -> Result<Vec<u8>, WantMemory>
    ensures { IfOk result
        (λ out. out.items ≡ spelled (Token.keyword (verb_word Verb.Manager) ∷ Token.named manager.now ∷ order_tokens order)) }
{
    let mut out = verb_bytes(alloc, Verb::Manager)?;
    put_word(&mut out, manager.as_slice())?;
    put_order(&mut out, order)?;
    Ok(out)
}

fn put_order(out: &mut Vec<u8>, order: Order) -> Result<(), WantMemory>
    ensures { OnOk result (out.new.items ≡ out.old.items ++ tails (order_tokens order)) }
{
    match order {
        Order::Activate => put_word(out, Shift::Activate.word()),
        Order::Hold { wait } => {
            put_word(out, Shift::Hold.word())?;
            put_word(out, Pace::of(wait).word())
        }
        Order::Discard { wait } => {
            put_word(out, Shift::Discard.word())?;
            put_word(out, Pace::of(wait).word())
        }
        Order::Deactivate { etherealize, wait } => {
            put_word(out, Shift::Deactivate.word())?;
            put_word(out, End::of(etherealize).word())?;
            put_word(out, Pace::of(wait).word())
        }
    }
}

fn destroy_bytes(
    alloc: Global,
    path: &Path,
    etherealize: bool,
    wait: bool,
) -> Result<Vec<u8>, WantMemory>
    ensures { IfOk result (λ out. out.items ≡ spelled (command_tokens (Command.Destroy path.now etherealize wait))) }
{
    let mut out = adapter_bytes(alloc, Verb::Destroy, path)?;
    put_word(&mut out, End::of(etherealize).word())?;
    put_word(&mut out, Pace::of(wait).word())?;
    Ok(out)
}

fn activate_id_bytes(
    alloc: Global,
    path: &Path,
    oid: &Oid,
    servant: &Name,
) -> Result<Vec<u8>, WantMemory>
    ensures { IfOk result (λ out. out.items ≡ spelled (command_tokens (Command.ActivateId path.now oid.now servant.now))) }
{
    let mut out = adapter_bytes(alloc, Verb::ActivateId, path)?;
    put_identity(&mut out, oid)?;
    put_word(&mut out, servant.as_slice())?;
    Ok(out)
}

fn deactivate_bytes(alloc: Global, path: &Path, oid: &Oid) -> Result<Vec<u8>, WantMemory>
    ensures { IfOk result (λ out. out.items ≡ spelled (command_tokens (Command.Deactivate path.now oid.now))) }
{
    let mut out = adapter_bytes(alloc, Verb::Deactivate, path)?;
    put_identity(&mut out, oid)?;
    Ok(out)
}

fn forward_bytes(alloc: Global, path: &Path, endpoint: &Endpoint) -> Result<Vec<u8>, WantMemory>
    ensures { IfOk result (λ out. out.items ≡ spelled (command_tokens (Command.Forward path.now endpoint.now))) }
{
    let mut out = adapter_bytes(alloc, Verb::Forward, path)?;
    put_word(&mut out, endpoint.host.as_slice())?;
    put_number(&mut out, u64::from(endpoint.port))?;
    Ok(out)
}

fn bad_bytes(alloc: Global, word: u32) -> Result<Vec<u8>, WantMemory>
    ensures { IfOk result (λ out. out.items ≡ spelled (command_tokens (Command.Bad word))) }
{
    let mut out = verb_bytes(alloc, Verb::Bad)?;
    put_number(&mut out, u64::from(word))?;
    Ok(out)
}
