//! The command of a line's words.
ghost use Rattle.std.specs.Prelude.{◌≡◌, ◌∷◌, ◌<◌, [], IfOk, map};
ghost use Rattle.text_words.specs.Token.{Token, texts};
ghost use Rattle.admin_line.specs.Command.{command_tokens, order_tokens};
ghost use Rattle.admin_line.specs.Fixed.{end_word, pace_word, shift_word, verb_word};
ghost use Rattle.admin_line.specs.Place.{Finds, at};
ghost use Rattle.admin_line.specs.Reading.{activate_id_of, adapter_of, bad_of, behind_verb, command_of, deactivate_of, destroy_of, end_of, forward_of, last_pace_of, manager_of, order_behind, pace_of, served_of, shift_of, verb_of};

use crate::fixed::{End, Pace, Shift, Verb};
use crate::place::{
    Wrong, end_at, host_at, identity_at, keyword_at, name_at, number_at, path_at, port_at,
};
use poa_base::{Command, Endpoint, Name, Order, Path};
use std::alloc::Global;

/// Where the words of a command stand.
#[derive(Clone, Copy, Drop)]
pub enum Source {
    /// On an administrator's link: object ids are `t:` and a name, or `h:` and hexadecimal in either case.
    Link,
    /// In a journal, as they were printed: object ids are `h:` and lower-case hexadecimal, and `bad K` stands for a line
    /// that was no command.
    Journal,
}

/// The command of the words of a line.
pub fn read_words(alloc: Global, source: Source, words: &[&[u8]]) -> Result<Command, Wrong>
    ensures value { Finds (λ command. command) result (command_of source (map (λ w. w.now) words.now)) }
    ensures text { IfOk result (λ command. source ≡ Source.Journal → map (λ w. w.now) words.now ≡ texts (command_tokens command)) }
{
    let (verb, rest) = verb_at(1, words)?;
    behind(alloc, source, verb, rest)
}

fn verb_at<'a>(k: u32, words: &'a [&'a [u8]]) -> Result<(Verb, &'a [&'a [u8]]), Wrong>
    ensures value { Finds (λ x. (x.0, map (λ w. w.now) x.1.now)) result (at k verb_of (map (λ w. w.now) words.now)) }
    ensures text { IfOk result (λ x. map (λ w. w.now) words.now ≡ verb_word x.0 ∷ map (λ w. w.now) x.1.now) }
{
    let all = [
        Verb::Manager,
        Verb::Create,
        Verb::Destroy,
        Verb::Activate,
        Verb::ActivateId,
        Verb::Deactivate,
        Verb::Reference,
        Verb::Preset,
        Verb::Forward,
        Verb::Unforward,
        Verb::Shutdown,
        Verb::Bad,
    ];
    keyword_at(k, &all, words)
}

fn shift_at<'a>(k: u32, words: &'a [&'a [u8]]) -> Result<(Shift, &'a [&'a [u8]]), Wrong>
    ensures value { Finds (λ x. (x.0, map (λ w. w.now) x.1.now)) result (at k shift_of (map (λ w. w.now) words.now)) }
    ensures text { IfOk result (λ x. map (λ w. w.now) words.now ≡ shift_word x.0 ∷ map (λ w. w.now) x.1.now) }
{
    keyword_at(
        k,
        &[
            Shift::Activate,
            Shift::Hold,
            Shift::Discard,
            Shift::Deactivate,
        ],
        words,
    )
}

fn pace_at<'a>(k: u32, words: &'a [&'a [u8]]) -> Result<(Pace, &'a [&'a [u8]]), Wrong>
    ensures value { Finds (λ x. (x.0, map (λ w. w.now) x.1.now)) result (at k pace_of (map (λ w. w.now) words.now)) }
    ensures text { IfOk result (λ x. map (λ w. w.now) words.now ≡ pace_word x.0 ∷ map (λ w. w.now) x.1.now) }
{
    keyword_at(k, &[Pace::Now, Pace::Wait], words)
}

fn ending_at<'a>(k: u32, words: &'a [&'a [u8]]) -> Result<(End, &'a [&'a [u8]]), Wrong>
    ensures value { Finds (λ x. (x.0, map (λ w. w.now) x.1.now)) result (at k end_of (map (λ w. w.now) words.now)) }
    ensures text { IfOk result (λ x. map (λ w. w.now) words.now ≡ end_word x.0 ∷ map (λ w. w.now) x.1.now) }
{
    keyword_at(k, &[End::Keep, End::Etherealize], words)
}

// What stands behind the first word.
fn behind(alloc: Global, source: Source, verb: Verb, words: &[&[u8]]) -> Result<Command, Wrong>
    ensures value { Finds (λ command. command) result (behind_verb source verb (map (λ w. w.now) words.now)) }
    ensures text { IfOk result
        (λ command. source ≡ Source.Journal → verb_word verb ∷ map (λ w. w.now) words.now ≡ texts (command_tokens command)) }
{
    match verb {
        Verb::Manager => manager(alloc, words),
        Verb::Create => {
            let path = adapter(alloc, words)?;
            Ok(Command::Create { path })
        }
        Verb::Destroy => destroy(alloc, words),
        Verb::Activate => {
            let (path, servant) = served(alloc, words)?;
            Ok(Command::Activate { path, servant })
        }
        Verb::ActivateId => activate_id(alloc, source, words),
        Verb::Deactivate => deactivate(alloc, source, words),
        Verb::Reference => {
            let (path, servant) = served(alloc, words)?;
            Ok(Command::Reference { path, servant })
        }
        Verb::Preset => {
            let (path, servant) = served(alloc, words)?;
            Ok(Command::Preset { path, servant })
        }
        Verb::Forward => forward(alloc, words),
        Verb::Unforward => {
            let path = adapter(alloc, words)?;
            Ok(Command::Unforward { path })
        }
        Verb::Shutdown => {
            end_at(2, words)?;
            Ok(Command::Shutdown)
        }
        Verb::Bad => bad(source, words),
    }
}

fn adapter(alloc: Global, words: &[&[u8]]) -> Result<Path, Wrong>
    ensures value { Finds (λ path. path) result (adapter_of (map (λ w. w.now) words.now)) }
    ensures text { IfOk result (λ path. map (λ w. w.now) words.now ≡ texts (Token.path path ∷ [])) }
{
    let (path, rest) = path_at(alloc, 2, words)?;
    end_at(3, rest)?;
    Ok(path)
}

fn served(alloc: Global, words: &[&[u8]]) -> Result<(Path, Name), Wrong>
    ensures value { Finds (λ x. x) result (served_of (map (λ w. w.now) words.now)) }
    ensures text { IfOk result (λ x. map (λ w. w.now) words.now ≡ texts (Token.path x.0 ∷ Token.named x.1 ∷ [])) }
{
    let (path, rest) = path_at(alloc, 2, words)?;
    let (servant, rest) = name_at(alloc, 3, rest)?;
    end_at(4, rest)?;
    Ok((path, servant))
}

fn manager(alloc: Global, words: &[&[u8]]) -> Result<Command, Wrong>
    ensures value { Finds (λ command. command) result (manager_of (map (λ w. w.now) words.now)) }
    ensures text { IfOk result (λ command. verb_word Verb.Manager ∷ map (λ w. w.now) words.now ≡ texts (command_tokens command)) }
{
    let (manager, rest) = name_at(alloc, 2, words)?;
    let (shift, rest) = shift_at(3, rest)?;
    let order = order(shift, rest)?;
    Ok(Command::Manager { manager, order })
}

fn order(shift: Shift, words: &[&[u8]]) -> Result<Order, Wrong>
    ensures value { Finds (λ order. order) result (order_behind shift (map (λ w. w.now) words.now)) }
    ensures text { IfOk result (λ order. shift_word shift ∷ map (λ w. w.now) words.now ≡ texts (order_tokens order)) }
{
    match shift {
        Shift::Activate => {
            end_at(4, words)?;
            Ok(Order::Activate)
        }
        Shift::Hold => {
            let pace = last_pace(4, words)?;
            Ok(Order::Hold { wait: pace.waits() })
        }
        Shift::Discard => {
            let pace = last_pace(4, words)?;
            Ok(Order::Discard { wait: pace.waits() })
        }
        Shift::Deactivate => {
            let (end, rest) = ending_at(4, words)?;
            let pace = last_pace(5, rest)?;
            Ok(Order::Deactivate {
                etherealize: end.etherealizes(),
                wait: pace.waits(),
            })
        }
    }
}

fn destroy(alloc: Global, words: &[&[u8]]) -> Result<Command, Wrong>
    ensures value { Finds (λ command. command) result (destroy_of (map (λ w. w.now) words.now)) }
    ensures text { IfOk result (λ command. verb_word Verb.Destroy ∷ map (λ w. w.now) words.now ≡ texts (command_tokens command)) }
{
    let (path, rest) = path_at(alloc, 2, words)?;
    let (end, rest) = ending_at(3, rest)?;
    let pace = last_pace(4, rest)?;
    Ok(Command::Destroy {
        path,
        etherealize: end.etherealizes(),
        wait: pace.waits(),
    })
}

// The last word, at k.
fn last_pace(k: u32, words: &[&[u8]]) -> Result<Pace, Wrong>
    requires { k < 9 }
    ensures value { Finds (λ pace. pace) result (last_pace_of k (map (λ w. w.now) words.now)) }
    ensures text { IfOk result (λ pace. map (λ w. w.now) words.now ≡ pace_word pace ∷ []) }
{
    let (pace, rest) = pace_at(k, words)?;
    end_at(k + 1, rest)?;
    Ok(pace)
}

fn activate_id(alloc: Global, source: Source, words: &[&[u8]]) -> Result<Command, Wrong>
    ensures value { Finds (λ command. command) result (activate_id_of source (map (λ w. w.now) words.now)) }
    ensures text { IfOk result
        (λ command. source ≡ Source.Journal → verb_word Verb.ActivateId ∷ map (λ w. w.now) words.now ≡ texts (command_tokens command)) }
{
    let (path, rest) = path_at(alloc, 2, words)?;
    let (oid, rest) = identity_at(alloc, 3, source, rest)?;
    let (servant, rest) = name_at(alloc, 4, rest)?;
    end_at(5, rest)?;
    Ok(Command::ActivateId { path, oid, servant })
}

fn deactivate(alloc: Global, source: Source, words: &[&[u8]]) -> Result<Command, Wrong>
    ensures value { Finds (λ command. command) result (deactivate_of source (map (λ w. w.now) words.now)) }
    ensures text { IfOk result
        (λ command. source ≡ Source.Journal → verb_word Verb.Deactivate ∷ map (λ w. w.now) words.now ≡ texts (command_tokens command)) }
{
    let (path, rest) = path_at(alloc, 2, words)?;
    let (oid, rest) = identity_at(alloc, 3, source, rest)?;
    end_at(4, rest)?;
    Ok(Command::Deactivate { path, oid })
}

fn forward(alloc: Global, words: &[&[u8]]) -> Result<Command, Wrong>
    ensures value { Finds (λ command. command) result (forward_of (map (λ w. w.now) words.now)) }
    ensures text { IfOk result (λ command. verb_word Verb.Forward ∷ map (λ w. w.now) words.now ≡ texts (command_tokens command)) }
{
    let (path, rest) = path_at(alloc, 2, words)?;
    let (host, rest) = host_at(alloc, 3, rest)?;
    let (port, rest) = port_at(4, rest)?;
    end_at(5, rest)?;
    Ok(Command::Forward {
        path,
        endpoint: Endpoint { host, port },
    })
}

// A line that was no command: its first wrong word.
fn bad(source: Source, words: &[&[u8]]) -> Result<Command, Wrong>
    ensures value { Finds (λ command. command) result (bad_of source (map (λ w. w.now) words.now)) }
    ensures text { IfOk result (λ command. verb_word Verb.Bad ∷ map (λ w. w.now) words.now ≡ texts (command_tokens command)) }
{
    match source {
        Source::Link => Err(Wrong::Word(1)),
        Source::Journal => {
            let (word, rest) = number_at(2, words)?;
            end_at(3, rest)?;
            Ok(Command::Bad { word })
        }
    }
}
