ghost use Rattle.std.specs.Prelude.{◌≡◌, ◌∷◌, ◌++◌, ◌^◌, [], IfOk, OnOk, codes, map};
ghost use Rattle.text_words.specs.WordGives.{WordGives};
ghost use Rattle.text_words.specs.Token.{Token, spell, tails, texts};
ghost use Rattle.admin_line.specs.Command.{command_tokens};
ghost use Rattle.admin_line.specs.Reading.{command_of};
ghost use Rattle.admin_line.specs.declared.Source.TheVariants.{Journal};
ghost use Rattle.poa_journal.specs.ValueWords.{call_word, order_for, order_word};
ghost use Rattle.poa_journal.specs.Call.{accepted, arguments_of, body_of, call_behind, call_kind_of, call_of, call_tokens, line_of, locate_of, order_of, request_of, start_of, target_of, target_token};

use crate::value_words::{ByteOrder, CallKind, Mark};
use admin_line::{Source, Wrong, command_text, read_words};
use poa_base::{Body, Bytes, Call, Command, Head, WantMemory};
use std::alloc::Global;
use text_words::{
    WordFault, Worded, find_word, number8, number32, number64, octets, put_number, put_octets,
    put_word,
};

fn call_kind(word: &[u8]) -> Result<CallKind, WordFault>
    ensures value { WordGives result (call_kind_of word.now) }
    ensures text { IfOk result (λ k. word.now ≡ call_word k) }
{
    find_word(&[CallKind::Request, CallKind::Locate, CallKind::Line], word).ok_or(
        WordFault::OutOfForm,
    )
}

fn byte_order(word: &[u8]) -> Result<ByteOrder, WordFault>
    ensures value { WordGives result (order_of word.now) }
    ensures text { IfOk result (λ k. word.now ≡ order_word k) }
{
    find_word(&[ByteOrder::Big, ByteOrder::Little], word).ok_or(WordFault::OutOfForm)
}

/// The call of its words.
pub fn read_call(alloc: Global, words: &[&[u8]]) -> Result<Call, WordFault>
    ensures value { WordGives result (call_of (map (λ w. w.now) words.now)) }
    ensures text { IfOk result (λ call. (map (λ w. w.now) words.now) ≡ texts (call_tokens call)) }
{
    let [word, rest @ ..] = words else {
        return Err(WordFault::OutOfForm);
    };
    let kind = call_kind(word)?;
    behind(alloc, kind, rest)
}

fn behind(alloc: Global, kind: CallKind, words: &[&[u8]]) -> Result<Call, WordFault>
    ensures value { WordGives result (call_behind kind (map (λ w. w.now) words.now)) }
    ensures text { IfOk result (λ call. call_word kind ∷ (map (λ w. w.now) words.now) ≡ texts (call_tokens call)) }
{
    match kind {
        CallKind::Request => request(alloc, words),
        CallKind::Locate => locate(alloc, words),
        CallKind::Line => line(alloc, words),
    }
}

fn request(alloc: Global, words: &[&[u8]]) -> Result<Call, WordFault>
    ensures value { WordGives result (request_of (map (λ w. w.now) words.now)) }
    ensures text { IfOk result (λ call. call_word CallKind.Request ∷ (map (λ w. w.now) words.now) ≡ texts (call_tokens call)) }
{
    let [id, minor, order, flags, rest @ ..] = words else {
        return Err(WordFault::OutOfForm);
    };
    let (id, minor, little) = start(id, minor, order)?;
    let flags = number8(flags)?;
    let (target, operation, body) = arguments(alloc, little, rest)?;
    Ok(Call::Request {
        head: Head {
            id,
            minor,
            little,
            flags,
            locate: false,
        },
        target,
        operation,
        body,
    })
}

fn locate(alloc: Global, words: &[&[u8]]) -> Result<Call, WordFault>
    ensures value { WordGives result (locate_of (map (λ w. w.now) words.now)) }
    ensures text { IfOk result (λ call. call_word CallKind.Locate ∷ (map (λ w. w.now) words.now) ≡ texts (call_tokens call)) }
{
    let [id, minor, order, key] = words else {
        return Err(WordFault::OutOfForm);
    };
    let (id, minor, little) = start(id, minor, order)?;
    let target = target(alloc, key)?;
    Ok(Call::Locate {
        head: Head {
            id,
            minor,
            little,
            flags: 0,
            locate: true,
        },
        target,
    })
}

// The id, the minor version and the byte order of a message.
fn start(id: &[u8], minor: &[u8], order: &[u8]) -> Result<(u32, u8, bool), WordFault>
    ensures value { WordGives result (start_of id.now minor.now order.now) }
    ensures id_text { IfOk result (λ s. id.now ≡ spell (Token.number (2 ^ 32) s.0)) }
    ensures minor_text { IfOk result (λ s. minor.now ≡ spell (Token.number 256 s.1)) }
    ensures order_text { IfOk result (λ s. order.now ≡ order_word (order_for s.2)) }
{
    let id = number32(id)?;
    let minor = number8(minor)?;
    let order = byte_order(order)?;
    Ok((id, minor, order.is_little()))
}

// The target, the operation and its arguments.
fn arguments(
    alloc: Global,
    little: bool,
    words: &[&[u8]],
) -> Result<(Option<Bytes>, Bytes, Body), WordFault>
    ensures value { WordGives result (arguments_of little (map (λ w. w.now) words.now)) }
    ensures text { IfOk result
        (λ x. map (λ w. w.now) words.now ≡ texts
        (target_token x.0 ∷ Token.octets (codes "h:") x.1 ∷ Token.number (2 ^ 64) x.2.base ∷ Token.octets (codes "h:") x.2.bytes ∷ [])) }
{
    let [key, name, base, bytes] = words else {
        return Err(WordFault::OutOfForm);
    };
    let target = target(alloc, key)?;
    let operation = octets(alloc, b"h:", name)?;
    let body = body(alloc, little, base, bytes)?;
    Ok((target, operation, body))
}

fn body(alloc: Global, little: bool, base: &[u8], bytes: &[u8]) -> Result<Body, WordFault>
    ensures value { WordGives result (body_of little base.now bytes.now) }
    ensures base_text { IfOk result (λ body. base.now ≡ spell (Token.number (2 ^ 64) body.base)) }
    ensures bytes_text { IfOk result (λ body. bytes.now ≡ spell (Token.octets (codes "h:") body.bytes)) }
{
    let base = number64(base)?;
    let bytes = octets(alloc, b"h:", bytes)?;
    Ok(Body {
        bytes,
        little,
        base,
    })
}

// The key of a target, none where the message gave none.
fn target(alloc: Global, word: &[u8]) -> Result<Option<Bytes>, WordFault>
    ensures value { WordGives result (target_of word.now) }
    ensures text { IfOk result (λ target. word.now ≡ spell (target_token target)) }
{
    if Mark::Nothing.word() == word {
        return Ok(None);
    }
    let key = octets(alloc, b"h:", word)?;
    Ok(Some(key))
}

fn line(alloc: Global, words: &[&[u8]]) -> Result<Call, WordFault>
    ensures value { WordGives result (line_of (map (λ w. w.now) words.now)) }
    ensures text { IfOk result (λ call. call_word CallKind.Line ∷ (map (λ w. w.now) words.now) ≡ texts (call_tokens call)) }
{
    let [word, rest @ ..] = words else {
        return Err(WordFault::OutOfForm);
    };
    let number = number64(word)?;
    let command = command(alloc, rest)?;
    Ok(Call::Line { number, command })
}

fn command(alloc: Global, words: &[&[u8]]) -> Result<Command, WordFault>
    ensures value { WordGives result (accepted (command_of Journal (map (λ w. w.now) words.now))) }
    ensures text { IfOk result (λ command. (map (λ w. w.now) words.now) ≡ texts (command_tokens command)) }
{
    match read_words(alloc, Source::Journal, words) {
        Ok(command) => Ok(command),
        Err(Wrong::Word(_)) => Err(WordFault::OutOfForm),
        Err(Wrong::WantMemory) => Err(WordFault::WantMemory),
    }
}

/// Adds the words of a call, each behind a space. Where memory is wanting, some of them may have been added.
pub fn put_call(out: &mut Vec<u8>, call: &Call) -> Result<(), WantMemory>
    ensures { OnOk result (out.new.items ≡ out.old.items ++ tails (call_tokens call.now)) }
{
    match call {
        Call::Request {
            head,
            target,
            operation,
            body,
        } => {
            put_word(out, CallKind::Request.word())?;
            put_head(out, *head)?;
            put_number(out, u64::from(head.flags))?;
            put_target(out, target)?;
            put_arguments(out, operation, body)
        }
        Call::Locate { head, target } => {
            put_word(out, CallKind::Locate.word())?;
            put_head(out, *head)?;
            put_target(out, target)
        }
        Call::Line { number, command } => {
            put_word(out, CallKind::Line.word())?;
            put_number(out, *number)?;
            put_command(out, command)
        }
    }
}

// The id, the minor version and the byte order.
fn put_head(out: &mut Vec<u8>, head: Head) -> Result<(), WantMemory>
    ensures { OnOk result
        (out.new.items ≡ out.old.items ++ tails
        (Token.number (2 ^ 32) head.id ∷ Token.number 256 head.minor ∷ Token.keyword (order_word (order_for head.little)) ∷ [])) }
{
    put_number(out, u64::from(head.id))?;
    put_number(out, u64::from(head.minor))?;
    put_word(out, ByteOrder::of(head.little).word())
}

// The operation, and where its arguments begin and what they are.
fn put_arguments(out: &mut Vec<u8>, operation: &Bytes, body: &Body) -> Result<(), WantMemory>
    ensures { OnOk result
        (out.new.items ≡ out.old.items ++ tails
        (Token.octets (codes "h:") operation.now ∷ Token.number (2 ^ 64) body.now.base ∷ Token.octets (codes "h:") body.now.bytes ∷ [])) }
{
    put_octets(out, b"h:", operation.as_slice())?;
    put_number(out, body.base)?;
    put_octets(out, b"h:", body.bytes.as_slice())
}

fn put_target(out: &mut Vec<u8>, target: &Option<Bytes>) -> Result<(), WantMemory>
    ensures { OnOk result (out.new.items ≡ out.old.items ++ tails (target_token target.now ∷ [])) }
{
    match target {
        Some(key) => put_octets(out, b"h:", key.as_slice()),
        None => put_word(out, Mark::Nothing.word()),
    }
}

fn put_command(out: &mut Vec<u8>, command: &Command) -> Result<(), WantMemory>
    ensures { OnOk result (out.new.items ≡ out.old.items ++ tails (command_tokens command.now)) }
{
    let text = command_text(*out.allocator(), command)?;
    put_word(out, text.as_slice())
}
