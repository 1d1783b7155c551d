ghost use Rattle.std.specs.Prelude.{◌≡◌, ◌∷◌, ◌++◌, [], IfOk, OnOk, map};
ghost use Rattle.text_words.specs.WordGives.{WordGives};
ghost use Rattle.text_words.specs.Token.{spelled, tails, texts};
ghost use Rattle.poa_journal.specs.Fixed.{flag_word, kind_word, removal_word};
ghost use Rattle.poa_journal.specs.Entry.{body_tokens, entry_tokens, kind_in, n32, n64};
ghost use Rattle.text_words.specs.Parts.{only};
ghost use Rattle.poa_journal.specs.Reading.{admit_of, arrive_of, body_of, entry_of, etherealized_of, flag_of, incarnated_of, kind_of, last_pair as last_pair_of, removal_of, take_out_of, tried_of};

use crate::call::{put_call, read_call};
use crate::fixed::{Flag, Kind, Removal};
use crate::outcome::{put_attempt, put_incarnation, read_attempt, read_incarnation};
use crate::verdict::{put_verdict, read_verdict};
use poa_base::{Entry, WantMemory};
use std::alloc::Global;
use text_words::{
    WordFault, Worded, find_word, last_long_number, last_number, nothing, number32, number64,
    put_number, put_word,
};

fn kind(word: &[u8]) -> Result<Kind, WordFault>
    ensures value { WordGives result (kind_of word.now) }
    ensures text { IfOk result (λ k. word.now ≡ kind_word k) }
{
    find_word(
        &[
            Kind::Entered,
            Kind::Arrive,
            Kind::Filled,
            Kind::Left,
            Kind::Collect,
            Kind::Admit,
            Kind::Tried,
            Kind::Incarnated,
            Kind::Run,
            Kind::Done,
            Kind::TakeOut,
            Kind::Etherealized,
            Kind::Abandon,
        ],
        word,
    )
    .ok_or(WordFault::OutOfForm)
}

fn flag(word: &[u8]) -> Result<Flag, WordFault>
    ensures value { WordGives result (flag_of word.now) }
    ensures text { IfOk result (λ k. word.now ≡ flag_word k) }
{
    find_word(&[Flag::Yes, Flag::No], word).ok_or(WordFault::OutOfForm)
}

/// The entry of its words.
pub fn read_entry(alloc: Global, words: &[&[u8]]) -> Result<Entry, WordFault>
    ensures value { WordGives result (entry_of (map (λ w. w.now) words.now)) }
    ensures text { IfOk result
        (λ entry. (map (λ w. w.now) words.now) ≡ texts (entry_tokens entry)) }
{
    let [word, rest @ ..] = words else {
        return Err(WordFault::OutOfForm);
    };
    let kind = kind(word)?;
    body(alloc, kind, rest)
}

fn body(alloc: Global, kind: Kind, words: &[&[u8]]) -> Result<Entry, WordFault>
    ensures value { WordGives result (body_of kind (map (λ w. w.now) words.now)) }
    ensures text { IfOk result
        (λ entry. kind_word kind ∷ (map (λ w. w.now) words.now) ≡ texts (entry_tokens entry)) }
{
    match kind {
        Kind::Entered => {
            let conn = last_number(words)?;
            Ok(Entry::Entered { conn })
        }
        Kind::Arrive => arrive(alloc, words),
        Kind::Filled => {
            let (conn, size) = last_pair(words)?;
            Ok(Entry::Filled { conn, size })
        }
        Kind::Left => {
            let conn = last_number(words)?;
            Ok(Entry::Left { conn })
        }
        Kind::Collect => {
            let (conn, arrival) = last_pair(words)?;
            Ok(Entry::Collect { conn, arrival })
        }
        Kind::Admit => admit(alloc, words),
        Kind::Tried => tried(words),
        Kind::Incarnated => incarnated(alloc, words),
        Kind::Run => {
            let worker = last_number(words)?;
            Ok(Entry::Run { worker })
        }
        Kind::Done => {
            let worker = last_number(words)?;
            Ok(Entry::Done { worker })
        }
        Kind::TakeOut => take_out(words),
        Kind::Etherealized => etherealized(words),
        Kind::Abandon => {
            let worker = last_number(words)?;
            Ok(Entry::Abandon { worker })
        }
    }
}

fn last_pair(words: &[&[u8]]) -> Result<(u32, u64), WordFault>
    ensures value { WordGives result (last_pair_of (map (λ w. w.now) words.now)) }
    ensures text { IfOk result
        (λ p. (map (λ w. w.now) words.now) ≡ texts (n32 p.0 ∷ n64 p.1 ∷ [])) }
{
    let [first, rest @ ..] = words else {
        return Err(WordFault::OutOfForm);
    };
    let low = number32(first)?;
    let high = last_long_number(rest)?;
    Ok((low, high))
}

fn arrive(alloc: Global, words: &[&[u8]]) -> Result<Entry, WordFault>
    ensures value { WordGives result (arrive_of (map (λ w. w.now) words.now)) }
    ensures text { IfOk result
        (λ entry. kind_word Kind.Arrive ∷ (map (λ w. w.now) words.now)
        ≡ texts (entry_tokens entry)) }
{
    let [conn, size, rest @ ..] = words else {
        return Err(WordFault::OutOfForm);
    };
    let conn = number32(conn)?;
    let size = number64(size)?;
    let call = read_call(alloc, rest)?;
    Ok(Entry::Arrive { conn, size, call })
}

fn admit(alloc: Global, words: &[&[u8]]) -> Result<Entry, WordFault>
    ensures value { WordGives result (admit_of (map (λ w. w.now) words.now)) }
    ensures text { IfOk result
        (λ entry. kind_word Kind.Admit ∷ (map (λ w. w.now) words.now)
        ≡ texts (entry_tokens entry)) }
{
    let [worker, arrival, rest @ ..] = words else {
        return Err(WordFault::OutOfForm);
    };
    let worker = number32(worker)?;
    let arrival = number64(arrival)?;
    let verdict = read_verdict(alloc, rest)?;
    Ok(Entry::Admit {
        worker,
        arrival,
        verdict,
    })
}

fn tried(words: &[&[u8]]) -> Result<Entry, WordFault>
    ensures value { WordGives result (tried_of (map (λ w. w.now) words.now)) }
    ensures text { IfOk result
        (λ entry. kind_word Kind.Tried ∷ (map (λ w. w.now) words.now)
        ≡ texts (entry_tokens entry)) }
{
    let [worker, rest @ ..] = words else {
        return Err(WordFault::OutOfForm);
    };
    let worker = number32(worker)?;
    let answer = read_attempt(rest)?;
    Ok(Entry::Tried { worker, answer })
}

fn incarnated(alloc: Global, words: &[&[u8]]) -> Result<Entry, WordFault>
    ensures value { WordGives result (incarnated_of (map (λ w. w.now) words.now)) }
    ensures text { IfOk result
        (λ entry. kind_word Kind.Incarnated ∷ (map (λ w. w.now) words.now)
        ≡ texts (entry_tokens entry)) }
{
    let [worker, rest @ ..] = words else {
        return Err(WordFault::OutOfForm);
    };
    let worker = number32(worker)?;
    let answer = read_incarnation(alloc, rest)?;
    Ok(Entry::Incarnated { worker, answer })
}

fn take_out(words: &[&[u8]]) -> Result<Entry, WordFault>
    ensures value { WordGives result (take_out_of (map (λ w. w.now) words.now)) }
    ensures text { IfOk result
        (λ entry. kind_word Kind.TakeOut ∷ (map (λ w. w.now) words.now)
        ≡ texts (entry_tokens entry)) }
{
    let [worker, activation, rest @ ..] = words else {
        return Err(WordFault::OutOfForm);
    };
    let worker = number32(worker)?;
    let activation = number32(activation)?;
    let removal = last_removal(rest)?;
    Ok(Entry::TakeOut {
        worker,
        activation,
        etherealize: removal.etherealizes(),
    })
}

fn last_removal(words: &[&[u8]]) -> Result<Removal, WordFault>
    ensures value { WordGives result (only removal_of (map (λ w. w.now) words.now)) }
    ensures text { IfOk result
        (λ removal. (map (λ w. w.now) words.now) ≡ removal_word removal ∷ []) }
{
    let [word, rest @ ..] = words else {
        return Err(WordFault::OutOfForm);
    };
    let removal = find_word(&[Removal::Etherealize, Removal::Quiet], word).ok_or(
        WordFault::OutOfForm,
    )?;
    nothing(rest)?;
    Ok(removal)
}

fn etherealized(words: &[&[u8]]) -> Result<Entry, WordFault>
    ensures value { WordGives result (etherealized_of (map (λ w. w.now) words.now)) }
    ensures text { IfOk result
        (λ entry. kind_word Kind.Etherealized ∷ (map (λ w. w.now) words.now)
        ≡ texts (entry_tokens entry)) }
{
    let [worker, cleanup, rest @ ..] = words else {
        return Err(WordFault::OutOfForm);
    };
    let worker = number32(worker)?;
    let cleanup = flag(cleanup)?;
    let remaining = last_flag(rest)?;
    Ok(Entry::Etherealized {
        worker,
        cleanup: cleanup.holds(),
        remaining: remaining.holds(),
    })
}

fn last_flag(words: &[&[u8]]) -> Result<Flag, WordFault>
    ensures value { WordGives result (only flag_of (map (λ w. w.now) words.now)) }
    ensures text { IfOk result (λ f. (map (λ w. w.now) words.now) ≡ flag_word f ∷ []) }
{
    let [word, rest @ ..] = words else {
        return Err(WordFault::OutOfForm);
    };
    let found = flag(word)?;
    nothing(rest)?;
    Ok(found)
}

/// Adds the line of an entry without its end, to a text that stands at the start of a line. Where memory is wanting, a
/// front of it may have been added.
pub fn put_entry(out: &mut Vec<u8>, entry: &Entry) -> Result<(), WantMemory>
    ensures { OnOk result (out.new.items ≡ out.old.items ++ spelled (entry_tokens entry.now)) }
{
    out.extend_from_slice(kind_of_entry(entry).word())?;
    put_body(out, entry)
}

fn kind_of_entry(entry: &Entry) -> Kind
    ensures { result ≡ kind_in entry.now }
{
    match entry {
        Entry::Entered { .. } => Kind::Entered,
        Entry::Arrive { .. } => Kind::Arrive,
        Entry::Filled { .. } => Kind::Filled,
        Entry::Left { .. } => Kind::Left,
        Entry::Collect { .. } => Kind::Collect,
        Entry::Admit { .. } => Kind::Admit,
        Entry::Tried { .. } => Kind::Tried,
        Entry::Incarnated { .. } => Kind::Incarnated,
        Entry::Run { .. } => Kind::Run,
        Entry::Done { .. } => Kind::Done,
        Entry::TakeOut { .. } => Kind::TakeOut,
        Entry::Etherealized { .. } => Kind::Etherealized,
        Entry::Abandon { .. } => Kind::Abandon,
    }
}

fn put_body(out: &mut Vec<u8>, entry: &Entry) -> Result<(), WantMemory>
    ensures { OnOk result (out.new.items ≡ out.old.items ++ tails (body_tokens entry.now)) }
{
    match entry {
        Entry::Entered { conn } | Entry::Left { conn } => put_number(out, u64::from(*conn)),
        Entry::Arrive { conn, size, call } => {
            put_pair(out, *conn, *size)?;
            put_call(out, call)
        }
        Entry::Filled { conn, size } => put_pair(out, *conn, *size),
        Entry::Collect { conn, arrival } => put_pair(out, *conn, *arrival),
        Entry::Admit {
            worker,
            arrival,
            verdict,
        } => {
            put_pair(out, *worker, *arrival)?;
            put_verdict(out, verdict)
        }
        Entry::Tried { worker, answer } => {
            put_number(out, u64::from(*worker))?;
            put_attempt(out, *answer)
        }
        Entry::Incarnated { worker, answer } => {
            put_number(out, u64::from(*worker))?;
            put_incarnation(out, answer)
        }
        Entry::Run { worker } | Entry::Done { worker } | Entry::Abandon { worker } => put_number(
            out,
            u64::from(*worker),
        ),
        Entry::TakeOut {
            worker,
            activation,
            etherealize,
        } => put_take_out(out, *worker, *activation, *etherealize),
        Entry::Etherealized {
            worker,
            cleanup,
            remaining,
        } => put_etherealized(out, *worker, *cleanup, *remaining),
    }
}

fn put_pair(out: &mut Vec<u8>, low: u32, high: u64) -> Result<(), WantMemory>
    ensures { OnOk result (out.new.items ≡ out.old.items ++ tails (n32 low ∷ n64 high ∷ [])) }
{
    put_number(out, u64::from(low))?;
    put_number(out, high)
}

fn put_take_out(
    out: &mut Vec<u8>,
    worker: u32,
    activation: u32,
    etherealize: bool,
) -> Result<(), WantMemory>
    ensures { OnOk result
        (out.new.items ≡ out.old.items
        ++ tails (body_tokens (Entry.TakeOut worker activation etherealize))) }
{
    put_pair(out, worker, u64::from(activation))?;
    put_word(out, Removal::of(etherealize).word())
}

fn put_etherealized(
    out: &mut Vec<u8>,
    worker: u32,
    cleanup: bool,
    remaining: bool,
) -> Result<(), WantMemory>
    ensures { OnOk result
        (out.new.items ≡ out.old.items
        ++ tails (body_tokens (Entry.Etherealized worker cleanup remaining))) }
{
    put_number(out, u64::from(worker))?;
    put_word(out, Flag::of(cleanup).word())?;
    put_word(out, Flag::of(remaining).word())
}
