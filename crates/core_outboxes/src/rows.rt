//! The rows of the calls that are owed a reply, as entries decide them.
ghost use Rattle.std.specs.Prelude.{◌≡◌, ◌==◌, ◌≤◌, ◌++◌, ℕ, Some, false, not, drop, filter, length, map, option_to_list, take};
ghost use Rattle.std.specs.VecDeque.{deque_len, deque_capacity};
ghost use Rattle.std.specs.List.{list_any};
ghost use Rattle.history_standing.specs.Stages as begun;
ghost use Rattle.core_standing.specs.Seen.{seen};
ghost use Rattle.core_outboxes.specs.Decided.{target_of};
ghost use Rattle.core_outboxes.specs.Desk as desks;
ghost use Rattle.core_outboxes.specs.Desk.{IsAlone};
ghost use Rattle.core_outboxes.specs.Outboxes.{HasRoomAt, awaited_at, replies_at};
ghost use Rattle.poa_history.specs.Numbers.{Ascends};
ghost use Rattle.core_outboxes.specs.Owed.{arrivals_of, has_wait};

use crate::decision::Decision;
use crate::filed::Filed;
use crate::outboxes::Outboxes;
use crate::owing::Owing;
use crate::wait::{Ordered, Wait, has_come};
use core_standing::Standing;
use poa_base::{Answer, Config, Reply};
use std::collections::VecDeque;
use std::mem;

/// Whether a decision is this call's.
fn is_of(decision: &Option<Decision>, owing: &Owing) -> bool
    ensures { result ≡ begun.is_at owing.now.arrival (target_of decision.now) }
{
    match decision {
        Some(it) => it.arrival == owing.arrival,
        None => false,
    }
}

/// Whether an entry that makes this decision, if one, decides this call too.
fn is_decided(
    config: &Config,
    standing: &Standing,
    decision: &Option<Decision>,
    ordered: Option<Ordered>,
    owing: &Owing,
) -> bool
    ensures { result ≡ desks.is_decided config.now (seen standing.now) (target_of decision.now)
        ordered owing.now }
{
    is_of(decision, owing)
        || match owing.wait {
            Some(wait) => has_come(config, standing, ordered, owing.arrival, wait),
            None => false,
        }
}

/// The reply of a row: that of the decision where it is the row's, which is moved, or `ok`.
fn filed(decision: &mut Option<Decision>, owing: &Owing) -> Filed
    ensures filed { result ≡ desks.file decision.old owing.now }
    ensures target { target_of decision.new ≡ target_of decision.old }
    ensures left { begun.is_at owing.now.arrival (target_of decision.old) ≡ false
        → decision.new ≡ decision.old }
{
    let reply = match decision {
        Some(it) if it.arrival == owing.arrival => mem::replace(&mut it.reply, Reply::Addressing),
        _ => Reply::Answer {
            number: owing.number,
            answer: Answer::Good,
        },
    };
    Filed {
        arrival: owing.arrival,
        conn: owing.conn,
        head: owing.head,
        reply,
    }
}

/// The first row is filed where its call is decided, and goes behind the others else.
fn file_first(
    config: &Config,
    standing: &Standing,
    decision: &mut Option<Decision>,
    ordered: Option<Ordered>,
    owing: &mut VecDeque<Owing>,
    outboxes: &mut Outboxes,
)
    requires awaited { (n : ℕ)
        → awaited_at outboxes.old.boxes.items n
        ≡ length (filter (λ o. o.conn == n) owing.old.items) }
    ensures kept { owing.new.items ≡ drop 1 owing.old.items ++ filter
        (λ o. not (desks.is_decided config.now (seen standing.now) (target_of decision.old)
        ordered o))
        (take 1 owing.old.items) }
    ensures filed { (n : ℕ)
        → replies_at outboxes.new.boxes.items n
        ≡ replies_at outboxes.old.boxes.items n ++ filter (λ f. f.conn == n)
        (map (desks.file decision.old)
        (filter (desks.is_decided config.now (seen standing.now) (target_of decision.old) ordered)
        (take 1 owing.old.items))) }
    ensures awaited { (n : ℕ)
        → awaited_at outboxes.new.boxes.items n
        ≡ length (filter (λ o. o.conn == n) owing.new.items) }
    ensures target { target_of decision.new ≡ target_of decision.old }
    ensures left { list_any (λ o. begun.is_at o.arrival (target_of decision.old))
        (take 1 owing.old.items) ≡ false
        → decision.new ≡ decision.old }
    ensures fewer { deque_len owing.new ≤ deque_len owing.old }
    ensures places { deque_capacity owing.new ≡ deque_capacity owing.old }
    ensures room { (n : ℕ) → HasRoomAt outboxes.old.boxes.items n
        → HasRoomAt outboxes.new.boxes.items n }
{
    let Some(row) = owing.pop_front() else {
        return;
    };
    if is_decided(config, standing, decision, ordered, &row) {
        outboxes.file(filed(decision, &row));
    } else {
        owing.push_back_reserved(row);
    }
}

/// Files the replies of those that are decided; the others stay. It is rare that a command waits: this stands by itself, so
/// that the frequent way gets nothing ready for it.
#[inline(never)]
pub(crate) fn file_decided(
    config: &Config,
    standing: &Standing,
    decision: Option<Decision>,
    ordered: Option<Ordered>,
    owing: &mut VecDeque<Owing>,
    outboxes: &mut Outboxes,
)
    requires alone { IsAlone (target_of decision) owing.old.items }
    requires awaited { (n : ℕ)
        → awaited_at outboxes.old.boxes.items n
        ≡ length (filter (λ o. o.conn == n) owing.old.items) }
    ensures kept { owing.new.items ≡ filter
        (λ o. not (desks.is_decided config.now (seen standing.now) (target_of decision) ordered o))
        owing.old.items }
    ensures filed { (n : ℕ)
        → replies_at outboxes.new.boxes.items n
        ≡ replies_at outboxes.old.boxes.items n ++ filter (λ f. f.conn == n)
        (map (desks.file decision)
        (filter (desks.is_decided config.now (seen standing.now) (target_of decision) ordered)
        owing.old.items)) }
    ensures awaited { (n : ℕ)
        → awaited_at outboxes.new.boxes.items n
        ≡ length (filter (λ o. o.conn == n) owing.new.items) }
    ensures fewer { deque_len owing.new ≤ deque_len owing.old }
    ensures places { deque_capacity owing.new ≡ deque_capacity owing.old }
    ensures room { (n : ℕ) → HasRoomAt outboxes.old.boxes.items n
        → HasRoomAt outboxes.new.boxes.items n }
{
    let mut decision = decision;
    for i in 0..owing.len() {
        file_first(config, standing, &mut decision, ordered, owing, outboxes);
    }
}

/// The row of an arrival gets what it waits for.
fn put_wait(owing: &mut Owing, arrival: u64, wait: Option<Wait>)
    ensures { owing.new ≡ desks.set_wait arrival wait owing.old }
{
    if owing.arrival == arrival {
        owing.wait = wait;
    }
}

pub(crate) fn put_waits(owing: &mut VecDeque<Owing>, arrival: u64, wait: Option<Wait>)
    ensures waits { owing.new.items ≡ map (desks.set_wait arrival wait) owing.old.items }
    ensures len { deque_len owing.new ≡ deque_len owing.old }
    ensures capacity { deque_capacity owing.new ≡ deque_capacity owing.old }
{
    for i in 0..owing.len() {
        put_wait(&mut owing[i], arrival, wait);
    }
}

/// Whether one of them waits for something.
pub(crate) fn any_waits(owing: &VecDeque<Owing>) -> bool
    ensures { result ≡ list_any has_wait owing.now.items }
{
    owing.iter().any(|row| row.wait.is_some())
}

/// The row of an arrival is taken out, wherever it is. This stands by itself, so that taking the first gets nothing ready
/// for it.
#[inline(never)]
fn take_searched(owing: &mut VecDeque<Owing>, arrival: u64) -> Option<Owing>
    requires { Ascends (arrivals_of owing.old.items) }
    ensures row { option_to_list result
        ≡ filter (λ o. begun.is_at o.arrival (Some arrival)) owing.old.items }
    ensures kept { owing.new.items
        ≡ filter (λ o. not (begun.is_at o.arrival (Some arrival))) owing.old.items }
    ensures fewer { deque_len owing.new ≤ deque_len owing.old }
    ensures places { deque_capacity owing.new ≡ deque_capacity owing.old }
{
    let Ok(place) = owing.binary_search_by_key(&arrival, |row| row.arrival) else {
        return None;
    };
    owing.remove(place)
}

/// The row of an arrival is taken out. Nearly always it is the first.
fn take_row(owing: &mut VecDeque<Owing>, arrival: u64) -> Option<Owing>
    requires { Ascends (arrivals_of owing.old.items) }
    ensures row { option_to_list result
        ≡ filter (λ o. begun.is_at o.arrival (Some arrival)) owing.old.items }
    ensures kept { owing.new.items
        ≡ filter (λ o. not (begun.is_at o.arrival (Some arrival))) owing.old.items }
    ensures fewer { deque_len owing.new ≤ deque_len owing.old }
    ensures places { deque_capacity owing.new ≡ deque_capacity owing.old }
{
    let Some(first) = owing.front() else {
        return None;
    };
    if first.arrival == arrival {
        return owing.pop_front();
    }
    take_searched(owing, arrival)
}

/// Files the reply of a decision alone.
pub(crate) fn file_decision(
    decision: Decision,
    owing: &mut VecDeque<Owing>,
    outboxes: &mut Outboxes,
)
    requires ascends { Ascends (arrivals_of owing.old.items) }
    requires awaited { (n : ℕ)
        → awaited_at outboxes.old.boxes.items n
        ≡ length (filter (λ o. o.conn == n) owing.old.items) }
    ensures kept { owing.new.items
        ≡ filter (λ o. not (begun.is_at o.arrival (Some decision.arrival))) owing.old.items }
    ensures filed { (n : ℕ)
        → replies_at outboxes.new.boxes.items n
        ≡ replies_at outboxes.old.boxes.items n ++ filter (λ f. f.conn == n)
        (map (desks.file (Some decision))
        (filter (λ o. begun.is_at o.arrival (Some decision.arrival)) owing.old.items)) }
    ensures awaited { (n : ℕ)
        → awaited_at outboxes.new.boxes.items n
        ≡ length (filter (λ o. o.conn == n) owing.new.items) }
    ensures fewer { deque_len owing.new ≤ deque_len owing.old }
    ensures places { deque_capacity owing.new ≡ deque_capacity owing.old }
    ensures room { (n : ℕ) → HasRoomAt outboxes.old.boxes.items n
        → HasRoomAt outboxes.new.boxes.items n }
{
    if let Some(row) = take_row(owing, decision.arrival) {
        outboxes.file(Filed {
            arrival: row.arrival,
            conn: row.conn,
            head: row.head,
            reply: decision.reply,
        });
    }
}
