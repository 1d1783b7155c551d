//! Lists of numbers in order.
ghost use Rattle.std.specs.Prelude.{◌≡◌, ◌==◌, ◌≤◌, ◌<◌, [], ◌∷◌, ◌++◌, length, filter, nat_lt, if◌then◌else◌};
ghost use Rattle.std.specs.VecDeque.{deque_len, deque_capacity};
ghost use Rattle.std.specs.List.{list_any};
ghost use Rattle.poa_history.specs.Numbers.{Ascends};
ghost use Rattle.core_arrivals.specs.Numbers.{inserted, without};

use std::collections::VecDeque;

/// Whether a number is one of numbers that ascend.
pub fn has(numbers: &VecDeque<u64>, number: u64) -> bool
    ensures { Ascends numbers.now.items → result ≡ list_any (λ x. x == number) numbers.now.items }
{
    numbers.binary_search(&number).is_ok()
}

/// How many are less than a number.
fn place_for(numbers: &VecDeque<u64>, number: u64) -> usize
    ensures place { result ≡ length (filter (λ x. nat_lt x number) numbers.now.items) }
    ensures within { result ≤ length numbers.now.items }
{
    let mut place = 0;
    for i in 0..numbers.len() {
        if numbers[i] < number {
            place += 1;
        }
    }
    place
}

/// Puts a number behind all that are less. Takes no memory.
pub fn insert(numbers: &mut VecDeque<u64>, number: u64)
    requires { deque_len numbers.old < deque_capacity numbers.old }
    ensures { numbers.new.items ≡ inserted number numbers.old.items }
{
    let place = place_for(numbers, number);
    let _room = numbers.insert(place, number);
}

/// Puts a number behind all, where it is to. Takes no memory.
pub fn push_if(is: bool, numbers: &mut VecDeque<u64>, number: u64)
    requires { deque_len numbers.old < deque_capacity numbers.old }
    ensures { numbers.new.items
        ≡ (if is then numbers.old.items ++ number ∷ [] else numbers.old.items) }
{
    if is {
        numbers.push_back_reserved(number);
    }
}

/// Puts a number behind all that are less, where it is to. Takes no memory.
pub fn insert_if(is: bool, numbers: &mut VecDeque<u64>, number: u64)
    requires { deque_len numbers.old < deque_capacity numbers.old }
    ensures { numbers.new.items
        ≡ (if is then inserted number numbers.old.items else numbers.old.items) }
{
    if is {
        insert(numbers, number);
    }
}

/// Takes away a number that may stand anywhere. It is a function of its own, so that taking the first gets nothing ready
/// for it.
#[inline(never)]
fn remove_searched(numbers: &mut VecDeque<u64>, number: u64)
    ensures { Ascends numbers.old.items → numbers.new.items ≡ without number numbers.old.items }
{
    if let Ok(place) = numbers.binary_search(&number) {
        let _taken = numbers.remove(place);
    }
}

/// Takes a number away from numbers that ascend. Nearly always it is the first.
pub fn remove(numbers: &mut VecDeque<u64>, number: u64)
    ensures { Ascends numbers.old.items → numbers.new.items ≡ without number numbers.old.items }
{
    let Some(first) = numbers.front() else {
        return;
    };
    if *first == number {
        let _first = numbers.pop_front();
    } else {
        remove_searched(numbers, number);
    }
}
