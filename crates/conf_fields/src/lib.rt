//! Typed look-ups in the tables of a configuration. Each gives the value of a key, or the fault with the
//! path of that key, as `adapter[0].rule[1].id`.
#![tactic(auto)]

mod fault;
mod faulty;
mod lookup;
mod names;
mod numbers;
mod place;
mod tables;
mod word;

pub use fault::ConfFault;
pub use faulty::{limited, no_such, twice, wrong};
pub use lookup::{
    flag_or, integer_or, member_at, number_at, number_or, only_if, or_wrong, port_at, port_or,
    word_at, word_in, word_maybe, word_or,
};
pub use names::{host_at, host_or, id_at, id_of_text, name_at, path_at};
pub use numbers::{Numbers, find, no_numbers, not_twice, note, number_named, or_missing};
pub use place::Place;
pub use tables::{at_most, entries_at, has, items_at, known_keys, none_of, table_in};
pub use word::Word;
