//! The text of a run's history, and that of a store: print them, read them.
//!
//! A journal is a head line with the number of the run, a line for each row of the opening store, and a line for each
//! entry; the text of a store, as a state file has it, is the rows alone. `specs/Entry.antt` and `specs/Row.antt` say which
//! words each line has, `specs/Journal.antt` what is printed, `specs/Whole.antt` what a text gives: what is printed reads
//! back, and the first line outside the grammar is told. A long journal can be read line by line: its head, its rows, and
//! each entry. `specs/Call.antt`, `specs/Verdict.antt`, `specs/Outcome.antt` and `specs/Exception.antt` say which words the values in
//! an entry have: a reader takes the last words of a line, and a writer adds words to one.
#![tactic(auto)]

mod call;
mod entry;
mod exception;
mod fault;
mod fixed;
mod laws;
mod outcome;
mod reading;
mod row;
mod rows;
mod shelving;
mod store_text;
mod value_words;
mod verdict;
mod writing;

pub use call::{put_call, read_call};
pub use entry::{put_entry, read_entry};
pub use fault::JournalFault;
pub use laws::a_text_keeps_what_is_stored;
pub use outcome::{put_attempt, put_incarnation, read_attempt, read_incarnation};
pub use reading::{entry_at, read, read_head};
pub use row::{put_row, row_words};
pub use rows::{Opening, read_rows};
pub use store_text::{print_store, read_store};
pub use value_words::{Mark, expect, is_mark};
pub use verdict::{put_verdict, read_verdict};
pub use writing::{print, print_entry, print_parts};
