//! The administrator's lines: the command of a line, the line of a command, and the line that answers it.
//!
//! A line is words with spaces between. `specs/Command.antt` says which words each command has,
//! `specs/Reading.antt` which command a line gives, or the first word of it that is wrong. `specs/Answer.antt` says which
//! words each answer has; on a link the number of the line stands before them, and a journal has them alone.
#![tactic(auto)]

mod answer;
mod fixed;
mod fixed_answer;
mod line;
mod place;
mod reading;
mod writing;

pub use answer::{put_answer, read_answer};
pub use line::{command_text, read_line, write_answer, write_line};
pub use place::Wrong;
pub use reading::{Source, read_words};
