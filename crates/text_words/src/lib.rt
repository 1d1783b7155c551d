//! The words of poad's written texts: administrator's lines, journals, state files and scripts.
//!
//! A text is lines, a line is words, and a word spells a number, a name, a path, an object id or bytes.
//! `specs/Token.antt` says once how each is spelled. Here are a reader and a writer of each, which meet it.
#![tactic(auto)]

mod adapter_path;
mod cuts;
mod decimal;
mod fault;
mod hexadecimal;
mod keyword;
mod line_end;
mod names;
mod object_id;
mod writing;

pub use adapter_path::{path, path_names, path_text};
pub use cuts::{loose_words, next_line, parts, words};
pub use decimal::{number8, number16, number32, number64, port, signed};
pub use fault::WordFault;
pub use hexadecimal::{any_hex, is_reference, minor, octets, reference};
pub use keyword::{Worded, find_word};
pub use line_end::{
    alone, last_endpoint, last_long_number, last_name, last_number, nothing, put_endpoint,
};
pub use names::{host, is_host, is_name, name};
pub use object_id::{any_identity, identity};
pub use writing::{
    put_identity, put_minor, put_number, put_octets, put_path, put_signed, put_word,
};
