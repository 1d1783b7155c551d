//! The Common Data Representation of CORBA 3.3 (Part 2, section 9.3), in both byte orders: a [`View`] reads
//! the fields that are spelled in a slice of bytes and lends their parts, a [`Reader`] copies these, and a
//! [`Writer`] appends the spelling of a field. All are said by one definition of what spells what, and the
//! laws of that spelling, and on where parts lie, are functions of [`laws`].
#![tactic(auto)]

mod fault;
mod gap;
pub mod laws;
mod part_fault;
mod reader;
mod view;
mod writer;

pub use fault::CdrFault;
pub use part_fault::PartFault;
pub use reader::Reader;
pub use std::alloc::AllocError as WantMemory;
pub use view::View;
pub use writer::Writer;
