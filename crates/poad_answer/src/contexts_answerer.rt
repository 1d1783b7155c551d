//! Naming contexts answer.
ghost use Rattle.poad_answer.specs.NamesServing.{by_contexts};

use crate::answerer::Answerer;
use naming_context::Contexts;
use poa_base::Call;
use poa_core::ArriveFault;
use std::alloc::Global;

impl Answerer for Contexts {
    ghost meaning = { by_contexts };

    fn answer(
        &mut self,
        alloc: Global,
        call: Call,
        _size: u64,
        replies: &mut Vec<u8>,
    ) -> Result<(), ArriveFault> {
        match self.serve(alloc, &call, replies) {
            Ok(()) => Ok(()),
            Err(_) => Err(ArriveFault::WantMemory),
        }
    }
}
