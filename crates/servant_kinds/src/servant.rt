//! A servant: a state, and what it does with it.
ghost use Rattle.std.specs.Prelude.{◌≡◌, IfOk, OnErr};
ghost use Rattle.servant_kinds.specs.Act.{act_of};

use crate::exception::fail;
use crate::{echo, log, register};
use poa_base::{Body, Outcome, State, WantMemory};
use std::alloc::Global;
use std::marker::Model;

/// A servant of one of the kinds. Contracts see its state.
#[derive(Drop)]
pub struct Servant {
    alloc: Global,
    state: State,
    /// What a log has room for; nothing for the other kinds.
    room: u64,
}

impl Model for Servant {
    ghost use Rattle.poa_base.specs.declared.State.{State};
    ghost use Rattle.std.specs.Prelude.{◌≡◌};
    ghost use Rattle.servant_kinds.specs.Log.{state_room};

    ghost Value = { State };

    ghost view = { λ s. s.state };

    ghost invariant = { λ s. s.room ≡ state_room s.state };
}

impl Servant {
    /// A servant with this state. Takes no memory.
    pub fn new(alloc: Global, state: State) -> Servant
        ensures { result ≡ state }
    {
        let room = match &state {
            State::Book(entries) => log::room(entries),
            State::Register(_) | State::Echo | State::Fault => 0,
        };
        Servant { alloc, state, room }
    }

    /// Does an operation, whose argument stands in the body. `WantMemory`: no memory was left for the
    /// outcome or for a log's entry, and the state is as it was.
    pub fn act(&mut self, operation: &[u8], body: &Body) -> Result<Outcome, WantMemory>
        ensures ok { IfOk result (λ outcome. act_of self.old operation.now body.now ≡ (self.new, outcome)) }
        ensures err { OnErr result (self.new ≡ self.old) }
    {
        let alloc = self.alloc;
        match &mut self.state {
            State::Register(value) => register::act(alloc, value, operation, body),
            State::Book(entries) => log::act(alloc, entries, &mut self.room, operation, body),
            State::Echo => echo::act(alloc, operation, body),
            State::Fault => Ok(fail()),
        }
    }

    /// The state as it is now.
    pub fn state(&self) -> &State
        ensures { result.now ≡ self.now }
    {
        &self.state
    }

    /// The state, given back. Takes no memory.
    pub fn into_state(self) -> State
        ensures { result ≡ self }
    {
        let Servant { state, .. } = self;
        state
    }
}
