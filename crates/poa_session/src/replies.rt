//! The replies of a round.
ghost use Rattle.std.specs.Prelude.{◌≡◌, ◌++◌, [], OnOk};
ghost use Rattle.poa_session.specs.Giving.{AreGiven, told_all, told_of};
ghost use Rattle.poa_session.specs.Saying.{IsGiven};

use poa_base::WantMemory;
use poa_core::Collected;
use session_laws::tell;
use std::alloc::Global;

/// The replies that were given in a round, and the bytes that tell them. Both keep their room from round to round.
#[derive(Drop)]
pub(crate) struct Replies {
    pub given: Vec<Collected>,
    pub bytes: Vec<u8>,
}

impl Replies {
    /// No replies.
    pub(crate) fn new(alloc: Global) -> Replies
        ensures given { result.given.items ≡ [] }
        ensures bytes { result.bytes.items ≡ [] }
    {
        Replies {
            given: Vec::new(alloc),
            bytes: Vec::new(alloc),
        }
    }

    /// Forgets all replies.
    pub(crate) fn clear(&mut self)
        ensures given { self.new.given.items ≡ [] }
        ensures bytes { self.new.bytes.items ≡ [] }
    {
        self.given.clear();
        self.bytes.clear();
    }

    /// Spells those that were given behind the bytes. Where memory is wanting only some of them may stand there.
    pub(crate) fn spell(&mut self, alloc: Global) -> Result<(), WantMemory>
        requires { AreGiven self.old.given.items }
        ensures { OnOk result
            (self.new.bytes.items ≡ self.old.bytes.items ++ told_all self.old.given.items) }
    {
        spell_all(alloc, &mut self.bytes, &self.given)
    }
}

// Spells replies behind other bytes, one behind the other.
fn spell_all(alloc: Global, bytes: &mut Vec<u8>, given: &[Collected]) -> Result<(), WantMemory>
    requires { AreGiven given.now }
    ensures { OnOk result (bytes.new.items ≡ bytes.old.items ++ told_all given.now) }
{
    for collected in given {
        spell(alloc, bytes, collected)?;
    }
    Ok(())
}

// Spells what was given behind other bytes.
fn spell(alloc: Global, bytes: &mut Vec<u8>, collected: &Collected) -> Result<(), WantMemory>
    requires { IsGiven collected.now }
    ensures { OnOk result (bytes.new.items ≡ bytes.old.items ++ told_of collected.now) }
{
    match collected {
        Collected::Reply { head, reply, .. } => tell(alloc, bytes, head, reply),
        Collected::Nothing { .. } => Ok(()),
    }
}
