//! The store and the journal, printed.
ghost use Rattle.std.specs.Prelude.{◌≡◌, OnOk};
ghost use Rattle.replay_run.specs.Showing.{IsStoreText, history_text};
ghost use Rattle.replay_run.specs.Effects.{PlayerPrints};

use crate::player::Player;
use poa_base::WantMemory;
use poa_journal::{print_parts, print_store};
use std::alloc::Global;

impl Player {
    /// PlayerPrints what is stored.
    pub fn show_store(&mut self, alloc: Global) -> Result<(), WantMemory>
        ensures { OnOk result (PlayerPrints (IsStoreText self.old.core) self.old self.new) }
    {
        let text = print_store(alloc, self.core.store())?;
        self.printed.extend_from_slice(text.as_slice())?;
        Ok(())
    }

    /// PlayerPrints the journal.
    pub fn show_journal(&mut self, alloc: Global) -> Result<(), WantMemory>
        ensures { OnOk result
            (PlayerPrints (λ text. text ≡ history_text self.old.core) self.old self.new) }
    {
        let core = &self.core;
        let text = print_parts(alloc, core.run(), core.opening(), core.entries())?;
        self.printed.extend_from_slice(text.as_slice())?;
        Ok(())
    }
}
