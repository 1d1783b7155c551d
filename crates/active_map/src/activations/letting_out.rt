//! Activations that are ending leave the map once nothing runs in them.
ghost use Rattle.std.specs.Prelude.{◌≡◌, true, map};
ghost use Rattle.history_standing.specs.Changes as changes;
ghost use Rattle.history_standing.specs.Ends as ends;
ghost use Rattle.history_standing.specs.Standings.{Standing as Stood};

use super::{Activations, FEW};
use crate::change::Change;
use crate::leaving::{first_to_go, is_any_to_go};
use crate::rows::{count_moving, let_all_out};
use history_standing::Flight;
use poa_base::Config;

/// Among how many numbers a few are looked for, one by one.
const MANY: usize = 64;

impl Activations {
    /// Those that are to leave the map do. All are looked at.
    fn let_out_all(&mut self, config: &Config, flights: &[Flight])
        ensures { (s : Stood) → s.flights ≡ flights.now
            → self.new ≡ record self.old { kept = map (ends.let_out config.now s) self.old.kept } }
    {
        if self.moving > 0 {
            let_all_out(&mut self.rows, config, flights);
            self.moving = count_moving(&self.rows);
            self.passing.unsure();
        }
    }

    /// Whether none of those that are leaving is to leave the map now.
    fn has_none_to_go(&self, config: &Config, flights: &[Flight]) -> bool
        ensures { result ≡ true → (s : Stood) → s.flights ≡ flights.now
            → map (ends.let_out config.now s) self.now.kept ≡ self.now.kept }
    {
        !is_any_to_go(&self.leaving, &self.rows, config, flights)
    }

    /// One that is to leave the map does, where there is one.
    fn let_one_out(&mut self, config: &Config, flights: &[Flight])
        ensures forgotten { self.new.forgotten ≡ self.old.forgotten }
        ensures kept { (s : Stood) → s.flights ≡ flights.now
            → map (ends.let_out config.now s) self.new.kept
            ≡ map (ends.let_out config.now s) self.old.kept }
    {
        if let Some(number) = first_to_go(&self.leaving, &self.rows, config, flights) {
            let number = *number;
            self.let_out_at(config, flights, number);
        }
    }

    /// A few that are to leave the map do, where they are among few.
    fn let_few_out(&mut self, config: &Config, flights: &[Flight])
        ensures forgotten { self.new.forgotten ≡ self.old.forgotten }
        ensures kept { (s : Stood) → s.flights ≡ flights.now
            → map (ends.let_out config.now s) self.new.kept
            ≡ map (ends.let_out config.now s) self.old.kept }
    {
        if self.leaving.len() > MANY {
            return;
        }
        for _ in 0..FEW {
            self.let_one_out(config, flights);
        }
    }

    /// Those that are to leave the map do. All are looked at only where they may be many.
    pub fn let_out(&mut self, config: &Config, flights: &[Flight])
        ensures { (s : Stood) → s.flights ≡ flights.now
            → self.new ≡ record self.old { kept = map (ends.let_out config.now s) self.old.kept } }
    {
        self.let_few_out(config, flights);
        if !self.has_none_to_go(config, flights) {
            self.let_out_all(config, flights);
        }
    }

    /// That of a number leaves the map where it is to.
    pub fn let_out_at(&mut self, config: &Config, flights: &[Flight], number: u32)
        ensures { (s : Stood) → s.flights ≡ flights.now
            → self.new ≡ record self.old {
              kept = map
                  (changes.at_number number (ends.let_out config.now s)) self.old.kept;
            } }
    {
        self.change(number, Change::LetOut(config, flights));
    }
}
