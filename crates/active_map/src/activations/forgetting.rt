//! Activations that are over are forgotten, but for their numbers.
ghost use Rattle.std.specs.Prelude.{◌≡◌, ◌+◌, ◌==◌, ◌&&◌, true, false, not, filter, length};
ghost use Rattle.std.specs.List.{list_any};
ghost use Rattle.history_standing.specs.Ends as ends;
ghost use Rattle.active_map.specs.Live.{live};

use super::{Activations, FEW};
use crate::by_id::remove;
use crate::leaving::{strike, strike_forgotten};
use crate::over::is_over;
use crate::passing::{first_over, is_any_over};
use crate::rows::{count_moving, forget_ids, keep_live, moves};
use poa_base::Config;

impl Activations {
    /// That of a number is forgotten where it is over, but for its number.
    pub fn forget_at(&mut self, config: &Config, number: u32)
        ensures forgotten { self.new.forgotten ≡ self.old.forgotten
            + length (filter (λ a. (a.number == number) && ends.is_over config.now a)
            self.old.kept) }
        ensures kept { self.new.kept
            ≡ filter (λ a. not ((a.number == number) && ends.is_over config.now a)) self.old.kept }
    {
        let Some(activation) = self.rows.get(&number) else {
            return;
        };
        if !is_over(config, activation) {
            return;
        }
        self.moving -= moves(activation);
        let oid = activation.oid.as_slice();
        remove(&mut self.ids, activation.adapter, oid, number);
        let _gone = self.rows.remove(&number);
        strike(&mut self.leaving, number);
        self.passing.strike(number);
        self.forgotten += 1;
    }

    /// Those that are over are forgotten, but for their number. All are looked at.
    fn forget_all(&mut self, config: &Config)
        ensures forgotten { self.new.forgotten
            ≡ self.old.forgotten + length (filter (ends.is_over config.now) self.old.kept) }
        ensures kept { self.new.kept ≡ live config.now self.old.kept }
    {
        if self.moving > 0 {
            forget_ids(&mut self.ids, &self.rows, config);
            self.forgotten += keep_live(&mut self.rows, config);
            strike_forgotten(&mut self.leaving, &self.rows);
            self.moving = count_moving(&self.rows);
            self.passing.renew(&self.rows);
        }
    }

    /// Whether none is known to be over, of those that pass.
    fn has_none_over(&self, config: &Config) -> bool
        ensures { result ≡ true → list_any (ends.is_over config.now) self.now.kept ≡ false }
    {
        self.passing.is_whole && !is_any_over(&self.rows, config, self.passing.numbers.as_slice())
    }

    /// One that is over is forgotten, but for its number, where there is one.
    fn forget_one(&mut self, config: &Config)
        ensures live { live config.now self.new.kept ≡ live config.now self.old.kept }
        ensures begun { self.new.forgotten + length self.new.kept
            ≡ self.old.forgotten + length self.old.kept }
    {
        if let Some(number) = first_over(&self.rows, config, self.passing.numbers.as_slice()) {
            let number = *number;
            self.forget_at(config, number);
        }
    }

    /// A few that are over are forgotten, but for their number.
    fn forget_few(&mut self, config: &Config)
        ensures live { live config.now self.new.kept ≡ live config.now self.old.kept }
        ensures begun { self.new.forgotten + length self.new.kept
            ≡ self.old.forgotten + length self.old.kept }
    {
        for _ in 0..FEW {
            self.forget_one(config);
        }
    }

    /// Those that are over are forgotten, but for their number. All are looked at only where they may be many.
    pub fn forget(&mut self, config: &Config)
        ensures forgotten { self.new.forgotten
            ≡ self.old.forgotten + length (filter (ends.is_over config.now) self.old.kept) }
        ensures kept { self.new.kept ≡ live config.now self.old.kept }
    {
        self.forget_few(config);
        if !self.has_none_over(config) {
            self.forget_all(config);
        }
    }
}
