//! Since when all is set that commands set.
ghost use Rattle.std.specs.Prelude.{◌≡◌, ℕ, [], IfOk, OnOk, option_copied, position};
ghost use Rattle.poa_base.specs.declared.Entry.TheVariants.{Admit};
ghost use Rattle.journal_explain.specs.Origins as told;
ghost use Rattle.journal_explain.specs.Origins.{same_setting};
ghost use Rattle.journal_explain.specs.Watching.{IsPut, Settles, origin_in, since_in, tenure_in, told_in};

use crate::basis::Basis;
use crate::commanding::{command_done, set_by};
use crate::doing::Doing;
use crate::facing::{command_admitted, state_of};
use crate::origin::Origin;
use crate::setting::Setting;
use crate::since::Since;
use crate::tenure::Tenure;
use core_run::Run;
use poa_base::{Command, Entry, Verdict, WantMemory};
use std::alloc::Global;
use std::marker::Model;

/// Since when all is set that commands have set. Each setting has one row.
#[derive(Drop)]
pub struct Origins {
    rows: Vec<Origin>,
}

impl Model for Origins {
    ghost use Rattle.std.specs.Prelude.{List};
    ghost use Rattle.journal_explain.specs.declared.origin.Origin.{Origin};

    ghost Value = { List Origin };

    ghost view = { λ o. o.rows.items };
}

impl Origins {
    /// Of a run of which no entry has been seen.
    pub(crate) fn new(alloc: Global) -> Self
        ensures { result ≡ [] }
    {
        Origins {
            rows: Vec::new(alloc),
        }
    }

    /// Notes the next entry of a run, at this place.
    pub(crate) fn note(&mut self, run: &Run, entry: &Entry, place: u64) -> Result<(), WantMemory>
        ensures { OnOk result (Settles run.now entry.now place self.old self.new) }
    {
        match entry {
            Entry::Admit {
                arrival,
                verdict,
                ..
            } => note_admitted(run, place, *arrival, verdict, &mut self.rows),
            _ => Ok(()),
        }
    }

    /// What is set, as it stands in a run.
    pub(crate) fn told(
        &self,
        run: &Run,
        setting: Option<Setting>,
    ) -> Result<Option<Tenure>, WantMemory>
        ensures { IfOk result (λ tenure. tenure ≡ told_in run.now self.now setting) }
    {
        match setting {
            Some(setting) => Ok(Some(self.tenure(run, &setting)?)),
            None => Ok(None),
        }
    }

    fn tenure(&self, run: &Run, setting: &Setting) -> Result<Tenure, WantMemory>
        ensures { IfOk result (λ tenure. tenure ≡ tenure_in run.now self.now setting.now) }
    {
        let since = self.since(setting);
        let command = command_since(run, since)?;
        Ok(Tenure {
            basis: basis_of(run, setting),
            since,
            command,
        })
    }

    fn since(&self, setting: &Setting) -> Option<Since>
        ensures { result ≡ since_in self.now setting.now }
    {
        match row_of(self.rows.as_slice(), setting) {
            Some(origin) => Some(origin.since),
            None => None,
        }
    }
}

/// What is told of a setting: of a manager its state.
fn basis_of(run: &Run, setting: &Setting) -> Basis
    ensures { result ≡ told.basis_of run.now.config run.now.history setting.now }
{
    match setting {
        Setting::Manager(manager) => Basis::Manager {
            manager: *manager,
            state: state_of(run, *manager),
        },
        Setting::DefaultServant(_) => Basis::DefaultServant,
        Setting::Endpoint(_) => Basis::Endpoint,
    }
}

/// The row of a setting.
fn row_of<'a>(rows: &'a [Origin], setting: &Setting) -> Option<&'a Origin>
    ensures { option_copied result ≡ origin_in rows.now setting.now }
{
    rows.iter().find(|row| row.setting.is(setting))
}

/// Notes that the entry at this place admits a call with this verdict.
#[inline(never)]
fn note_admitted(
    run: &Run,
    place: u64,
    arrival: u64,
    verdict: &Verdict,
    rows: &mut Vec<Origin>,
) -> Result<(), WantMemory>
    ensures { (worker : ℕ) → OnOk result
        (Settles run.now (Admit worker arrival verdict.now) place rows.old.items rows.new.items) }
{
    let command = command_done(run, arrival, verdict);
    if let Some(setting) = set_by(run, command)? {
        let since = Since {
            entry: place,
            arrival,
        };
        put(Origin { setting, since }, rows)?;
    }
    Ok(())
}

/// The command that this entry admits.
fn command_since(run: &Run, since: Option<Since>) -> Result<Option<Command>, WantMemory>
    ensures { IfOk result (λ command. command ≡ told.command_since run.now.history since) }
{
    match since {
        Some(since) => command_admitted(run, Doing::Admits(since.arrival)),
        None => Ok(None),
    }
}

/// Puts a row in the place of the one of its setting, or behind all.
fn put(row: Origin, rows: &mut Vec<Origin>) -> Result<(), WantMemory>
    ensures { OnOk result (IsPut row rows.old.items rows.new.items) }
{
    match place_of(rows, &row.setting) {
        Some(place) => {
            rows[place] = row;
            Ok(())
        }
        None => Ok(rows.push(row)?),
    }
}

/// The place of a setting's row.
fn place_of(rows: &[Origin], setting: &Setting) -> Option<usize>
    ensures { result ≡ position (λ o. same_setting o.setting setting.now) rows.now }
{
    rows.iter().position(|row| row.setting.is(setting))
}
