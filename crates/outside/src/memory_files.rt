//! Files in memory.
ghost use Rattle.std.specs.Prelude.{◌≡◌, ◌≢◌, ℕ, ◌<◌, List, Option, Some, None, OnOk, OnErr};
ghost use Rattle.std.specs.Option.{option_copied};
ghost use Rattle.outside.specs.Memory.{content_of};

use crate::keeping::{Files, Put, Taken};
use poa_base::Bytes;
use std::alloc::{AllocError, Global};
use std::collections::BTreeMap;
use std::marker::Model;

/// Files by name in memory, with lists of the takes and of the puts that fail. A put for which there is
/// no memory counts as a fault.
#[derive(Drop)]
pub struct MemFiles {
    alloc: Global,
    contents: BTreeMap<String, Vec<u8>>,
    failing_takes: Vec<u64>,
    failing_puts: Vec<u64>,
    takes: u64,
    puts: u64,
    take_faults: u64,
    put_faults: u64,
    absents: u64,
    long_ones: u64,
}

impl Model for MemFiles {
    ghost use Rattle.std.specs.Prelude.{map, string_bytes};
    ghost use Rattle.outside.specs.Memory.{Shelf};

    ghost Value = { Shelf };

    ghost view = { λ f. record {
      files = map (λ entry. (string_bytes entry.0, entry.1.items)) f.contents.entries;
      take_faults = f.take_faults;
      put_faults = f.put_faults;
      absents = f.absents;
      long_ones = f.long_ones;
    } };
}

impl MemFiles {
    /// No files. The lists name the takes and the puts that fail, counted from 0.
    pub fn new(alloc: Global, failing_takes: Vec<u64>, failing_puts: Vec<u64>) -> Self
        ensures empty { (name : List ℕ) → content_of result.files name ≡ None }
        ensures faults { (result.take_faults ≡ 0) × (result.put_faults ≡ 0) }
        ensures counts { (result.absents ≡ 0) × (result.long_ones ≡ 0) }
    {
        MemFiles {
            alloc,
            contents: BTreeMap::new(alloc),
            failing_takes,
            failing_puts,
            takes: 0,
            puts: 0,
            take_faults: 0,
            put_faults: 0,
            absents: 0,
            long_ones: 0,
        }
    }

    /// The content under the name, where one is held.
    pub fn content(&self, name: &str) -> Option<&[u8]>
        ensures { option_copied result ≡ content_of self.now.files name.now }
    {
        let content = self.contents.get(name)?;
        Some(content.as_slice())
    }

    /// Holds the content under the name, in place of what was held there.
    pub fn hold(&mut self, name: &str, content: &[u8]) -> Result<(), AllocError>
        ensures held { OnOk result (content_of self.new.files name.now ≡ Some content.now) }
        ensures others { (other : List ℕ) → other ≢ name.now → content_of self.new.files other ≡ content_of self.old.files other }
        ensures refused { OnErr result (content_of self.new.files name.now ≡ content_of self.old.files name.now) }
        ensures take_faults { self.new.take_faults ≡ self.old.take_faults }
        ensures put_faults { self.new.put_faults ≡ self.old.put_faults }
        ensures absents { self.new.absents ≡ self.old.absents }
        ensures long_ones { self.new.long_ones ≡ self.old.long_ones }
    {
        let key = String::from_str(self.alloc, name)?;
        let copy = Vec::from_slice(self.alloc, content)?;
        self.contents.insert(key, copy)?;
        Ok(())
    }
}

impl Files for MemFiles {
    ghost contents = { λ f. Some (content_of f.files) };

    ghost take_faults = { λ f. f.take_faults };

    ghost put_faults = { λ f. f.put_faults };

    ghost absents = { λ f. f.absents };

    ghost long_ones = { λ f. f.long_ones };

    fn take(&mut self, name: &str, limit: u64) -> Taken {
        let call = self.takes;
        self.takes = call.saturating_add(1);
        if self.failing_takes.contains(&call) {
            self.take_faults = self.take_faults.saturating_add(1);
            return Taken::Failed;
        }
        let Some(content) = self.content(name) else {
            self.absents = self.absents.saturating_add(1);
            return Taken::Absent;
        };
        if content.len() as u64 > limit {
            self.long_ones = self.long_ones.saturating_add(1);
            return Taken::TooLong;
        }
        match Vec::from_slice(self.alloc, content) {
            Ok(copy) => Taken::Bytes(Bytes::from_vec(copy)),
            Err(_) => Taken::WantMemory,
        }
    }

    fn put(&mut self, name: &str, content: &[u8]) -> Put {
        let call = self.puts;
        self.puts = call.saturating_add(1);
        if self.failing_puts.contains(&call) || self.hold(name, content).is_err() {
            self.put_faults = self.put_faults.saturating_add(1);
            return Put::Failed;
        }
        Put::Done
    }
}
