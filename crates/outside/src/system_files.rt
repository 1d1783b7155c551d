//! The files of the operating system.
ghost use Rattle.std.specs.Prelude.{◌≡◌, ℕ, Option, None};

use crate::keeping::{Files, Put, Taken};
use poa_base::Bytes;
use std::alloc::Global;
use std::io::{ErrorKind, Read};
use std::{fs, io};

/// The files of the operating system, by their paths. They tell no content. A file that can't be read, or
/// not written whole, counts as a fault. What is put takes the place of what stands there when it is
/// whole, and the file that it replaces stays as `NAME.old`.
#[derive(Drop)]
pub struct SystemFiles<R: fs::Files + Drop> {
    alloc: Global,
    system: R,
    take_faults: u64,
    put_faults: u64,
    absents: u64,
    long_ones: u64,
}

impl<R: fs::Files + Drop> SystemFiles<R> {
    /// The files of this system, with no fault so far.
    pub fn new(alloc: Global, system: R) -> Self {
        SystemFiles {
            alloc,
            system,
            take_faults: 0,
            put_faults: 0,
            absents: 0,
            long_ones: 0,
        }
    }

    // The content of a file, or as much of it as `most`.
    fn front(&self, name: &str, most: u64) -> io::Result<Vec<u8>> {
        let file = fs::File::open(&self.system, name)?;
        let mut content = Vec::new(self.alloc);
        file.take(most).read_to_end(&mut content)?;
        Ok(content)
    }

    // Writes a file: beside the one that it replaces, so that a put that fails leaves that as it was. What is
    // no regular file, as a pipe, a terminal or a symbolic link, is written where it is.
    fn write(&self, name: &str, content: &[u8]) -> io::Result<()> {
        let before = match fs::symlink_metadata(&self.system, name) {
            Ok(before) if !before.is_file() => return fs::write(&self.system, name, content),
            Ok(before) => Some(before),
            Err(error) if error.kind() == ErrorKind::NotFound => None,
            Err(error) => return Err(error),
        };
        let beside = format!(in self.alloc; "{name}.new")?;
        fs::write(&self.system, beside.as_str(), content)?;
        if let Some(before) = before {
            fs::set_permissions(&self.system, beside.as_str(), before.permissions())?;
            self.keep(name)?;
        }
        fs::rename(&self.system, beside.as_str(), name)
    }

    // Keeps a file as `NAME.old`: by a second name, so that it stands at its own all the while, or by that one
    // alone where the file system gives no second names.
    fn keep(&self, name: &str) -> io::Result<()> {
        let old = format!(in self.alloc; "{name}.old")?;
        match fs::remove_file(&self.system, old.as_str()) {
            Err(error) if error.kind() != ErrorKind::NotFound => return Err(error),
            _ => {}
        }
        fs::hard_link(&self.system, name, old.as_str()).or_else(|_| fs::rename(
            &self.system,
            name,
            old.as_str(),
        ))
    }
}

impl<R: fs::Files + Drop> Files for SystemFiles<R> {
    ghost contents = { λ _. None };

    ghost take_faults = { λ f. f.take_faults };

    ghost put_faults = { λ f. f.put_faults };

    ghost absents = { λ f. f.absents };

    ghost long_ones = { λ f. f.long_ones };

    fn take(&mut self, name: &str, limit: u64) -> Taken {
        let content = match self.front(name, limit.saturating_add(1)) {
            Ok(content) => content,
            Err(error) => {
                if error.kind() == ErrorKind::NotFound {
                    self.absents = self.absents.saturating_add(1);
                    return Taken::Absent;
                }
                if error.kind() == ErrorKind::OutOfMemory {
                    return Taken::WantMemory;
                }
                self.take_faults = self.take_faults.saturating_add(1);
                return Taken::Failed;
            }
        };
        if content.len() as u64 > limit {
            self.long_ones = self.long_ones.saturating_add(1);
            return Taken::TooLong;
        }
        Taken::Bytes(Bytes::from_vec(content))
    }

    fn put(&mut self, name: &str, content: &[u8]) -> Put {
        match self.write(name, content) {
            Ok(()) => Put::Done,
            Err(_) => {
                self.put_faults = self.put_faults.saturating_add(1);
                Put::Failed
            }
        }
    }
}
