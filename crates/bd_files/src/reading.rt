//! A file of the system that is being read.
ghost use Rattle.std.specs.Prelude.{◌≡◌, ◌≤◌, IfOk, IfSome, length};
ghost use Rattle.bd_files.specs.Outside.{ReadsOn};

use crate::identity::FileIdentity;
use std::alloc::Global;
use std::fs::File;
use std::io;
use std::io::{ErrorKind, Read, Seek, SeekFrom};
use std::marker::Model;
use std::os::unix::fs::FileExt;

// A source. Contracts see it as the place where its next read begins, if it can't be read at any other.
#[derive(Drop)]
pub(crate) struct Reading {
    name: String,
    file: File,
    next: Option<u64>,
}

impl Model for Reading {
    ghost use Rattle.std.specs.Prelude.{ℕ, Option};

    ghost Value = { Option ℕ };

    ghost view = { λ r. r.next };
}

impl Reading {
    // A file that was just opened. A pipe, a socket and a terminal can't be read at a place, and are read forward.
    pub(crate) fn new(alloc: Global, name: &str, mut file: File) -> io::Result<Reading>
        ensures { IfOk result (λ source. IfSome source (λ next. next ≡ 0)) }
    {
        let next = match file.seek(SeekFrom::Current(0)) {
            Ok(_) => None,
            Err(fault) if fault.kind() == ErrorKind::NotSeekable => Some(0),
            Err(fault) => return Err(fault),
        };
        let name = String::from_str(alloc, name)?;
        Ok(Reading { name, file, next })
    }

    pub(crate) fn has_name(&self, name: &str) -> bool {
        self.name.as_str() == name
    }

    // Which file it is, if it is read forward.
    pub(crate) fn forward(&self) -> io::Result<Option<FileIdentity>> {
        match self.next {
            Some(_) => Ok(Some(FileIdentity::of(&self.file.metadata()?))),
            None => Ok(None),
        }
    }

    // Gives bytes from place `at` on: what comes next, where the source is read forward, and there is no other place of it.
    pub(crate) fn read(&mut self, at: u64, into: &mut [u8]) -> io::Result<usize>
        ensures within { IfOk result (λ n. n ≤ length into.old) }
        ensures on { ReadsOn self.old self.new at result }
    {
        for _ in 0..u64::MAX {
            match self.try_read(at, into) {
                Err(fault) if fault.kind() == ErrorKind::Interrupted => {}
                done => return done,
            }
        }
        Err(io::Error::from(ErrorKind::TimedOut))
    }

    // One call of the system, which a signal may interrupt.
    fn try_read(&mut self, at: u64, into: &mut [u8]) -> io::Result<usize>
        ensures within { IfOk result (λ n. n ≤ length into.old) }
        ensures on { ReadsOn self.old self.new at result }
    {
        match self.next {
            None => self.file.read_at(into, at),
            Some(next) if next == at => {
                let count = self.file.read(into)?;
                self.next = Some(at.saturating_add(count as u64));
                Ok(count)
            }
            Some(_) => Err(io::Error::from(ErrorKind::NotSeekable)),
        }
    }
}
