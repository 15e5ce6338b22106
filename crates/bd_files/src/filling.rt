//! A file of the system that is being filled.
ghost use Rattle.std.specs.Prelude.{◌≡◌, ◌≢◌, IfOk, IfSome, Some};

use crate::identity::{FileIdentity, is_spared};
use std::alloc::Global;
use std::fs::File;
use std::io;
use std::io::ErrorKind;
use std::marker::Model;
use std::os::unix::fs::FileExt;

// How many bytes are kept back before they are written.
const BUFFER: usize = 131_072;

// A target and its bytes that aren't written yet. They stay until a write of them succeeds. Contracts see it as which file it
// is.
#[derive(Drop)]
pub(crate) struct Filling {
    name: String,
    file: File,
    identity: FileIdentity,
    // where the first byte of the buffer goes
    place: u64,
    buffer: Vec<u8>,
}

impl Model for Filling {
    ghost use Rattle.bd_files.specs.declared.identity.FileIdentity.{FileIdentity};

    ghost Value = { FileIdentity };

    ghost view = { λ f. f.identity };
}

impl Filling {
    // Fails for the file that is no target.
    pub(crate) fn new(
        alloc: Global,
        name: &str,
        file: File,
        spared: Option<FileIdentity>,
    ) -> io::Result<Filling>
        ensures { IfOk result (λ target. spared ≢ Some target) }
    {
        let identity = FileIdentity::of(&file.metadata()?);
        if is_spared(spared, identity) {
            return Err(io::Error::from(ErrorKind::PermissionDenied));
        }
        Ok(Filling {
            name: String::from_str(alloc, name)?,
            file,
            identity,
            place: 0,
            buffer: Vec::with_capacity(alloc, BUFFER)?,
        })
    }

    // The target, unless it is this file.
    pub(crate) fn unless(self, file: FileIdentity) -> Option<Filling>
        ensures { IfSome result (λ target. target ≢ file) }
    {
        if self.identity == file {
            None
        } else {
            Some(self)
        }
    }

    pub(crate) fn has_name(&self, name: &str) -> bool {
        self.name.as_str() == name
    }

    // Makes it so many bytes of 0.
    pub(crate) fn clear(&self, length: u64) -> io::Result<()> {
        self.file.set_len(0)?;
        self.file.set_len(length)
    }

    // Takes bytes that follow the last ones and fit beside them; before any others it writes what it has.
    pub(crate) fn put(&mut self, at: u64, bytes: &[u8]) -> io::Result<()>
        ensures { self.new ≡ self.old }
    {
        let follows = at == self.place.saturating_add(self.buffer.len() as u64);
        if !follows || BUFFER.saturating_sub(self.buffer.len()) < bytes.len() {
            self.flush()?;
            self.place = at;
        }
        if bytes.len() > BUFFER {
            return self.file.write_all_at(bytes, at);
        }
        self.buffer.extend_from_slice(bytes)?;
        Ok(())
    }

    pub(crate) fn flush(&mut self) -> io::Result<()>
        ensures { self.new ≡ self.old }
    {
        if !self.buffer.is_empty() {
            self.file.write_all_at(&self.buffer, self.place)?;
            self.place = self.place.saturating_add(self.buffer.len() as u64);
            self.buffer.clear();
        }
        Ok(())
    }

    // Writes what it has, and makes sure of it.
    pub(crate) fn finish(&mut self) -> io::Result<()>
        ensures { self.new ≡ self.old }
    {
        self.flush()?;
        self.file.sync_all()
    }
}
