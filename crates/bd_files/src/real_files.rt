//! Files of the system, of whose bytes no contract speaks.
ghost use Rattle.std.specs.Prelude.{◌≡◌, ◌≤◌, [], IfOk, None, Some, length};
ghost use Rattle.std.specs.FinMap as map;
ghost use Rattle.bd_disk.specs.Calls.{HasCause};
ghost use Rattle.bd_files.specs.Outside.{FailsAsSource, FailsAsTarget};

use crate::Files;
use crate::filling::Filling;
use crate::identity::FileIdentity;
use crate::reading::Reading;
use crate::spent::Spent;
use bd_disk::Failed;
use bd_model::Name;
use std::fs::{File, Files as Folder, Metadata};
use std::io::ErrorKind;
use std::marker::Model;
use std::os::unix::fs::FileTypeExt;
use std::{fs, io};

/// Files of the current folder. The last source is kept open, and so is the last target, which is written through a buffer:
/// until its `finish` answers Ok not all that was put is written. A source that can't be read at a place, as a pipe, is read
/// forward, and once. Contracts see them as how often a call has failed, and which file is spared.
#[derive(Drop)]
pub struct RealFiles<R: Folder<File = File> + AllocGlobal + Drop> {
    rt: R,
    source: Option<Reading>,
    spent: Spent,
    target: Option<Filling>,
    spared: Option<FileIdentity>,
    source_faults: u64,
    target_faults: u64,
}

impl<R: Folder<File = File> + AllocGlobal + Drop> Model for RealFiles<R> {
    ghost use Rattle.bd_files.specs.Outside.{OutsideOfFiles, SparesItsFile};

    ghost Value = { OutsideOfFiles };

    ghost view = { λ f. record { sources = f.source_faults; targets = f.target_faults; spared = f.spared } };

    ghost invariant = { λ f. SparesItsFile f.spared f.target };
}

fn not_found() -> io::Error {
    io::Error::from(ErrorKind::NotFound)
}

// Whether opening it may wait for another program.
fn is_pipe(found: &Metadata) -> bool {
    found.file_type().is_fifo()
}

impl<R: Folder<File = File> + AllocGlobal + Drop> RealFiles<R> {
    /// No file is open, no call has failed, and no file is spared.
    pub fn new(rt: R) -> RealFiles<R>
        ensures { result ≡ record { sources = 0; targets = 0; spared = None } }
    {
        let spent = Spent::new(rt.alloc());
        RealFiles {
            rt,
            source: None,
            spent,
            target: None,
            spared: None,
            source_faults: 0,
            target_faults: 0,
        }
    }

    /// From now on no target is begun over this file: that call fails, and the file stays as it is.
    pub fn spare(&mut self, file: FileIdentity)
        ensures { self.new ≡ record self.old { spared = Some file } }
    {
        self.target = match self.target.take() {
            Some(target) => target.unless(file),
            None => None,
        };
        self.spared = Some(file);
    }

    fn is_source(&self, name: &str) -> bool {
        match &self.source {
            Some(source) => source.has_name(name),
            None => false,
        }
    }

    fn is_target(&self, name: &str) -> bool {
        match &self.target {
            Some(target) => target.has_name(name),
            None => false,
        }
    }

    // Writes what the target has kept back.
    fn flush(&mut self) -> io::Result<()>
        ensures { self.new ≡ self.old }
    {
        match &mut self.target {
            Some(target) => target.flush(),
            None => Ok(()),
        }
    }

    // Opens a source at its beginning. A pipe that is spent is left shut: it would wait for another to fill it.
    fn open_source(&mut self, name: &str) -> io::Result<()>
        ensures { self.new ≡ self.old }
    {
        self.source = None;
        let found = fs::metadata(&self.rt, name)?;
        if is_pipe(&found) && self.spent.has(FileIdentity::of(&found)) {
            return Err(io::Error::from(ErrorKind::NotSeekable));
        }
        let file = File::open(&self.rt, name)?;
        let source = Reading::new(self.rt.alloc(), name, file)?;
        if let Some(forward) = source.forward()? {
            self.spent.add(forward)?;
        }
        self.source = Some(source);
        Ok(())
    }

    // At the first byte the file is opened anew, since another may have taken the name.
    fn read(&mut self, name: &str, at: u64, into: &mut [u8]) -> io::Result<usize>
        ensures within { IfOk result (λ n. n ≤ length into.old) }
        ensures same { self.new ≡ self.old }
    {
        if self.is_target(name) {
            self.flush()?;
        }
        if at == 0 || !self.is_source(name) {
            self.open_source(name)?;
        }
        match &mut self.source {
            Some(source) => source.read(at, into),
            None => Err(not_found()),
        }
    }

    // Opens a file to be filled, in place of the last one, unless it is spared. A pipe is none, and is left shut.
    fn open_target(&mut self, name: &str, create: bool) -> io::Result<()>
        ensures { self.new ≡ self.old }
    {
        self.flush()?;
        self.target = None;
        if fs::metadata(&self.rt, name).is_ok_and(|found| is_pipe(&found)) {
            return Err(io::Error::from(ErrorKind::NotSeekable));
        }
        let file = File::options()
            .write(true)
            .create(create)
            .open(&self.rt, name)?;
        let target = Filling::new(self.rt.alloc(), name, file, self.spared)?;
        self.target = Some(target);
        Ok(())
    }

    fn start(&mut self, name: &str, length: u64) -> io::Result<()>
        ensures { self.new ≡ self.old }
    {
        self.open_target(name, true)?;
        match &self.target {
            Some(target) => target.clear(length),
            None => Err(not_found()),
        }
    }

    fn write(&mut self, name: &str, at: u64, bytes: &[u8]) -> io::Result<()>
        ensures { self.new ≡ self.old }
    {
        if !self.is_target(name) {
            self.open_target(name, false)?;
        }
        match &mut self.target {
            Some(target) => target.put(at, bytes),
            None => Err(not_found()),
        }
    }

    fn close(&mut self, name: &str) -> io::Result<()>
        ensures { self.new ≡ self.old }
    {
        if !self.is_target(name) {
            self.open_target(name, false)?;
        }
        match &mut self.target {
            Some(target) => target.finish()?,
            None => return Err(not_found()),
        }
        self.target = None;
        Ok(())
    }

    // Counts a target's call that failed.
    fn answer(&mut self, done: io::Result<()>) -> Result<(), Failed>
        ensures cause { HasCause self.old.targets self.new.targets result }
        ensures counts { FailsAsTarget self.old self.new result }
    {
        if done.is_ok() {
            return Ok(());
        }
        self.target_faults = self.target_faults.saturating_add(1);
        Err(Failed)
    }
}

impl<R: Folder<File = File> + AllocGlobal + Drop> Files for RealFiles<R> {
    ghost tells = { ⊥ };

    ghost files = { λ f. map.empty };

    ghost unfinished = { λ f. [] };

    ghost source_faults = { λ f. f.sources };

    ghost target_faults = { λ f. f.targets };

    ghost strays = { λ f. 0 };

    fn fetch(&mut self, name: &Name, at: u64, into: &mut [u8]) -> Result<usize, Failed>
        ensures cause { HasCause self.old.sources self.new.sources result }
        ensures within { IfOk result (λ n. n ≤ length into.old) }
        ensures counts { FailsAsSource self.old self.new result }
    {
        match self.read(name.text(), at, into) {
            Ok(count) => Ok(count),
            Err(_) => {
                self.source_faults = self.source_faults.saturating_add(1);
                Err(Failed)
            }
        }
    }

    fn begin(&mut self, name: &Name, length: u64) -> Result<(), Failed>
        ensures cause { HasCause self.old.targets self.new.targets result }
        ensures counts { FailsAsTarget self.old self.new result }
    {
        let done = self.start(name.text(), length);
        self.answer(done)
    }

    fn put(&mut self, name: &Name, at: u64, bytes: &[u8]) -> Result<(), Failed>
        ensures cause { HasCause self.old.targets self.new.targets result }
        ensures counts { FailsAsTarget self.old self.new result }
    {
        let done = self.write(name.text(), at, bytes);
        self.answer(done)
    }

    fn finish(&mut self, name: &Name) -> Result<(), Failed>
        ensures cause { HasCause self.old.targets self.new.targets result }
        ensures counts { FailsAsTarget self.old self.new result }
    {
        let done = self.close(name.text());
        self.answer(done)
    }
}
