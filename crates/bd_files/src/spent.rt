//! The sources that are read no second time.
ghost use Rattle.std.specs.Prelude.{◌≡◌, ◌↔◌, [], IsTrue, Contains, OnErr};
ghost use Rattle.bd_files.specs.Outside.{Spends};

use crate::identity::FileIdentity;
use std::alloc::Global;
use std::io;
use std::io::ErrorKind;
use std::marker::Model;

// The sources that were read forward, each of which was at its beginning once. Contracts see them as a list.
#[derive(Drop)]
pub(crate) struct Spent {
    sources: Vec<FileIdentity>,
}

impl Model for Spent {
    ghost use Rattle.std.specs.Prelude.{List, vec_items};
    ghost use Rattle.bd_files.specs.declared.identity.FileIdentity.{FileIdentity};

    ghost Value = { List FileIdentity };

    ghost view = { λ s. vec_items s.sources };
}

impl Spent {
    pub(crate) fn new(alloc: Global) -> Spent
        ensures { result ≡ [] }
    {
        Spent {
            sources: Vec::new(alloc),
        }
    }

    pub(crate) fn has(&self, source: FileIdentity) -> bool
        ensures { IsTrue result ↔ Contains self.now source }
    {
        self.sources.contains(&source)
    }

    // Takes a source in, unless it was taken in before.
    pub(crate) fn add(&mut self, source: FileIdentity) -> io::Result<()>
        ensures { Spends self.old self.new source result }
    {
        if self.has(source) {
            return Err(io::Error::from(ErrorKind::NotSeekable));
        }
        self.sources.push(source)?;
        Ok(())
    }
}
