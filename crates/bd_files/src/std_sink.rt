//! Standard output, of whose bytes no contract speaks.
ghost use Rattle.std.specs.Prelude.{◌≡◌, []};
ghost use Rattle.bd_disk.specs.Calls.{HasCause};
ghost use Rattle.bd_files.specs.Outside.{CountsFailed};

use crate::Sink;
use bd_disk::{Disk, Failed};
use std::io::{Stdout, Write};
use std::marker::Model;

/// A sink over standard output. It keeps back nothing: what a put took was handed to the system. Contracts see it as how
/// often a put has failed.
#[derive(Drop)]
pub struct StdSink {
    out: Stdout,
    faults: u64,
}

impl Model for StdSink {
    ghost use Rattle.std.specs.Prelude.{ℕ};

    ghost Value = { ℕ };

    ghost view = { λ s. s.faults };
}

impl StdSink {
    /// No put has failed.
    pub fn new(out: Stdout) -> StdSink
        ensures { result ≡ 0 }
    {
        StdSink { out, faults: 0 }
    }
}

impl Sink for StdSink {
    ghost tells = { ⊥ };

    ghost takes = { λ disks history. Unit {0} };

    ghost handed = { λ s. [] };

    ghost faults = { λ s. s };

    fn put<D: Disk>(&mut self, _disk: &D, bytes: &[u8]) -> Result<(), Failed>
        ensures cause { HasCause self.old self.new result }
        ensures counts { CountsFailed self.old self.new result }
    {
        match Write::write_all(&mut self.out, bytes) {
            Ok(()) => Ok(()),
            Err(_) => {
                self.faults = self.faults.saturating_add(1);
                Err(Failed)
            }
        }
    }
}
