//! A sink in memory, which tells everything.
ghost use Rattle.std.specs.Prelude.{◌≡◌, ◌↔◌, ◌⊎◌, OnOk, OnErr, IsErr, Some};
ghost use Rattle.bd_disk.specs.Calls.{HasCause, Rose};
ghost use Rattle.bd_disk.specs.History.{clock};
ghost use Rattle.bd_files.specs.Fakes.{CountsOneCall, CountsRefused, FailsNext, empty_sink};
ghost use Rattle.bd_files.specs.Sinks.{HandsOn, HandsPart, moments_of, written_of};

use crate::Sink;
use crate::calls::Calls;
use crate::texts::Texts;
use bd_disk::{Disk, Failed};
use std::alloc::Global;
use std::marker::Model;

/// A sink in memory, which tells everything.
#[derive(Drop)]
pub struct MemSink {
    texts: Texts,
    puts: Calls,
    refused: u64,
}

impl Model for MemSink {
    ghost use Rattle.bd_files.specs.Fakes.{SinkState};

    ghost Value = { SinkState };

    ghost view = { λ s. record { handed = s.texts; puts = record { made = s.puts.made; failing = s.puts.failing; faults = s.puts.faults }; refused = s.refused } };
}

impl MemSink {
    /// Nothing written, and no fault to come.
    pub fn new(alloc: Global) -> MemSink
        ensures { result ≡ empty_sink }
    {
        MemSink {
            texts: Texts::new(alloc),
            puts: Calls::new(),
            refused: 0,
        }
    }

    /// All bytes that were taken.
    pub fn written(&self) -> &[u8]
        ensures { result.now ≡ written_of self.now.handed }
    {
        self.texts.written()
    }

    /// The clock of the disk at each put that answered Ok.
    pub fn moments(&self) -> &[u64]
        ensures { result.now ≡ moments_of self.now.handed }
    {
        self.texts.moments()
    }

    /// How often no room was given for a put.
    pub fn refused(&self) -> u64
        ensures { result ≡ self.now.refused }
    {
        self.refused
    }

    /// The put of this number, counted from 0, will fail. The last number set holds.
    pub fn fail_at(&mut self, call: u64)
        ensures { self.new ≡ record self.old { puts = record self.old.puts { failing = Some call } } }
    {
        self.puts.failing = Some(call);
    }
}

impl Sink for MemSink {
    ghost tells = { Unit {0} };

    ghost takes = { λ disks history. Unit {0} };

    ghost handed = { λ s. s.handed };

    ghost faults = { λ s. s.puts.faults };

    fn put<D: Disk>(&mut self, disk: &D, bytes: &[u8]) -> Result<(), Failed>
        ensures cause { HasCause self.old.puts.faults self.new.puts.faults result }
        ensures ok { OnOk result (HandsOn D.tells (clock (D.history disk.now)) bytes.now self.old.handed self.new.handed) }
        ensures part { OnErr result (HandsPart bytes.now self.old.handed self.new.handed) }

        // It fails where it was set to, or where no room is given, and then takes nothing.
        ensures fails { IsErr result ↔ (FailsNext self.old.puts ⊎ Rose self.old.refused self.new.refused) }
        ensures unwritten { OnErr result (self.new.handed ≡ self.old.handed) }
        ensures counts { CountsOneCall self.old.puts self.new.puts result }
        ensures refused { CountsRefused self.old.puts self.old.refused self.new.refused result }
    {
        if self.puts.count() || self.refused == u64::MAX {
            return Err(self.puts.fail());
        }
        match self.texts.add(bytes, disk.clock()) {
            Ok(()) => Ok(()),
            Err(_) => {
                self.refused += 1;
                Err(self.puts.fail())
            }
        }
    }
}
