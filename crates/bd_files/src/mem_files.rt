//! Files in memory, which tell everything.
ghost use Rattle.std.specs.Prelude.{◌≡◌, ◌+◌, ◌-◌, ◌*◌, ◌≤◌, ◌↔◌, ◌⊎◌, ℕ, List, length, min, take, drop, replicate, IfOk, OnOk, OnErr, IsErr, Some};
ghost use Rattle.std.specs.Option.{option_map};
ghost use Rattle.std.specs.FinMap as map;
ghost use Rattle.bd_disk.specs.Calls.{HasCause, Rose, one_more};
ghost use Rattle.bd_disk.specs.Images.{bytes_at, overwritten};
ghost use Rattle.bd_files.specs.Fakes.{CountsOneCall, CountsRefused, FailsNext, no_files};
ghost use Rattle.bd_files.specs.Files.{Begins, ChangesOnly, CountsStrays, Fetches, Finishes, Holds, Lacks};

use crate::calls::Calls;
use crate::names::Names;
use crate::table::Table;
use crate::{Files, OutOfMemory};
use bd_disk::Failed;
use bd_model::Name;
use std::alloc::{AllocError, Global};
use std::marker::Model;

/// Files in memory, which tell everything.
#[derive(Drop)]
pub struct MemFiles {
    alloc: Global,
    table: Table,
    unfinished: Names,
    fetches: Calls,
    targets: Calls,
    strays: u64,
    refused: u64,
}

impl Model for MemFiles {
    ghost use Rattle.bd_files.specs.Fakes.{FilesState, coded_state};

    ghost Value = { FilesState };

    ghost coded = { coded_state };

    ghost view = { λ f. record { files = f.table; unfinished = f.unfinished; fetches = record { made = f.fetches.made; failing = f.fetches.failing; faults = f.fetches.faults }; targets = record { made = f.targets.made; failing = f.targets.failing; faults = f.targets.faults }; strays = f.strays; refused = f.refused } };
}

// Copies as many bytes as there are from a place on and fit.
fn copy_part(from: &[u8], at: u64, into: &mut [u8]) -> usize
    ensures count { result ≡ min (length into.old) (length from.now - at) }
    ensures bytes { take result into.new ≡ bytes_at at result from.now }
    ensures rest { drop result into.new ≡ drop result into.old }
{
    let start = at.min(from.len() as u64) as usize;
    let count = into.len().min(from.len() - start);
    into[..count].copy_from_slice(&from[start..start + count]);
    count
}

// Notes the name as begun, and puts so many bytes of 0 under it.
fn begin_zeros(
    alloc: Global,
    table: &mut Table,
    unfinished: &mut Names,
    name: &[u8],
    length: usize,
) -> Result<(), AllocError>
    ensures ok { OnOk result (table.new ≡ map.insert table.old name.now (replicate length 0)) }
    ensures err { OnErr result (table.new ≡ table.old) }
    ensures unfinished { Begins name.now unfinished.old unfinished.new result }
{
    unfinished.add(alloc, name)?;
    table.insert_zeros(alloc, name, length)
}

impl MemFiles {
    /// No file, and no fault to come.
    pub fn new(alloc: Global) -> MemFiles
        ensures { result ≡ no_files }
    {
        MemFiles {
            alloc,
            table: Table::new(alloc),
            unfinished: Names::new(alloc),
            fetches: Calls::new(),
            targets: Calls::new(),
            strays: 0,
            refused: 0,
        }
    }

    /// Puts these bytes under the name, in place of any that were there.
    pub fn add(&mut self, name: &Name, bytes: &[u8]) -> Result<(), OutOfMemory>
        ensures ok { OnOk result (self.new ≡ record self.old { files = map.insert self.old.files name.now bytes.now }) }
        ensures err { OnErr result (self.new ≡ self.old) }
    {
        let copy = bytes.to_vec(self.alloc)?;
        self.table.insert(self.alloc, name.text().as_bytes(), copy)
    }

    /// The bytes under the name; none where nothing is there.
    pub fn bytes_of(&self, name: &Name) -> Option<&[u8]>
        ensures { option_map (λ bytes. bytes.now) result ≡ map.get self.now.files name.now }
    {
        self.table.get(name.text().as_bytes())
    }

    /// How often no room was given for a file that was to begin.
    pub fn refused(&self) -> u64
        ensures { result ≡ self.now.refused }
    {
        self.refused
    }

    /// The fetch of this number, counted from 0, will fail. The last number set holds.
    pub fn fail_fetch(&mut self, call: u64)
        ensures { self.new ≡ record self.old { fetches = record self.old.fetches { failing = Some call } } }
    {
        self.fetches.failing = Some(call);
    }

    /// The call of this number that begins, changes or finishes a file will fail: these are counted together from 0. The
    /// last number set holds.
    pub fn fail_target(&mut self, call: u64)
        ensures { self.new ≡ record self.old { targets = record self.old.targets { failing = Some call } } }
    {
        self.targets.failing = Some(call);
    }
}

impl Files for MemFiles {
    ghost tells = { Unit {0} };

    ghost files = { λ f. f.files };

    ghost unfinished = { λ f. f.unfinished };

    ghost source_faults = { λ f. f.fetches.faults };

    ghost target_faults = { λ f. f.targets.faults };

    ghost strays = { λ f. f.strays };

    fn fetch(&mut self, name: &Name, at: u64, into: &mut [u8]) -> Result<usize, Failed>
        ensures cause { HasCause self.old.fetches.faults self.new.fetches.faults result }
        ensures targets { self.new.targets.faults ≡ self.old.targets.faults }
        ensures within { IfOk result (λ n. n ≤ length into.old) }
        ensures read { IfOk result (λ n. Fetches self.old.files name.now at (length into.old) n into.new) }
        ensures missing { Lacks self.old.files name.now → IsErr result }
        ensures strays { CountsStrays self.old.files name.now self.old.strays self.new.strays }
        ensures same { self.new.files ≡ self.old.files }
        ensures unfinished { self.new.unfinished ≡ self.old.unfinished }

        // It fails where it was set to, where no room can be counted as refused, or where the name is missing.
        ensures fails { IsErr result ↔ (FailsNext self.old.fetches ⊎ (Rose self.old.refused self.new.refused ⊎ Lacks self.old.files name.now)) }
        ensures whole { IfOk result (λ n. (bytes : List ℕ) → Holds self.old.files name.now bytes → n ≡ min (length into.old) (length bytes - at)) }
        ensures rest { IfOk result (λ n. drop n into.new ≡ drop n into.old) }
        ensures untouched { OnErr result (into.new ≡ into.old) }
        ensures counts { CountsOneCall self.old.fetches self.new.fetches result }
        ensures one_stray { Lacks self.old.files name.now → self.new.strays ≡ one_more self.old.strays }
        ensures stays { self.new ≡ record self.old { fetches = self.new.fetches; strays = self.new.strays } }
    {
        let fails = self.fetches.count() || self.refused == u64::MAX;
        match self.table.get(name.text().as_bytes()) {
            None => {
                self.strays = self.strays.saturating_add(1);
                Err(self.fetches.fail())
            }
            Some(bytes) => {
                if fails {
                    return Err(self.fetches.fail());
                }
                Ok(copy_part(bytes, at, into))
            }
        }
    }

    fn begin(&mut self, name: &Name, length: u64) -> Result<(), Failed>
        ensures cause { HasCause self.old.targets.faults self.new.targets.faults result }
        ensures sources { self.new.fetches.faults ≡ self.old.fetches.faults }
        ensures strays { self.new.strays ≡ self.old.strays }
        ensures ok { OnOk result (self.new.files ≡ map.insert self.old.files name.now (replicate length 0)) }
        ensures others { ChangesOnly name.now self.old.files self.new.files }
        ensures unfinished { Begins name.now self.old.unfinished self.new.unfinished result }

        // It fails where it was set to, or where no room is given, and then changes no file.
        ensures fails { IsErr result ↔ (FailsNext self.old.targets ⊎ Rose self.old.refused self.new.refused) }
        ensures err { OnErr result (self.new.files ≡ self.old.files) }
        ensures counts { CountsOneCall self.old.targets self.new.targets result }
        ensures refused { CountsRefused self.old.targets self.old.refused self.new.refused result }
        ensures stays { self.new ≡ record self.old { files = self.new.files; unfinished = self.new.unfinished; targets = self.new.targets; refused = self.new.refused } }
    {
        if self.targets.count() || self.refused == u64::MAX {
            return Err(self.targets.fail());
        }
        let table = &mut self.table;
        let unfinished = &mut self.unfinished;
        match begin_zeros(
            self.alloc,
            table,
            unfinished,
            name.text().as_bytes(),
            length as usize,
        ) {
            Ok(()) => Ok(()),
            Err(_) => {
                self.refused += 1;
                Err(self.targets.fail())
            }
        }
    }

    fn put(&mut self, name: &Name, at: u64, bytes: &[u8]) -> Result<(), Failed>
        requires there { (old : List ℕ) × Holds self.old.files name.now old × (at + length bytes.now ≤ length old) }
        ensures cause { HasCause self.old.targets.faults self.new.targets.faults result }
        ensures sources { self.new.fetches.faults ≡ self.old.fetches.faults }
        ensures strays { self.new.strays ≡ self.old.strays }
        ensures ok { OnOk result ((old : List ℕ) → Holds self.old.files name.now old → self.new.files ≡ map.insert self.old.files name.now (overwritten old at bytes.now)) }
        ensures others { ChangesOnly name.now self.old.files self.new.files }
        ensures unfinished { Begins name.now self.old.unfinished self.new.unfinished result }

        // It fails where it was set to, or where no room is given, and then changes no file.
        ensures fails { IsErr result ↔ (FailsNext self.old.targets ⊎ Rose self.old.refused self.new.refused) }
        ensures err { OnErr result (self.new.files ≡ self.old.files) }
        ensures counts { CountsOneCall self.old.targets self.new.targets result }
        ensures refused { CountsRefused self.old.targets self.old.refused self.new.refused result }
        ensures stays { self.new ≡ record self.old { files = self.new.files; unfinished = self.new.unfinished; targets = self.new.targets; refused = self.new.refused } }
    {
        if self.targets.count() || self.refused == u64::MAX {
            return Err(self.targets.fail());
        }
        if self
            .unfinished
            .add(self.alloc, name.text().as_bytes())
            .is_err()
        {
            self.refused += 1;
            return Err(self.targets.fail());
        }
        self.table
            .overwrite(name.text().as_bytes(), at as usize, bytes);
        Ok(())
    }

    fn finish(&mut self, name: &Name) -> Result<(), Failed>
        ensures cause { HasCause self.old.targets.faults self.new.targets.faults result }
        ensures sources { self.new.fetches.faults ≡ self.old.fetches.faults }
        ensures strays { self.new.strays ≡ self.old.strays }
        ensures same { self.new.files ≡ self.old.files }
        ensures unfinished { Finishes name.now self.old.unfinished self.new.unfinished result }

        // It fails where it was set to, or where no room can be counted as refused.
        ensures fails { IsErr result ↔ (FailsNext self.old.targets ⊎ Rose self.old.refused self.new.refused) }
        ensures counts { CountsOneCall self.old.targets self.new.targets result }
        ensures stays { self.new ≡ record self.old { unfinished = self.new.unfinished; targets = self.new.targets } }
    {
        if self.targets.count() || self.refused == u64::MAX {
            return Err(self.targets.fail());
        }
        self.unfinished.remove(name.text().as_bytes());
        Ok(())
    }
}
