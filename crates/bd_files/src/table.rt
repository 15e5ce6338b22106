//! Bytes under names, in the names' order.
ghost use Rattle.std.specs.Prelude.{◌≡◌, ◌+◌, ◌≤◌, ℕ, List, length, replicate, OnOk, OnErr};
ghost use Rattle.std.specs.Option.{option_map};
ghost use Rattle.std.specs.FinMap as map;
ghost use Rattle.bd_disk.specs.Images.{overwritten};
ghost use Rattle.bd_files.specs.Files.{Holds};

use std::alloc::{AllocError, Global};
use std::collections::BTreeMap;
use std::marker::Model;

#[derive(Drop)]
pub(crate) struct Table {
    files: BTreeMap<Vec<u8>, Vec<u8>>,
}

impl Model for Table {
    ghost use Rattle.bd_model.specs.FileMap.{FileMap};
    ghost use Rattle.bd_files.specs.Table.{coded_files, file_map};

    ghost Value = { FileMap };

    ghost coded = { coded_files };

    ghost view = { λ t. file_map t.files.entries };
}

// Writes bytes over others that are there.
fn overwrite(into: &mut [u8], at: usize, from: &[u8])
    requires { at + length from.now ≤ length into.old }
    ensures { into.new ≡ overwritten into.old at from.now }
{
    into[at..at + from.len()].copy_from_slice(from);
}

impl Table {
    pub(crate) fn new(alloc: Global) -> Table
        ensures { result ≡ map.empty }
    {
        Table {
            files: BTreeMap::new(alloc),
        }
    }

    pub(crate) fn get(&self, name: &[u8]) -> Option<&[u8]>
        ensures { option_map (λ bytes. bytes.now) result ≡ map.get self.now name.now }
    {
        match self.files.get(name) {
            Some(bytes) => Some(bytes.as_slice()),
            None => None,
        }
    }

    // Puts these bytes under the name, in place of any that were there.
    pub(crate) fn insert(
        &mut self,
        alloc: Global,
        name: &[u8],
        bytes: Vec<u8>,
    ) -> Result<(), AllocError>
        ensures ok { OnOk result (self.new ≡ map.insert self.old name.now bytes.items) }
        ensures err { OnErr result (self.new ≡ self.old) }
    {
        let key = name.to_vec(alloc)?;
        self.files.insert(key, bytes)?;
        Ok(())
    }

    // Puts so many bytes of 0 under the name, in place of any that were there.
    pub(crate) fn insert_zeros(
        &mut self,
        alloc: Global,
        name: &[u8],
        length: usize,
    ) -> Result<(), AllocError>
        ensures ok { OnOk result (self.new ≡ map.insert self.old name.now (replicate length 0)) }
        ensures err { OnErr result (self.new ≡ self.old) }
    {
        let zeros = vec![in alloc; 0u8; length]?;
        self.insert(alloc, name, zeros)
    }

    // Writes over bytes of a file that is there.
    pub(crate) fn overwrite(&mut self, name: &[u8], at: usize, from: &[u8])
        requires there { (old : List ℕ) × Holds self.old name.now old × (at + length from.now ≤ length old) }
        ensures { (old : List ℕ) → Holds self.old name.now old → self.new ≡ map.insert self.old name.now (overwritten old at from.now) }
    {
        if let Some(bytes) = self.files.get_mut(name) {
            overwrite(bytes.as_mut_slice(), at, from);
        }
    }
}
