//! Bytes of an owner that are put one behind the other, and written many at a time.
ghost use Rattle.std.specs.Prelude.{◌≡◌, ◌+◌, ◌≤◌, [], length, IfOk, OnOk};
ghost use Rattle.bd_disk.specs.Calls.{HasCause};
ghost use Rattle.bd_disk.specs.Runs.{Writes};
ghost use Rattle.bd_model.specs.Sizes.{sizes_of, disk_bytes};
ghost use Rattle.bd_extio.specs.Ranges.{AreExtents, IsWithin};
ghost use Rattle.bd_catalog.specs.Agreement.{InExtents};
ghost use Rattle.bd_intake.specs.Putting.{KeepsPut, PutsBytes, put_count};

use bd_disk::{Disk, Failed};
use bd_extio::write_at;
use bd_model::Shape;
use std::alloc::{AllocError as OutOfMemory, Global};
use std::marker::Model;

/// The most bytes that are held.
const ROOM: usize = 262_144;

/// What was put of an owner's bytes: so many are written, and those behind them are held.
#[derive(Drop)]
pub(crate) struct Pending {
    // room for ROOM bytes
    held: Vec<u8>,
    written: u64,
}

impl Model for Pending {
    ghost use Rattle.std.specs.Prelude.{◌≤◌, vec_capacity};
    ghost use Rattle.bd_intake.specs.Putting.{Held};

    ghost Value = { Held };

    ghost view = { λ p. record { held = p.held.items; written = p.written } };

    ghost invariant = { λ p. 262144 ≤ vec_capacity p.held };
}

impl Pending {
    /// Nothing was put. It takes all its memory here.
    pub(crate) fn none(alloc: Global) -> Result<Pending, OutOfMemory>
        ensures held { IfOk result (λ p. p.held ≡ []) }
        ensures written { IfOk result (λ p. p.written ≡ 0) }
    {
        Ok(Pending {
            held: Vec::with_capacity(alloc, ROOM)?,
            written: 0,
        })
    }

    /// PutsBytes these bytes behind the others. What is held is written before, where they don't fit beside it.
    pub(crate) fn put<D: Disk>(
        &mut self,
        disk: &mut D,
        shape: &Shape,
        extents: &[u32],
        bytes: &[u8],
    ) -> Result<(), Failed>
        requires room { disk_bytes (sizes_of shape.now) ≤ D.bytes disk.old }
        requires numbers { AreExtents (sizes_of shape.now) extents.now }
        requires range { IsWithin (sizes_of shape.now) extents.now self.old.written (length self.old.held) }
        requires short { length bytes.now ≤ 262144 }
        ensures disk { Writes D.Disk (InExtents (sizes_of shape.now) extents.now) disk.old disk.new }
        ensures cause { HasCause (D.faults disk.old) (D.faults disk.new) result }
        ensures count { OnOk result (put_count self.new ≡ put_count self.old + length bytes.now) }
        ensures put { OnOk result (PutsBytes D.Disk (sizes_of shape.now) extents.now bytes.now self.old self.new disk.old disk.new) }
    {
        self.make_room(disk, shape, extents, bytes.len())?;
        let _ = self.held.extend_from_slice(bytes);
        Ok(())
    }

    // Writes what is held, where so many bytes don't fit beside it.
    fn make_room<D: Disk>(
        &mut self,
        disk: &mut D,
        shape: &Shape,
        extents: &[u32],
        more: usize,
    ) -> Result<(), Failed>
        requires room { disk_bytes (sizes_of shape.now) ≤ D.bytes disk.old }
        requires numbers { AreExtents (sizes_of shape.now) extents.now }
        requires range { IsWithin (sizes_of shape.now) extents.now self.old.written (length self.old.held) }
        requires short { more ≤ 262144 }
        ensures disk { Writes D.Disk (InExtents (sizes_of shape.now) extents.now) disk.old disk.new }
        ensures cause { HasCause (D.faults disk.old) (D.faults disk.new) result }
        ensures fits { OnOk result (length self.new.held + more ≤ 262144) }
        ensures count { OnOk result (put_count self.new ≡ put_count self.old) }
        ensures kept { OnOk result (KeepsPut D.Disk (sizes_of shape.now) extents.now self.old self.new disk.old disk.new) }
    {
        if self.held.len() + more > ROOM {
            return self.flush(disk, shape, extents);
        }
        Ok(())
    }

    /// Writes what is held.
    pub(crate) fn flush<D: Disk>(
        &mut self,
        disk: &mut D,
        shape: &Shape,
        extents: &[u32],
    ) -> Result<(), Failed>
        requires room { disk_bytes (sizes_of shape.now) ≤ D.bytes disk.old }
        requires numbers { AreExtents (sizes_of shape.now) extents.now }
        requires range { IsWithin (sizes_of shape.now) extents.now self.old.written (length self.old.held) }
        ensures disk { Writes D.Disk (InExtents (sizes_of shape.now) extents.now) disk.old disk.new }
        ensures cause { HasCause (D.faults disk.old) (D.faults disk.new) result }
        ensures none { OnOk result (self.new.held ≡ []) }
        ensures count { OnOk result (self.new.written ≡ put_count self.old) }
        ensures kept { OnOk result (KeepsPut D.Disk (sizes_of shape.now) extents.now self.old self.new disk.old disk.new) }
    {
        write_at(disk, shape, extents, self.written, &self.held)?;
        self.written += self.held.len() as u64;
        self.held.clear();
        Ok(())
    }
}
