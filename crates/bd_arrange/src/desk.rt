//! What arranging has at work before its commit.
ghost use Rattle.std.specs.Prelude.{◌≡◌, ◌+◌, ◌≤◌, ◌^◌, ◌↔◌, [], ◌∷◌, All, IfOk, IsTrue, OnErr, OnOk, length, max};
ghost use Rattle.bd_disk.specs.Calls.{FailsByCount};
ghost use Rattle.bd_disk.specs.History.{contents};
ghost use Rattle.bd_disk.specs.Runs.{Works};
ghost use Rattle.bd_model.specs.Room.{up};
ghost use Rattle.bd_model.specs.Sizes.{sizes_of, disk_bytes};
ghost use Rattle.bd_space.specs.Allotment.{extent_count, free_count};
ghost use Rattle.bd_roll.specs.Catalogue.{Catalogue, bytes_of_rows};
ghost use Rattle.bd_catalog.specs.Rows.{open_row};
ghost use Rattle.bd_roll.specs.Shown.{open_entry};
ghost use Rattle.bd_roll.specs.Steps.{fresh_actives};
ghost use Rattle.bd_recipe.specs.Reading.{IfDamaged, is_disk_fault_of_read};
ghost use Rattle.bd_volume.specs.Growing.{CanGrow, Takes, is_disk_fault_of_append as is_append_fault};
ghost use Rattle.bd_arrange.specs.Cuts.{InCategory, IsCutOf, IsDamageIn};
ghost use Rattle.bd_arrange.specs.Desks.{InRoom, IsCategory, KeepsExtents, Turned};
ghost use Rattle.bd_arrange.specs.Moving.{CanSplit, SplitsBy, as_read, kept_actives};

use crate::cut::{Cut, Tally, tell_apart};
use crate::moving::{Errand, move_stretches};
use bd_catalog::{ActiveCategory, ClosedVolume, SplitRow, Splits};
use bd_disk::Disk;
use bd_model::{CategoryRow, Shape};
use bd_recipe::{Neighbour, ReadFault};
use bd_space::{Owned, Space};
use bd_volume::{AppendFault, Filling};
use std::alloc::{AllocError as OutOfMemory, Global};
use std::marker::Model;

/// The bytes of the buffer through which records are moved.
const BUFFER: usize = 1 << 20;

/// The newest closed volume while it grows, and what is kept of the categories that were split. Contracts see both.
#[derive(Drop)]
pub(crate) struct Desk {
    alloc: Global,
    pub(crate) filling: Filling,
    pub(crate) splits: Splits,
    oldest: u32,
    buffer: Vec<u8>,
}

impl Model for Desk {
    ghost use Rattle.std.specs.Prelude.{◌≡◌, ◌≤◌, length, map};
    ghost use Rattle.bd_roll.specs.Steps.{kept_entry};
    ghost use Rattle.bd_arrange.specs.Desks.{OnDesk};

    ghost Value = { OnDesk };

    ghost view = { λ d. record { filling = d.filling; splits = map kept_entry d.splits.items } };

    ghost invariant = { λ d. (1 ≤ length d.buffer.items) × (d.oldest ≡ d.filling.oldest) };
}

impl Desk {
    /// The volume as it is, and no split. It takes the buffer.
    pub(crate) fn new(
        alloc: Global,
        volume: &ClosedVolume,
        oldest: u32,
    ) -> Result<Desk, OutOfMemory>
        ensures rows { IfOk result (λ desk. desk.filling.rows ≡ volume.now.rows.items) }
        ensures numbers { IfOk result (λ desk. desk.filling.numbers ≡ volume.now.extents.numbers) }
        ensures added { IfOk result (λ desk. desk.filling.added ≡ []) }
        ensures oldest { IfOk result (λ desk. desk.filling.oldest ≡ oldest) }
        ensures splits { IfOk result (λ desk. desk.splits ≡ []) }
    {
        let filling = Filling::of(alloc, volume, oldest)?;
        let buffer = vec![in alloc; 0u8; BUFFER]?;
        Ok(Desk {
            alloc,
            filling,
            splits: Splits::new(alloc),
            oldest,
            buffer,
        })
    }

    /// Gives an open category its turn: it is split where something of it is archived, no row of the volume begins later, and
    /// free extents suffice, and is left else. Also after a refusal each extent that it took is the desk's, or free again.
    pub(crate) fn arrange_category<D: Disk>(
        &mut self,
        disk: &mut D,
        shape: &Shape,
        space: &mut Space,
        category: &ActiveCategory,
        neighbour: &Neighbour,
    ) -> Result<(), ReadFault>
        requires room { disk_bytes (sizes_of shape.now) ≤ D.bytes disk.old }
        requires category { IsCategory (sizes_of shape.now) space.old self.old (open_entry category.now) }
        requires grows { CanGrow (sizes_of shape.now) space.old self.old.filling }
        ensures disk { Works D.Disk (InCategory (sizes_of shape.now) (open_entry category.now)) (InRoom (sizes_of shape.now) space.old self.old) disk.old disk.new }
        ensures cause { FailsByCount is_disk_fault_of_read (D.faults disk.old) (D.faults disk.new) result }
        ensures extents { KeepsExtents space.old space.new self.old self.new }
        ensures grows { OnOk result (CanGrow (sizes_of shape.now) space.new self.new.filling) }
        ensures turned { OnOk result (Turned D.Disk (sizes_of shape.now) neighbour.now.entries (open_entry category.now) (free_count space.old) self.old self.new disk.old disk.new) }
        ensures damage { IfDamaged result (λ damage. D.tells → (c : Catalogue) →
            IsDamageIn (sizes_of shape.now) c (contents (D.history disk.old)) (open_row (open_entry category.now) ∷ []) damage (D.history disk.old) (D.history disk.new)) }
    {
        let cut = tell_apart(self.alloc, disk, shape, category, neighbour)?;
        let latest = category.row.start.max(self.oldest);
        if !may_split(shape, space.free(), &self.filling, latest, &cut) {
            return Ok(());
        }
        match self.split(disk, shape, space, category, &cut) {
            Ok(()) => Ok(()),
            Err(fault) => Err(read_fault(fault)),
        }
    }

    // Splits the category so. Where that is refused the extents for what is kept are free again, and those that were added to
    // the volume are the desk's.
    fn split<D: Disk>(
        &mut self,
        disk: &mut D,
        shape: &Shape,
        space: &mut Space,
        category: &ActiveCategory,
        cut: &Cut,
    ) -> Result<(), AppendFault>
        requires room { disk_bytes (sizes_of shape.now) ≤ D.bytes disk.old }
        requires category { IsCategory (sizes_of shape.now) space.old self.old (open_entry category.now) }
        requires grows { CanGrow (sizes_of shape.now) space.old self.old.filling }
        requires cut { IsCutOf (sizes_of shape.now) category.now.row cut.now }
        requires may { CanSplit (sizes_of shape.now) (free_count space.old) self.old.filling (max category.now.row.start self.old.filling.oldest) cut.now }
        ensures disk { Works D.Disk (InCategory (sizes_of shape.now) (open_entry category.now)) (InRoom (sizes_of shape.now) space.old self.old) disk.old disk.new }
        ensures cause { FailsByCount is_append_fault (D.faults disk.old) (D.faults disk.new) result }
        ensures extents { KeepsExtents space.old space.new self.old self.new }
        ensures grows { OnOk result (CanGrow (sizes_of shape.now) space.new self.new.filling) }
        ensures splits { OnOk result (SplitsBy D.Disk (sizes_of shape.now) (open_entry category.now) cut.now self.old self.new disk.old disk.new) }
    {
        let start = category.row.start;
        self.splits.reserve(1)?;
        let kept = take_extents(self.alloc, shape, space, cut.kept.bytes)?;
        let errand = Errand {
            start,
            from: category.extents.numbers(),
            stretches: cut.stretches.as_slice(),
            to: kept.numbers(),
        };
        let moved = move_stretches(
            disk,
            shape,
            space,
            &mut self.filling,
            &errand,
            &mut self.buffer,
        );
        if let Err(fault) = moved {
            space.give_back(kept);
            return Err(fault);
        }
        self.splits.push(SplitRow {
            start,
            kept: kept_category(start, cut.kept, kept),
        });
        Ok(())
    }
}

// Whether a category is split so: something is archived, no row begins later than this, and so many free extents suffice.
fn may_split(shape: &Shape, free: u32, filling: &Filling, latest: u32, cut: &Cut) -> bool
    requires volume { bytes_of_rows filling.now.rows ≤ 2 ^ 40 }
    requires archived { cut.now.archived.bytes ≤ 2 ^ 40 }
    requires kept { cut.now.kept.bytes ≤ 2 ^ 40 }
    ensures { IsTrue result ↔ CanSplit (sizes_of shape.now) free filling.now latest cut.now }
{
    if cut.archived.chunks == 0 || !none_later(filling.rows(), latest) {
        return false;
    }
    let extent = u64::from(shape.extent());
    let volume = (filling.bytes() + cut.archived.bytes).div_ceil(extent);
    let kept = cut.kept.bytes.div_ceil(extent);
    volume + kept <= filling.numbers().len() as u64 + u64::from(free)
}

// Whether no row begins later than this.
fn none_later(rows: &[CategoryRow], latest: u32) -> bool
    ensures { IsTrue result ↔ All (λ row. row.start ≤ latest) rows.now }
{
    rows.iter().all(|row| row.start <= latest)
}

// The extents for so many bytes, the lowest that are free. They are taken then.
fn take_extents(
    alloc: Global,
    shape: &Shape,
    space: &mut Space,
    bytes: u64,
) -> Result<Owned, OutOfMemory>
    requires free { up shape.now.extent bytes ≤ free_count space.old }
    requires count { extent_count space.old ≡ shape.now.extents }
    ensures takes { IfOk result (λ owned. Takes owned.numbers space.old space.new) }
    ensures sized { IfOk result (λ owned. length owned.numbers ≡ up shape.now.extent bytes) }
    ensures refused { OnErr result (space.new ≡ space.old) }
{
    let count = bytes.div_ceil(u64::from(shape.extent())) as u32;
    let mut owned = Owned::none(alloc);
    if space.extend(&mut owned, count).is_err() {
        return Err(OutOfMemory);
    }
    Ok(owned)
}

// What stands in place of a category of which so much is kept, in these extents.
fn kept_category(start: u32, kept: Tally, extents: Owned) -> Option<ActiveCategory>
    ensures { fresh_actives result ≡ kept_actives start kept extents.numbers }
{
    if kept.chunks == 0 {
        return None;
    }
    Some(ActiveCategory {
        row: CategoryRow {
            start,
            chunks: kept.chunks,
            bytes: kept.bytes,
        },
        extents,
    })
}

// Why nothing was moved, as a reader says it.
fn read_fault(fault: AppendFault) -> ReadFault
    ensures { result ≡ as_read fault }
{
    match fault {
        AppendFault::DiskFault => ReadFault::DiskFault,
        AppendFault::OutOfMemory => ReadFault::OutOfMemory,
    }
}
