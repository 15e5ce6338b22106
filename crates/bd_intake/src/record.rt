//! The bytes of one chunk: its record, where it is new, and its entry.
ghost use Rattle.std.specs.Prelude.{◌≡◌, ◌+◌, ◌≤◌, length, OnOk, IsTrue, if◌then◌else◌};
ghost use Rattle.bd_disk.specs.Calls.{HasCause};
ghost use Rattle.bd_disk.specs.Runs.{Writes};
ghost use Rattle.bd_model.specs.Marks.{mark};
ghost use Rattle.bd_model.specs.Sizes.{sizes_of, disk_bytes};
ghost use Rattle.bd_extio.specs.Ranges.{AreExtents, IsWithin};
ghost use Rattle.bd_catalog.specs.Agreement.{InExtents};
ghost use Rattle.bd_intake.specs.Places.{AddsEntry, AddsRecord, OwnersAreApart};
ghost use Rattle.bd_intake.specs.Putting.{put_count};
ghost use Rattle.bd_intake.specs.Staging.{WritesOut, staged_extents};

use crate::pending::Pending;
use crate::staging::Staging;
use bd_category::header_bytes;
use bd_disk::{Disk, Failed};
use bd_model::{Mark, RecipeEntry, Shape};
use bd_recipe::entry_bytes;

// Puts the record of a new chunk behind those of the others.
fn put_record<D: Disk>(
    pending: &mut Pending,
    disk: &mut D,
    shape: &Shape,
    extents: &[u32],
    is_new: bool,
    own: &Mark,
    body: &[u8],
) -> Result<(), Failed>
    requires room { disk_bytes (sizes_of shape.now) ≤ D.bytes disk.old }
    requires numbers { AreExtents (sizes_of shape.now) extents.now }
    requires range { IsTrue is_new → IsWithin (sizes_of shape.now) extents.now pending.old.written (length pending.old.held + (36 + length body.now)) }
    requires short { length body.now ≤ 65536 }
    requires marked { own.now.0 ≡ mark body.now }
    ensures disk { Writes D.Disk (InExtents (sizes_of shape.now) extents.now) disk.old disk.new }
    ensures cause { HasCause (D.faults disk.old) (D.faults disk.new) result }
    ensures count { OnOk result (put_count pending.new ≡ put_count pending.old + (if is_new then 36 + length body.now else 0)) }
    ensures put { OnOk result (AddsRecord D.Disk (sizes_of shape.now) extents.now is_new body.now pending.old pending.new disk.old disk.new) }
{
    if !is_new {
        return Ok(());
    }
    let header = header_bytes(body.len() as u32, own);
    pending.put(disk, shape, extents, &header)?;
    pending.put(disk, shape, extents, body)?;
    Ok(())
}

// Puts the entry of a chunk behind those of the others.
fn put_own_entry<D: Disk>(
    pending: &mut Pending,
    disk: &mut D,
    shape: &Shape,
    extents: &[u32],
    entry: &RecipeEntry,
) -> Result<(), Failed>
    requires room { disk_bytes (sizes_of shape.now) ≤ D.bytes disk.old }
    requires numbers { AreExtents (sizes_of shape.now) extents.now }
    requires range { IsWithin (sizes_of shape.now) extents.now pending.old.written (length pending.old.held) }
    ensures disk { Writes D.Disk (InExtents (sizes_of shape.now) extents.now) disk.old disk.new }
    ensures cause { HasCause (D.faults disk.old) (D.faults disk.new) result }
    ensures count { OnOk result (put_count pending.new ≡ put_count pending.old + 40) }
    ensures put { OnOk result (AddsEntry D.Disk (sizes_of shape.now) extents.now entry.now pending.old pending.new disk.old disk.new) }
{
    let bytes = entry_bytes(entry);
    pending.put(disk, shape, extents, &bytes)?;
    Ok(())
}

/// Puts what a chunk brings: its record where it is new, and its entry.
pub(crate) fn put_parts<D: Disk>(
    disk: &mut D,
    shape: &Shape,
    staging: &mut Staging,
    is_new: bool,
    entry: &RecipeEntry,
    body: &[u8],
) -> Result<(), Failed>
    requires room { disk_bytes (sizes_of shape.now) ≤ D.bytes disk.old }
    requires numbers { OwnersAreApart (sizes_of shape.now) staging.old.recipe.numbers staging.old.fresh.numbers }
    requires record_range { IsTrue is_new → IsWithin (sizes_of shape.now) staging.old.fresh.numbers staging.old.records.written (length staging.old.records.held + (36 + length body.now)) }
    requires entry_range { IsWithin (sizes_of shape.now) staging.old.recipe.numbers staging.old.entries.written (length staging.old.entries.held) }
    requires short { length body.now ≤ 65536 }
    requires marked { entry.now.mark.0 ≡ mark body.now }
    ensures disk { Writes D.Disk (InExtents (sizes_of shape.now) (staged_extents staging.old)) disk.old disk.new }
    ensures cause { HasCause (D.faults disk.old) (D.faults disk.new) result }
    ensures same { staging.new ≡ record staging.old { records = staging.new.records; entries = staging.new.entries } }
    ensures record_count { OnOk result (put_count staging.new.records ≡ put_count staging.old.records + (if is_new then 36 + length body.now else 0)) }
    ensures entry_count { OnOk result (put_count staging.new.entries ≡ put_count staging.old.entries + 40) }
    ensures records { OnOk result (AddsRecord D.Disk (sizes_of shape.now) staging.old.fresh.numbers is_new body.now staging.old.records staging.new.records disk.old disk.new) }
    ensures entries { OnOk result (AddsEntry D.Disk (sizes_of shape.now) staging.old.recipe.numbers entry.now staging.old.entries staging.new.entries disk.old disk.new) }
{
    put_record(
        &mut staging.records,
        disk,
        shape,
        staging.fresh.numbers(),
        is_new,
        &entry.mark,
        body,
    )?;
    put_own_entry(
        &mut staging.entries,
        disk,
        shape,
        staging.recipe.numbers(),
        entry,
    )?;
    Ok(())
}

/// Writes all that was put and is held.
pub(crate) fn write_out<D: Disk>(
    disk: &mut D,
    shape: &Shape,
    staging: &mut Staging,
) -> Result<(), Failed>
    requires room { disk_bytes (sizes_of shape.now) ≤ D.bytes disk.old }
    requires numbers { OwnersAreApart (sizes_of shape.now) staging.old.recipe.numbers staging.old.fresh.numbers }
    requires record_range { IsWithin (sizes_of shape.now) staging.old.fresh.numbers staging.old.records.written (length staging.old.records.held) }
    requires entry_range { IsWithin (sizes_of shape.now) staging.old.recipe.numbers staging.old.entries.written (length staging.old.entries.held) }
    ensures disk { Writes D.Disk (InExtents (sizes_of shape.now) (staged_extents staging.old)) disk.old disk.new }
    ensures cause { HasCause (D.faults disk.old) (D.faults disk.new) result }
    ensures same { staging.new ≡ record staging.old { records = staging.new.records; entries = staging.new.entries } }
    ensures record_count { OnOk result (put_count staging.new.records ≡ put_count staging.old.records) }
    ensures entry_count { OnOk result (put_count staging.new.entries ≡ put_count staging.old.entries) }
    ensures written { OnOk result (WritesOut D.Disk (sizes_of shape.now) staging.old staging.new disk.old disk.new) }
{
    staging.records.flush(disk, shape, staging.fresh.numbers())?;
    staging
        .entries
        .flush(disk, shape, staging.recipe.numbers())?;
    Ok(())
}
