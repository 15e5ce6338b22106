//! The records of an open category, told apart.
ghost use Rattle.std.specs.Prelude.{◌≡◌, ◌+◌, ◌^◌, ◌<◌, ◌≤◌, [], ◌∷◌, sum_by, IfOk, IsTrue, OnOk};
ghost use Rattle.bd_disk.specs.Calls.{FailsByCount};
ghost use Rattle.bd_disk.specs.History.{contents};
ghost use Rattle.bd_disk.specs.Runs.{Reads};
ghost use Rattle.bd_model.specs.Sizes.{sizes_of, disk_bytes};
ghost use Rattle.bd_extio.specs.Ranges.{AreExtents};
ghost use Rattle.bd_roll.specs.Catalogue.{Catalogue};
ghost use Rattle.bd_catalog.specs.Rows.{open_row, spot_in};
ghost use Rattle.bd_roll.specs.Rules.{active_holds};
ghost use Rattle.bd_roll.specs.Shown.{open_entry};
ghost use Rattle.bd_recipe.specs.Reading.{IfDamaged, is_disk_fault_of_read};
ghost use Rattle.bd_volume.specs.Headers.{IsRefusedAt};
ghost use Rattle.bd_arrange.specs.Cuts.{AddsUp, HasRoomFor, InCategory, IsCutOf, IsDamageIn, IsFoundAt, IsInside, IsRecord, Joins, PutsStretch, TellsApart, read_fault_of, more_of};

use bd_catalog::ActiveCategory;
use bd_category::{CategoryFault, read_header};
use bd_disk::Disk;
use bd_model::{Damage, Owner, Sequence, Shape};
use bd_recipe::{Neighbour, ReadFault};
use std::alloc::{AllocError as OutOfMemory, Global};

/// Records that lie end to end and all go the same way.
#[derive(Clone, Copy)]
pub(crate) struct Stretch {
    pub(crate) bytes: u64,
    pub(crate) chunks: u64,
    /// Whether the newest version uses them.
    pub(crate) kept: bool,
}

/// How many records there are, and their bytes.
#[derive(Clone, Copy)]
pub(crate) struct Tally {
    pub(crate) chunks: u64,
    pub(crate) bytes: u64,
}

/// The records of an open category, told apart.
#[derive(Drop)]
pub(crate) struct Cut {
    /// In the order in which they lie.
    pub(crate) stretches: Sequence<Stretch>,
    /// All that the newest version uses.
    pub(crate) kept: Tally,
    /// All others.
    pub(crate) archived: Tally,
}

impl Tally {
    // Of no record.
    fn none() -> Tally
        ensures { result ≡ record { chunks = 0; bytes = 0 } }
    {
        Tally {
            chunks: 0,
            bytes: 0,
        }
    }

    // With those of the stretch.
    fn with(self, more: Stretch) -> Tally
        requires chunks { self.chunks + more.chunks < 2 ^ 64 }
        requires bytes { self.bytes + more.bytes < 2 ^ 64 }
        ensures { result ≡ more_of self more }
    {
        Tally {
            chunks: self.chunks + more.chunks,
            bytes: self.bytes + more.bytes,
        }
    }
}

impl Cut {
    // Of no record. It takes no memory.
    fn none(alloc: Global) -> Cut
        ensures stretches { result.stretches.items ≡ [] }
        ensures kept { result.kept ≡ record { chunks = 0; bytes = 0 } }
        ensures archived { result.archived ≡ record { chunks = 0; bytes = 0 } }
    {
        Cut {
            stretches: Sequence::new(alloc),
            kept: Tally::none(),
            archived: Tally::none(),
        }
    }

    // PutsStretch a stretch behind the others.
    fn put(&mut self, more: Stretch) -> Result<(), OutOfMemory>
        requires sums { AddsUp self.old }
        requires room { HasRoomFor self.old more }
        ensures { OnOk result (PutsStretch self.old more self.new) }
    {
        put_stretch(&mut self.stretches, more)?;
        if more.kept {
            self.kept = self.kept.with(more);
        } else {
            self.archived = self.archived.with(more);
        }
        Ok(())
    }
}

// PutsStretch a stretch behind others: the last of them is lengthened where it goes the same way.
fn put_stretch(stretches: &mut Sequence<Stretch>, more: Stretch) -> Result<(), OutOfMemory>
    requires chunks { sum_by (λ x. x.chunks) stretches.old.items + more.chunks < 2 ^ 64 }
    requires bytes { sum_by (λ x. x.bytes) stretches.old.items + more.bytes < 2 ^ 64 }
    ensures { OnOk result (Joins stretches.old.items more stretches.new.items) }
{
    stretches.reserve(1)?;
    let Some(last) = stretches.pop() else {
        stretches.push(more);
        return Ok(());
    };
    if last.kept == more.kept {
        stretches.push(Stretch {
            bytes: last.bytes + more.bytes,
            chunks: last.chunks + more.chunks,
            ..last
        });
        return Ok(());
    }
    stretches.push(last);
    stretches.push(more);
    Ok(())
}

// The fault of a header, as one of what is read.
fn read_fault(fault: CategoryFault) -> ReadFault
    ensures { result ≡ read_fault_of fault }
{
    match fault {
        CategoryFault::DiskFault => ReadFault::DiskFault,
        CategoryFault::Damaged { damage } => ReadFault::Damaged { damage },
    }
}

// Reads the header at place `at`. The answer is the record behind it.
fn read_record<D: Disk>(
    disk: &mut D,
    shape: &Shape,
    category: &ActiveCategory,
    neighbour: &Neighbour,
    at: u64,
) -> Result<Stretch, ReadFault>
    requires room { disk_bytes (sizes_of shape.now) ≤ D.bytes disk.old }
    requires inside { IsInside (sizes_of shape.now) (open_entry category.now) at }
    ensures disk { Reads D.Disk (InCategory (sizes_of shape.now) (open_entry category.now)) disk.old disk.new }
    ensures cause { FailsByCount is_disk_fault_of_read (D.faults disk.old) (D.faults disk.new) result }
    ensures record { IfOk result (IsRecord (sizes_of shape.now) category.now.row at) }
    ensures found { D.tells → IfOk result (λ x. IsFoundAt (sizes_of shape.now) (contents (D.history disk.old)) neighbour.now.entries (open_row (open_entry category.now)) at x (D.history disk.old) (D.history disk.new)) }
    ensures damage { IfDamaged result (λ damage. D.tells → IsRefusedAt (sizes_of shape.now) (open_row (open_entry category.now)) (spot_in (sizes_of shape.now) (contents (D.history disk.old)) (open_row (open_entry category.now)) at) damage (D.history disk.old) (D.history disk.new)) }
{
    let row = category.row;
    let who = Owner::Active(row.start);
    let extents = category.extents.numbers();
    match read_header(disk, shape, extents, who, at, row.bytes) {
        Ok(header) => Ok(Stretch {
            bytes: 36 + u64::from(header.length),
            chunks: 1,
            kept: neighbour.first_index(&header.mark).is_some(),
        }),
        Err(fault) => Err(read_fault(fault)),
    }
}

/// Tells the records of an open category apart, by their headers alone: which of their marks the newest recipe has. It takes
/// memory for the stretches of records that go the same way alone.
pub(crate) fn tell_apart<D: Disk>(
    alloc: Global,
    disk: &mut D,
    shape: &Shape,
    category: &ActiveCategory,
    neighbour: &Neighbour,
) -> Result<Cut, ReadFault>
    requires room { disk_bytes (sizes_of shape.now) ≤ D.bytes disk.old }
    requires extents { AreExtents (sizes_of shape.now) category.now.extents.numbers }
    requires holds { IsTrue (active_holds (sizes_of shape.now) (open_entry category.now)) }
    ensures disk { Reads D.Disk (InCategory (sizes_of shape.now) (open_entry category.now)) disk.old disk.new }
    ensures cause { FailsByCount is_disk_fault_of_read (D.faults disk.old) (D.faults disk.new) result }
    ensures cut { IfOk result (λ cut. IsCutOf (sizes_of shape.now) category.now.row cut) }
    ensures apart { D.tells → IfOk result (λ cut. TellsApart (sizes_of shape.now) (contents (D.history disk.old)) neighbour.now.entries (open_entry category.now) cut) }
    ensures damage { IfDamaged result (λ damage. D.tells → (c : Catalogue) →
        IsDamageIn (sizes_of shape.now) c (contents (D.history disk.old)) (open_row (open_entry category.now) ∷ []) damage (D.history disk.old) (D.history disk.new)) }
{
    let row = category.row;
    let mut cut = Cut::none(alloc);
    let mut at = 0;
    for done in 0..row.chunks {
        let record = read_record(disk, shape, category, neighbour, at)?;
        cut.put(record)?;
        at += record.bytes;
    }
    if at != row.bytes {
        return Err(ReadFault::Damaged {
            damage: Damage::Row {
                owner: Owner::Active(row.start),
                start: row.start,
                recorded: row.bytes,
                found: at,
            },
        });
    }
    Ok(cut)
}
