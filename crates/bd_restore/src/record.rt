//! One record of the walk.
ghost use Rattle.std.specs.Prelude.{◌≡◌, ◌+◌, ◌≤◌, List, length, take, OnOk, IfOk};
ghost use Rattle.bd_disk.specs.Calls.{FailsByCount};
ghost use Rattle.bd_disk.specs.Runs.{Reads};
ghost use Rattle.bd_extio.specs.Owned.{owned_on};
ghost use Rattle.bd_extio.specs.Ranges.{AreExtents, IsWithin};
ghost use Rattle.bd_category.specs.Places.{InBody, ReadsBody};
ghost use Rattle.bd_category.specs.Records.{AnswersBody, body_at, is_disk_fault_of_record};
ghost use Rattle.bd_catalog.specs.Rows.{row_end};
ghost use Rattle.bd_model.specs.Sizes.{disk_bytes};
ghost use Rattle.bd_model.specs.Records.{Stored};
ghost use Rattle.bd_restore.specs.Faults.{FailsByCounts, IfDamageMet};
ghost use Rattle.bd_restore.specs.Met.{MeetsAt};
ghost use Rattle.bd_restore.specs.Target.{ChangesTarget};
ghost use Rattle.bd_restore.specs.Walk.{is_wanted, AreFlags, InRow, IsInRoom};
ghost use Rattle.bd_restore.specs.Went.{aim_of, moment, placed_row, placed_sizes, sought_by, IsReadyToFill, Passes, WentPast};

use crate::fault::RestoreFault;
use crate::plan::{Progress, Wanted};
use crate::put::put_everywhere;
use crate::tables::Tables;
use bd_category::{CategoryFault, Header, read_body, read_header};
use bd_disk::Disk;
use bd_files::Files;
use bd_model::{CategoryRow, Mark, Name, Owner, Shape};

/// A row of a closed volume, or an open category: whose it is, that owner's extents, and where it begins among their bytes.
#[derive(Clone, Copy)]
pub(crate) struct Placed<'a> {
    pub(crate) shape: &'a Shape,
    pub(crate) who: Owner,
    pub(crate) extents: &'a [u32],
    pub(crate) from: u64,
    pub(crate) row: CategoryRow,
}

// Whether an entry has the mark and isn't filled yet.
fn wants(tables: &Tables, filled: &[bool], mark: &Mark) -> bool
    requires flags { length filled.now ≡ length tables.now }
    ensures { (seen : List Stored) → AreFlags tables.now seen filled.now → result ≡ is_wanted tables.now seen mark.now.0 }
{
    match tables.first(mark) {
        Some(index) => !filled[index],
        None => false,
    }
}

// Reads the body behind a header into the front of the buffer.
fn read_front<D: Disk>(
    disk: &mut D,
    placed: &Placed<'_>,
    header: &Header,
    buffer: &mut [u8],
) -> Result<(), CategoryFault>
    requires room { disk_bytes (placed_sizes placed.now) ≤ D.bytes disk.old }
    requires numbers { AreExtents (placed_sizes placed.now) placed.now.extents.now }
    requires within { IsWithin (placed_sizes placed.now) placed.now.extents.now header.now.at (36 + header.now.length) }
    requires sized { header.now.length ≤ length buffer.old }
    ensures disk { Reads D.Disk (InBody (placed_sizes placed.now) placed.now.extents.now header.now) disk.old disk.new }
    ensures cause { FailsByCount is_disk_fault_of_record (D.faults disk.old) (D.faults disk.new) result }
    ensures body { D.tells → AnswersBody placed.now.who header.now (body_at header.now (owned_on D.Disk (placed_sizes placed.now) placed.now.extents.now disk.old)) (take header.now.length buffer.new) result }
    ensures places { D.tells → ReadsBody (placed_sizes placed.now) placed.now.extents.now header.now (D.history disk.old) (D.history disk.new) result }
{
    let body = &mut buffer[..header.length as usize];
    read_body(disk, placed.shape, placed.extents, placed.who, header, body)
}

impl Wanted {
    /// Reads the record at place `at`: its header, and where its body is wanted that too, which is put at each of its
    /// places. The answer is where the record ends.
    #[tactic(auto, using(bd_disk::proofs::RunLemmas::runs, crate::proofs::Frames::targets))]
    pub(crate) fn read_record<D: Disk, F: Files>(
        &self,
        progress: &mut Progress,
        disk: &mut D,
        placed: &Placed<'_>,
        at: u64,
        files: &mut F,
        name: &Name,
    ) -> Result<u64, RestoreFault>
        requires room { disk_bytes (placed_sizes placed.now) ≤ D.bytes disk.old }
        requires inside { IsInRoom (placed_sizes placed.now) (placed_row placed.now) }
        requires from { placed.now.from ≤ at }
        requires to { at ≤ row_end (placed_row placed.now) }
        requires ready { IsReadyToFill F.Files (aim_of (placed_sizes placed.now) self.now name.now) progress.old files.old }
        ensures disk { Reads D.Disk (InRow (placed_sizes placed.now) (placed_row placed.now)) disk.old disk.new }
        ensures files { ChangesTarget F.Files name.now files.old files.new }
        ensures cause { FailsByCounts (D.faults disk.old) (D.faults disk.new) (F.target_faults files.old) (F.target_faults files.new) result }
        ensures next { IfOk result (λ next. Passes D.Disk (placed_sizes placed.now) (placed_row placed.now) disk.old at next) }
        ensures went { OnOk result (WentPast D.Disk F.Files (aim_of (placed_sizes placed.now) self.now name.now) (placed_row placed.now) at (moment progress.old disk.old files.old) (moment progress.new disk.new files.new)) }
        ensures damage { IfDamageMet result (MeetsAt D.Disk (sought_by (placed_sizes placed.now) self.now) (placed_row placed.now) at (moment progress.old disk.old files.old) (moment progress.new disk.new files.new)) }
    {
        let end = placed.from + placed.row.bytes;
        let header = read_header(disk, placed.shape, placed.extents, placed.who, at, end)?;
        let next = at + 36 + u64::from(header.length);
        if !wants(&self.tables, &progress.filled, &header.mark) {
            return Ok(next);
        }
        read_front(disk, placed, &header, &mut progress.buffer)?;
        put_everywhere(
            &self.tables,
            self.version,
            &mut progress.filled,
            files,
            name,
            &header.mark,
            &progress.buffer[..header.length as usize],
        )?;
        Ok(next)
    }
}
