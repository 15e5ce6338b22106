//! The walk over the rows of a restore.
ghost use Rattle.std.specs.Prelude.{◌≡◌, ◌∷◌, ◌≤◌, [], map, Contains, OnOk};
ghost use Rattle.bd_disk.specs.Runs.{Reads};
ghost use Rattle.bd_model.specs.Sizes.{disk_bytes};
ghost use Rattle.bd_roll.specs.Catalogue.{oldest_in};
ghost use Rattle.bd_catalog.specs.Rows.{walk};
ghost use Rattle.bd_restore.specs.Faults.{FailsByCounts, IfDamageMet};
ghost use Rattle.bd_restore.specs.Met.{MeetsOn};
ghost use Rattle.bd_restore.specs.Target.{ChangesTarget};
ghost use Rattle.bd_restore.specs.Walk.{InRow, InRows, IsInRoom};
ghost use Rattle.bd_restore.specs.Went.{aim_of, moment, placed_row, placed_sizes, sought_by, IsReadyToFill, WentOver};
ghost use Rattle.bd_volume.specs.Pieces.{row_of_piece};

use crate::fault::RestoreFault;
use crate::owner::extents_of;
use crate::plan::{Progress, Wanted};
use crate::record::Placed;
use bd_catalog::Catalog;
use bd_disk::Disk;
use bd_files::Files;
use bd_model::{CategoryRow, Name};
use bd_volume::Piece;

impl Wanted {
    // Walks over a row or an open category, record by record.
    #[tactic(auto, using(bd_disk::proofs::RunLemmas::runs, crate::proofs::Frames::targets))]
    fn run_row<D: Disk, F: Files>(
        &self,
        progress: &mut Progress,
        disk: &mut D,
        placed: &Placed<'_>,
        files: &mut F,
        name: &Name,
    ) -> Result<(), RestoreFault>
        requires room { disk_bytes (placed_sizes placed.now) ≤ D.bytes disk.old }
        requires inside { IsInRoom (placed_sizes placed.now) (placed_row placed.now) }
        requires ready { IsReadyToFill F.Files (aim_of (placed_sizes placed.now) self.now name.now) progress.old files.old }
        ensures disk { Reads D.Disk (InRow (placed_sizes placed.now) (placed_row placed.now)) disk.old disk.new }
        ensures files { ChangesTarget F.Files name.now files.old files.new }
        ensures cause { FailsByCounts (D.faults disk.old) (D.faults disk.new) (F.target_faults files.old) (F.target_faults files.new) result }
        ensures went { OnOk result (WentOver D.Disk F.Files (aim_of (placed_sizes placed.now) self.now name.now) (placed_row placed.now ∷ []) (moment progress.old disk.old files.old) (moment progress.new disk.new files.new)) }
        ensures damage { IfDamageMet result (MeetsOn D.Disk (sought_by (placed_sizes placed.now) self.now) (placed_row placed.now ∷ []) (moment progress.old disk.old files.old) (moment progress.new disk.new files.new)) }
    {
        let mut at = placed.from;
        for done in 0..placed.row.chunks {
            at = self.read_record(progress, disk, placed, at, files, name)?;
        }
        Ok(())
    }

    // Walks over the row that a piece of the walk names.
    fn run_piece<D: Disk, F: Files>(
        &self,
        progress: &mut Progress,
        disk: &mut D,
        catalog: &Catalog,
        piece: Piece,
        files: &mut F,
        name: &Name,
    ) -> Result<(), RestoreFault>
        requires room { disk_bytes catalog.now.found.sizes ≤ D.bytes disk.old }
        requires retained { oldest_in catalog.now.found.catalogue ≤ self.now.version }
        requires numbered { self.now.version ≤ catalog.now.found.catalogue.newest }
        requires row { Contains (walk catalog.now.found.catalogue self.now.version) (row_of_piece catalog.now.found.catalogue piece) }
        requires ready { IsReadyToFill F.Files (aim_of catalog.now.found.sizes self.now name.now) progress.old files.old }
        ensures disk { Reads D.Disk (InRow catalog.now.found.sizes (row_of_piece catalog.now.found.catalogue piece)) disk.old disk.new }
        ensures files { ChangesTarget F.Files name.now files.old files.new }
        ensures cause { FailsByCounts (D.faults disk.old) (D.faults disk.new) (F.target_faults files.old) (F.target_faults files.new) result }
        ensures went { OnOk result (WentOver D.Disk F.Files (aim_of catalog.now.found.sizes self.now name.now) (row_of_piece catalog.now.found.catalogue piece ∷ []) (moment progress.old disk.old files.old) (moment progress.new disk.new files.new)) }
        ensures damage { IfDamageMet result (MeetsOn D.Disk (sought_by catalog.now.found.sizes self.now) (row_of_piece catalog.now.found.catalogue piece ∷ []) (moment progress.old disk.old files.old) (moment progress.new disk.new files.new)) }
    {
        let shape = catalog.shape();
        let row = CategoryRow {
            start: piece.start,
            chunks: piece.chunks,
            bytes: piece.to - piece.from,
        };
        let placed = Placed {
            shape: &shape,
            who: piece.who,
            extents: extents_of(catalog, piece.who),
            from: piece.from,
            row,
        };
        self.run_row(progress, disk, &placed, files, name)
    }

    /// Walks over its rows, in order, and over every record of each.
    #[tactic(auto, using(bd_disk::proofs::RunLemmas::runs, crate::proofs::Frames::targets))]
    pub(crate) fn walk<D: Disk, F: Files>(
        &self,
        progress: &mut Progress,
        disk: &mut D,
        catalog: &Catalog,
        files: &mut F,
        name: &Name,
    ) -> Result<(), RestoreFault>
        requires room { disk_bytes catalog.now.found.sizes ≤ D.bytes disk.old }
        requires retained { oldest_in catalog.now.found.catalogue ≤ self.now.version }
        requires numbered { self.now.version ≤ catalog.now.found.catalogue.newest }
        requires rows { map (row_of_piece catalog.now.found.catalogue) self.now.pieces.items ≡ walk catalog.now.found.catalogue self.now.version }
        requires ready { IsReadyToFill F.Files (aim_of catalog.now.found.sizes self.now name.now) progress.old files.old }
        ensures disk { Reads D.Disk (InRows catalog.now.found.sizes (walk catalog.now.found.catalogue self.now.version)) disk.old disk.new }
        ensures files { ChangesTarget F.Files name.now files.old files.new }
        ensures cause { FailsByCounts (D.faults disk.old) (D.faults disk.new) (F.target_faults files.old) (F.target_faults files.new) result }
        ensures went { OnOk result (WentOver D.Disk F.Files (aim_of catalog.now.found.sizes self.now name.now) (walk catalog.now.found.catalogue self.now.version) (moment progress.old disk.old files.old) (moment progress.new disk.new files.new)) }
        ensures damage { IfDamageMet result (MeetsOn D.Disk (sought_by catalog.now.found.sizes self.now) (walk catalog.now.found.catalogue self.now.version) (moment progress.old disk.old files.old) (moment progress.new disk.new files.new)) }
    {
        for piece in self.pieces.as_slice() {
            self.run_piece(progress, disk, catalog, *piece, files, name)?;
        }
        Ok(())
    }
}
