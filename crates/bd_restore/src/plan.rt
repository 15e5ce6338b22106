//! What a restore of a version needs.
ghost use Rattle.std.specs.Prelude.{◌≡◌, ℕ, ◌≤◌, [], length, IfOk, OnOk};
ghost use Rattle.bd_disk.specs.Calls.{FailsByCount};
ghost use Rattle.bd_disk.specs.History.{contents};
ghost use Rattle.bd_disk.specs.Runs.{Reads};
ghost use Rattle.bd_disk.specs.Trace.{ReadsOnly};
ghost use Rattle.bd_model.specs.Sizes.{disk_bytes};
ghost use Rattle.bd_roll.specs.Catalogue.{oldest_in};
ghost use Rattle.bd_catalog.specs.Damages.{IsSeen};
ghost use Rattle.bd_recipe.specs.Reading.{IfDamaged, InRecipe, IsRecipe, is_disk_fault_of_read, recipe_found, recipe_places};
ghost use Rattle.bd_restore.specs.Plan.{AnswersPlan, IsFresh, IsPlanOf};

use crate::tables::Tables;
use bd_catalog::Catalog;
use bd_disk::Disk;
use bd_recipe::{ReadFault, Recipe, read_recipe};
use bd_volume::{Pieces, front};
use std::alloc::{AllocError as OutOfMemory, Global};
use std::marker::Model;

/// What a restore of a version needs: the rows to walk over, and its recipe, with the place of each entry's chunk in the
/// stream and an index of the entries by their marks.
#[derive(Drop)]
pub struct Plan {
    wanted: Wanted,
    progress: Progress,
}

/// What is looked for, and where.
#[derive(Drop)]
pub(crate) struct Wanted {
    pub(crate) version: u32,
    /// The bytes of the stream.
    pub(crate) length: u64,
    /// The rows to walk over.
    pub(crate) pieces: Pieces,
    pub(crate) tables: Tables,
}

/// How far a restore has come.
#[derive(Drop)]
pub(crate) struct Progress {
    /// For each entry whether its chunk was put.
    pub(crate) filled: Vec<bool>,
    /// Room for one body.
    pub(crate) buffer: Vec<u8>,
}

impl Model for Plan {
    ghost use Rattle.std.specs.Prelude.{length as list_length};
    ghost use Rattle.bd_restore.specs.Plan.{IsFresh, Planned};

    ghost Value = { Planned };

    ghost view = { λ p. record { version = p.wanted.version; entries = p.wanted.tables; pieces = p.wanted.pieces.items; room = list_length p.progress.buffer.items } };

    ghost invariant = { λ p. IsFresh p.wanted.tables p.wanted.length p.progress.filled.items };
}

impl Plan {
    // What is wanted, and a flag for each entry, none of them set, with the buffer.
    pub(crate) fn into_parts(self) -> (Wanted, Progress)
        ensures version { result.0.version ≡ self.version }
        ensures entries { result.0.tables ≡ self.entries }
        ensures pieces { result.0.pieces.items ≡ self.pieces }
        ensures fresh { IsFresh self.entries result.0.length result.1.filled.items }
        ensures buffer { length result.1.buffer.items ≡ self.room }
    {
        let Plan { wanted, progress } = self;
        (wanted, progress)
    }
}

/// Reads the recipe of a retained version, as `read_recipe` does, and plans its restore. It takes about 110 bytes of memory
/// for each chunk, and 48 for each row to walk over.
pub fn plan_for<D: Disk>(
    alloc: Global,
    disk: &mut D,
    catalog: &Catalog,
    version: u32,
) -> Result<Plan, ReadFault>
    requires room { disk_bytes catalog.now.found.sizes ≤ D.bytes disk.old }
    requires oldest { oldest_in catalog.now.found.catalogue ≤ version }
    requires newest { version ≤ catalog.now.found.catalogue.newest }
    ensures disk { Reads D.Disk (InRecipe catalog.now.found.sizes catalog.now.found.catalogue version) disk.old disk.new }
    ensures cause { FailsByCount is_disk_fault_of_read (D.faults disk.old) (D.faults disk.new) result }
    ensures plan { IfOk result (λ plan. IsPlanOf catalog.now.found.sizes catalog.now.found.catalogue version plan) }
    ensures recipe { IfOk result (λ plan. IsRecipe catalog.now.found.sizes catalog.now.found.catalogue version plan.entries) }
    ensures entries { D.tells → AnswersPlan (recipe_found catalog.now.found.sizes catalog.now.found.catalogue (contents (D.history disk.old)) version) result }
    ensures places { OnOk result (D.tells → ReadsOnly (recipe_places catalog.now.found.sizes catalog.now.found.catalogue version) (D.history disk.old) (D.history disk.new)) }
    ensures seen { IfDamaged result (λ damage. D.tells → IsSeen catalog.now.found.sizes catalog.now.found.catalogue (contents (D.history disk.old)) [] damage (D.history disk.old) (D.history disk.new)) }
{
    let recipe = read_recipe(alloc, disk, catalog, version)?;
    let plan = planned(alloc, catalog, version, recipe)?;
    Ok(plan)
}

// The plan of a version with this recipe.
fn planned(
    alloc: Global,
    catalog: &Catalog,
    version: u32,
    recipe: Recipe,
) -> Result<Plan, OutOfMemory>
    requires oldest { oldest_in catalog.now.found.catalogue ≤ version }
    requires newest { version ≤ catalog.now.found.catalogue.newest }
    requires recipe { IsRecipe catalog.now.found.sizes catalog.now.found.catalogue version recipe.items }
    ensures plan { IfOk result (λ plan. IsPlanOf catalog.now.found.sizes catalog.now.found.catalogue version plan) }
    ensures entries { IfOk result (λ plan. plan.entries ≡ recipe.items) }
{
    let row = catalog.version(version).unwrap();
    let shape = catalog.shape();
    let length = row.length;
    let filled = vec![in alloc; false; recipe.len()]?;
    let buffer = vec![in alloc; 0u8; shape.max() as usize]?;
    let pieces = front(alloc, catalog, version)?;
    let tables = Tables::of(alloc, recipe)?;
    Ok(Plan {
        wanted: Wanted {
            version,
            length,
            pieces,
            tables,
        },
        progress: Progress { filled, buffer },
    })
}
