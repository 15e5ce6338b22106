//! The recipe of a version, read and checked.
ghost use Rattle.std.specs.Prelude.{◌≡◌, ◌+◌, ◌*◌, ◌≤◌, ◌<◌, ◌++◌, ◌^◌, [], length, All, IsTrue, OnOk, IfOk, IfErr, Some};
ghost use Rattle.std.specs.List.{list_all};
ghost use Rattle.bd_disk.specs.Calls.{FailsByCount};
ghost use Rattle.bd_disk.specs.History.{contents};
ghost use Rattle.bd_disk.specs.Runs.{Reads};
ghost use Rattle.bd_disk.specs.Trace.{ReadsOnly};
ghost use Rattle.bd_model.specs.Sizes.{sizes_of, disk_bytes};
ghost use Rattle.bd_model.specs.Records.{entries_in};
ghost use Rattle.bd_extio.specs.Owned.{owned_on};
ghost use Rattle.bd_extio.specs.Ranges.{AreExtents, IsWithin};
ghost use Rattle.bd_roll.specs.Catalogue.{oldest_in};
ghost use Rattle.bd_catalog.specs.Damages.{IsSeen};
ghost use Rattle.bd_recipe.specs.Entries.{first_bad, is_within};
ghost use Rattle.bd_recipe.specs.Pieces.{InEntries, entries_on, entry_places};
ghost use Rattle.bd_recipe.specs.Reading.{AnswersRecipe, HasBad, IfDamaged, InRecipe, IsRecipe, OnRead, ReadsBad, is_disk_fault_of_read, recipe_found, recipe_places, total};

use crate::entry::{BUFFER, ENTRY, PIECE, entry_from};
use crate::fault::ReadFault;
use crate::limits::Limits;
use crate::located::locate;
use bd_catalog::Catalog;
use bd_disk::Disk;
use bd_extio::read_at;
use bd_model::{Damage, RecipeEntry, Sequence, Shape};
use std::alloc::Global;

/// The entries of a version, one for each chunk of its stream, in order.
pub type Recipe = Sequence<RecipeEntry>;

/// Reads the recipe of a retained version, and checks that each entry has a length of 1 to `max` and a start past the base
/// and up to the version, and that the lengths add up to the version's. It takes memory for the entries alone.
pub fn read_recipe<D: Disk>(
    alloc: Global,
    disk: &mut D,
    catalog: &Catalog,
    version: u32,
) -> Result<Recipe, ReadFault>
    requires room { disk_bytes catalog.now.found.sizes ≤ D.bytes disk.old }
    requires oldest { oldest_in catalog.now.found.catalogue ≤ version }
    requires newest { version ≤ catalog.now.found.catalogue.newest }
    ensures disk { Reads D.Disk (InRecipe catalog.now.found.sizes catalog.now.found.catalogue version) disk.old disk.new }
    ensures cause { FailsByCount is_disk_fault_of_read (D.faults disk.old) (D.faults disk.new) result }
    ensures recipe { IfOk result (λ recipe. IsRecipe catalog.now.found.sizes catalog.now.found.catalogue version recipe.items) }
    ensures entries { D.tells → AnswersRecipe (recipe_found catalog.now.found.sizes catalog.now.found.catalogue (contents (D.history disk.old)) version) result }
    ensures places { OnOk result (D.tells → ReadsOnly (recipe_places catalog.now.found.sizes catalog.now.found.catalogue version) (D.history disk.old) (D.history disk.new)) }
    ensures seen { IfDamaged result (λ damage. D.tells → IsSeen catalog.now.found.sizes catalog.now.found.catalogue (contents (D.history disk.old)) [] damage (D.history disk.old) (D.history disk.new)) }
{
    let place = locate(catalog, version);
    let recipe = read_entries(
        alloc,
        disk,
        &place.shape,
        place.extents,
        place.chunks,
        &place.limits,
    )?;
    let found = total_of(recipe.as_slice());
    if found != place.length {
        let damage = Damage::Sum {
            version,
            recorded: place.length,
            found,
        };
        return Err(ReadFault::Damaged { damage });
    }
    Ok(recipe)
}

// Reads all entries of an owner's recipe.
#[tactic(auto, using(bd_disk::proofs::RunLemmas::runs))]
fn read_entries<D: Disk>(
    alloc: Global,
    disk: &mut D,
    shape: &Shape,
    extents: &[u32],
    chunks: u64,
    limits: &Limits,
) -> Result<Recipe, ReadFault>
    requires room { disk_bytes (sizes_of shape.now) ≤ D.bytes disk.old }
    requires numbers { AreExtents (sizes_of shape.now) extents.now }
    requires range { IsWithin (sizes_of shape.now) extents.now 0 (40 * chunks) }
    ensures disk { Reads D.Disk (InEntries (sizes_of shape.now) extents.now 0 chunks) disk.old disk.new }
    ensures cause { FailsByCount is_disk_fault_of_read (D.faults disk.old) (D.faults disk.new) result }
    ensures count { IfOk result (λ recipe. length recipe.items ≡ chunks) }
    ensures hold { IfOk result (λ recipe. IsTrue (list_all (is_within limits.now) recipe.items)) }
    ensures items { IfOk result (λ recipe. D.tells → recipe.items ≡ entries_in chunks (owned_on D.Disk (sizes_of shape.now) extents.now disk.old)) }
    ensures damage { IfDamaged result (λ damage. ReadsBad D.Disk limits.now (sizes_of shape.now) extents.now chunks damage disk.old disk.new) }
    ensures places { OnOk result (D.tells → ReadsOnly (entry_places (sizes_of shape.now) extents.now 0 chunks) (D.history disk.old) (D.history disk.new)) }
{
    let mut recipe = Recipe::new(alloc);
    recipe.reserve(chunks as usize)?;
    let mut buffer = [0u8; BUFFER];
    while (recipe.len() as u64) < chunks {
        let count = (chunks - recipe.len() as u64).min(PIECE as u64) as usize;
        let piece = &mut buffer[..ENTRY * count];
        read_piece(disk, shape, extents, limits, &mut recipe, piece, count)?;
    }
    Ok(recipe)
}

// Reads the next entries of an owner's recipe, as many bytes as the piece has, and puts them behind the others.
fn read_piece<D: Disk>(
    disk: &mut D,
    shape: &Shape,
    extents: &[u32],
    limits: &Limits,
    recipe: &mut Recipe,
    piece: &mut [u8],
    count: usize,
) -> Result<(), ReadFault>
    requires room { disk_bytes (sizes_of shape.now) ≤ D.bytes disk.old }
    requires numbers { AreExtents (sizes_of shape.now) extents.now }
    requires range { IsWithin (sizes_of shape.now) extents.now (40 * length recipe.old.items) (40 * count) }
    requires sized { length piece.old ≡ 40 * count }
    requires spare { count ≤ recipe.old.spare }
    requires hold { IsTrue (list_all (is_within limits.now) recipe.old.items) }
    ensures disk { Reads D.Disk (InEntries (sizes_of shape.now) extents.now (length recipe.old.items) count) disk.old disk.new }
    ensures cause { FailsByCount is_disk_fault_of_read (D.faults disk.old) (D.faults disk.new) result }
    ensures count { OnOk result (length recipe.new.items ≡ length recipe.old.items + count) }
    ensures hold { OnOk result (IsTrue (list_all (is_within limits.now) recipe.new.items)) }
    ensures spare { OnOk result (recipe.old.spare ≤ recipe.new.spare + count) }
    ensures items { OnOk result (D.tells → recipe.new.items ≡ recipe.old.items ++ entries_on D.Disk (sizes_of shape.now) extents.now (length recipe.old.items) count disk.old) }
    ensures damage { IfDamaged result (λ damage. HasBad D.Disk limits.now (sizes_of shape.now) extents.now (length recipe.old.items) count damage disk.old) }
    ensures places { OnRead result (D.tells → ReadsOnly (entry_places (sizes_of shape.now) extents.now (length recipe.old.items) count) (D.history disk.old) (D.history disk.new)) }
{
    let at = ENTRY as u64 * recipe.len() as u64;
    read_at(disk, shape, extents, at, piece)?;
    take_entries(recipe, piece, count, limits)?;
    Ok(())
}

// Puts the entries that these bytes say behind the others, where each is within the limits.
fn take_entries(
    recipe: &mut Recipe,
    bytes: &[u8],
    count: usize,
    limits: &Limits,
) -> Result<(), Damage>
    requires whole { 40 * count ≤ length bytes.now }
    requires spare { count ≤ recipe.old.spare }
    requires small { length recipe.old.items + count < 2 ^ 64 }
    requires hold { IsTrue (list_all (is_within limits.now) recipe.old.items) }
    ensures items { OnOk result (recipe.new.items ≡ recipe.old.items ++ entries_in count bytes.now) }
    ensures hold { OnOk result (IsTrue (list_all (is_within limits.now) recipe.new.items)) }
    ensures spare { OnOk result (recipe.old.spare ≤ recipe.new.spare + count) }
    ensures damage { IfErr result (λ damage. first_bad (is_within limits.now) limits.now.version (length recipe.old.items) (entries_in count bytes.now) ≡ Some damage) }
{
    for index in 0..count {
        let entry = entry_from(bytes, ENTRY * index);
        if !limits.hold(&entry) {
            return Err(limits.damage(recipe.len() as u64, &entry));
        }
        recipe.push(entry);
    }
    Ok(())
}

// The bytes that the entries stand for.
fn total_of(entries: &[RecipeEntry]) -> u64
    requires few { length entries.now ≤ 2 ^ 40 }
    requires short { All (λ e. e.length ≤ 65536) entries.now }
    ensures { result ≡ total entries.now }
{
    let mut total: u64 = 0;
    for entry in entries {
        total += u64::from(entry.length);
    }
    total
}
