//! The rows that a restore walks over.
ghost use Rattle.std.specs.Prelude.{◌≡◌, ◌+◌, ◌^◌, ◌<◌, ◌≤◌, [], ◌∷◌, ◌++◌, length, map, nat_le, if◌then◌else◌, IfOk, IfSome, IsTrue};
ghost use Rattle.bd_roll.specs.Catalogue.{bytes_of_rows, oldest_in};
ghost use Rattle.bd_catalog.specs.Rows.{open_row, volume_rows, walk};
ghost use Rattle.bd_roll.specs.Rules.{obeys};
ghost use Rattle.bd_roll.specs.Shown.{open_entry, volume_entry};
ghost use Rattle.bd_volume.specs.Pieces.{closed_rows, pieces_of, row_of_piece, rows_closed_from};

use crate::piece::{Piece, Pieces};
use bd_catalog::{ActiveCategory, Catalog, ClosedVolume};
use bd_model::Owner;
use std::alloc::{AllocError as OutOfMemory, Global};

// Puts the piece behind the others, where it begins at the version or before.
fn put_begun(pieces: &mut Pieces, piece: Piece, version: u32)
    requires { 1 ≤ pieces.old.spare }
    ensures items { pieces.new.items ≡ pieces.old.items ++ (if nat_le piece.start version then piece ∷ [] else []) }
    ensures spare { pieces.old.spare ≤ pieces.new.spare + 1 }
{
    if piece.start <= version {
        pieces.push(piece);
    }
}

// Puts the rows of the closed volume behind the others, those that begin at the version or before.
fn put_volume(pieces: &mut Pieces, number: u32, volume: &ClosedVolume, version: u32)
    requires spare { length volume.now.rows.items ≤ pieces.old.spare }
    requires short { bytes_of_rows volume.now.rows.items < 2 ^ 64 }
    ensures items { pieces.new.items ≡ pieces.old.items ++ pieces_of version (closed_rows number (volume_entry volume.now)) }
    ensures spare { pieces.old.spare ≤ pieces.new.spare + length volume.now.rows.items }
{
    let mut from = 0;
    for row in volume.rows.as_slice() {
        let to = from + row.bytes;
        let piece = Piece {
            who: Owner::Volume(number),
            start: row.start,
            from,
            to,
            chunks: row.chunks,
        };
        put_begun(pieces, piece, version);
        from = to;
    }
}

// The closed volume of this number.
fn closed(catalog: &Catalog, number: u32) -> &ClosedVolume
    requires rules { IsTrue (obeys catalog.now.found.sizes catalog.now.found.catalogue) }
    requires oldest { oldest_in catalog.now.found.catalogue ≤ number }
    requires newest { number < catalog.now.found.catalogue.newest }
    ensures rows { closed_rows number (volume_entry result.now) ≡ volume_rows catalog.now.found.catalogue number }
    ensures short { bytes_of_rows result.now.rows.items < 2 ^ 64 }
{
    catalog.volume(number).unwrap()
}

// Puts the rows of the version's own and of later closed volumes behind the others, those that begin at it or before.
fn put_volumes(pieces: &mut Pieces, catalog: &Catalog, version: u32)
    requires rules { IsTrue (obeys catalog.now.found.sizes catalog.now.found.catalogue) }
    requires oldest { oldest_in catalog.now.found.catalogue ≤ version }
    requires newest { version ≤ catalog.now.found.catalogue.newest }
    requires spare { length (rows_closed_from catalog.now.found.catalogue version) ≤ pieces.old.spare }
    ensures items { pieces.new.items ≡ pieces.old.items ++ pieces_of version (rows_closed_from catalog.now.found.catalogue version) }
    ensures spare { pieces.old.spare ≤ pieces.new.spare + length (rows_closed_from catalog.now.found.catalogue version) }
{
    for number in version..catalog.newest() {
        let volume = closed(catalog, number);
        put_volume(pieces, number, volume, version);
    }
}

// Puts the open categories behind the others, those that begin at the version or before.
fn put_categories(pieces: &mut Pieces, actives: &[ActiveCategory], version: u32)
    requires { length actives.now ≤ pieces.old.spare }
    ensures { pieces.new.items ≡ pieces.old.items ++ pieces_of version (map open_row (map open_entry actives.now)) }
{
    for active in actives {
        let piece = Piece {
            who: Owner::Active(active.row.start),
            start: active.row.start,
            from: 0,
            to: active.row.bytes,
            chunks: active.row.chunks,
        };
        put_begun(pieces, piece, version);
    }
}

// How many rows the version's own and later closed volumes have, with the open categories; None where no list could
// have so many items.
fn rows_ahead(catalog: &Catalog, version: u32) -> Option<usize>
    requires rules { IsTrue (obeys catalog.now.found.sizes catalog.now.found.catalogue) }
    requires oldest { oldest_in catalog.now.found.catalogue ≤ version }
    requires newest { version ≤ catalog.now.found.catalogue.newest }
    ensures { IfSome result (λ n. n ≡ length (rows_closed_from catalog.now.found.catalogue version) + length catalog.now.found.catalogue.actives) }
{
    let mut count = catalog.actives().len();
    for number in version..catalog.newest() {
        let volume = closed(catalog, number);
        count = count.checked_add(volume.rows.len())?;
    }
    Some(count)
}

/// The rows that a restore of the version walks over, in order: those of its own and of later closed volumes that begin at it
/// or before, and then the open categories that do. It takes memory once, and time linear in the rows.
pub fn front(alloc: Global, catalog: &Catalog, version: u32) -> Result<Pieces, OutOfMemory>
    requires oldest { oldest_in catalog.now.found.catalogue ≤ version }
    requires newest { version ≤ catalog.now.found.catalogue.newest }
    ensures { IfOk result (λ pieces. map (row_of_piece catalog.now.found.catalogue) pieces.items ≡ walk catalog.now.found.catalogue version) }
{
    let count = rows_ahead(catalog, version).ok_or(OutOfMemory)?;
    let mut pieces = Pieces::new(alloc);
    pieces.reserve(count)?;
    put_volumes(&mut pieces, catalog, version);
    put_categories(&mut pieces, catalog.actives().as_slice(), version);
    Ok(pieces)
}
