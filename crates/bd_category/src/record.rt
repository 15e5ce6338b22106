//! The bytes of a record, written and read.
ghost use Rattle.std.specs.Prelude.{◌≡◌, ◌+◌, ◌*◌, ◌≤◌, ◌++◌, length, take, drop, IfOk, OnOk};
ghost use Rattle.std.specs.Int.{w32, from_be_bytes};
ghost use Rattle.bd_disk.specs.Calls.{FailsByCount, HasCause};
ghost use Rattle.bd_disk.specs.Runs.{Reads, Writes};
ghost use Rattle.bd_model.specs.Sizes.{sizes_of, disk_bytes};
ghost use Rattle.bd_model.specs.Records.{four};
ghost use Rattle.bd_extio.specs.Owned.{Overwrites, owned_on};
ghost use Rattle.bd_extio.specs.Ranges.{AreExtents, InOwner, IsWithin};
ghost use Rattle.bd_category.specs.Records.{AnswersBody, AnswersHeader, body_at, header_at, header_in, is_disk_fault_of_record, record_with};
ghost use Rattle.bd_category.specs.Places.{InBody, InHeader, ReadsBody, ReadsHeader};

use crate::fault::{CategoryFault, Header};
use bd_disk::{Disk, Failed};
use bd_extio::{read_at, write_at};
use bd_marks::mark_of;
use bd_model::{Damage, Mark, Owner, Shape};
use bd_wire::{Cursor, put_u32};

/// How many bytes a header has.
pub const HEADER: usize = 36;

/// Writes one record from place `at` of the owner's bytes on: the body's length, this mark, and the body.
pub fn write_chunk<D: Disk>(
    disk: &mut D,
    shape: &Shape,
    extents: &[u32],
    at: u64,
    mark: &Mark,
    body: &[u8],
) -> Result<(), Failed>
    requires room { disk_bytes (sizes_of shape.now) ≤ D.bytes disk.old }
    requires numbers { AreExtents (sizes_of shape.now) extents.now }
    requires range { IsWithin (sizes_of shape.now) extents.now at (36 + length body.now) }
    requires some { 1 ≤ length body.now }
    requires short { length body.now ≤ shape.now.max }
    ensures disk { Writes D.Disk (InOwner (sizes_of shape.now) extents.now at (36 + length body.now)) disk.old disk.new }
    ensures cause { HasCause (D.faults disk.old) (D.faults disk.new) result }
    ensures written { OnOk result (Overwrites D.Disk (sizes_of shape.now) extents.now at (record_with mark.now body.now) disk.old disk.new) }
{
    let header = header_bytes(body.len() as u32, mark);
    write_at(disk, shape, extents, at, &header)?;
    write_at(disk, shape, extents, at + HEADER as u64, body)?;
    Ok(())
}

/// Reads the header at place `at` of the owner's bytes, in a row that ends at `end`.
#[tactic(auto, using(bd_disk::proofs::RunLemmas::runs))]
pub fn read_header<D: Disk>(
    disk: &mut D,
    shape: &Shape,
    extents: &[u32],
    who: Owner,
    at: u64,
    end: u64,
) -> Result<Header, CategoryFault>
    requires room { disk_bytes (sizes_of shape.now) ≤ D.bytes disk.old }
    requires numbers { AreExtents (sizes_of shape.now) extents.now }
    requires from { at ≤ end }
    requires to { end ≤ length extents.now * shape.now.extent }
    ensures disk { Reads D.Disk (InHeader (sizes_of shape.now) extents.now at end) disk.old disk.new }
    ensures cause { FailsByCount is_disk_fault_of_record (D.faults disk.old) (D.faults disk.new) result }
    ensures header { D.tells → AnswersHeader (header_at (sizes_of shape.now) who at end (owned_on D.Disk (sizes_of shape.now) extents.now disk.old)) result }
    ensures some { IfOk result (λ header. 1 ≤ header.length) }
    ensures short { IfOk result (λ header. header.length ≤ shape.now.max) }
    ensures place { IfOk result (λ header. header.at ≡ at) }
    ensures within { IfOk result (λ header. at + 36 + header.length ≤ end) }
    ensures places { D.tells → ReadsHeader (sizes_of shape.now) extents.now at end (D.history disk.old) (D.history disk.new) result }
{
    let left = end - at;
    if left < HEADER as u64 {
        return Err(CategoryFault::Damaged {
            damage: Damage::Header {
                owner: who,
                at,
                length: 0,
                left,
            },
        });
    }
    let mut bytes = [0u8; HEADER];
    if read_at(disk, shape, extents, at, &mut bytes).is_err() {
        return Err(CategoryFault::DiskFault);
    }
    match checked_header(&bytes, shape.max(), who, at, left - HEADER as u64) {
        Ok(header) => Ok(header),
        Err(damage) => Err(CategoryFault::Damaged { damage }),
    }
}

/// Reads the body behind a header, and compares its fingerprint with the header's.
pub fn read_body<D: Disk>(
    disk: &mut D,
    shape: &Shape,
    extents: &[u32],
    who: Owner,
    header: &Header,
    into: &mut [u8],
) -> Result<(), CategoryFault>
    requires room { disk_bytes (sizes_of shape.now) ≤ D.bytes disk.old }
    requires numbers { AreExtents (sizes_of shape.now) extents.now }
    requires within { IsWithin (sizes_of shape.now) extents.now header.now.at (36 + header.now.length) }
    requires sized { length into.old ≡ header.now.length }
    ensures disk { Reads D.Disk (InBody (sizes_of shape.now) extents.now header.now) disk.old disk.new }
    ensures cause { FailsByCount is_disk_fault_of_record (D.faults disk.old) (D.faults disk.new) result }
    ensures body { D.tells → AnswersBody who header.now (body_at header.now (owned_on D.Disk (sizes_of shape.now) extents.now disk.old)) into.new result }
    ensures places { D.tells → ReadsBody (sizes_of shape.now) extents.now header.now (D.history disk.old) (D.history disk.new) result }
{
    if read_at(disk, shape, extents, header.at + HEADER as u64, into).is_err() {
        return Err(CategoryFault::DiskFault);
    }
    let found = mark_of(into);
    if found != header.mark {
        return Err(CategoryFault::Damaged {
            damage: Damage::Body {
                owner: who,
                at: header.at,
                recorded: header.mark,
                found,
            },
        });
    }
    Ok(())
}

/// The bytes of a header: the length of the body, and the mark.
pub fn header_bytes(size: u32, mark: &Mark) -> [u8; HEADER]
    ensures so { result ≡ four size ++ mark.now.0 }
    ensures sized { length result ≡ 36 }
{
    let mut bytes = [0u8; HEADER];
    put_u32(&mut bytes, 0, size);
    bytes[4..].copy_from_slice(&mark.0);
    bytes
}

// The header that these bytes say, or the damage that it is, where `left` bytes follow it in its row.
fn checked_header(
    bytes: &[u8; HEADER],
    max: u32,
    who: Owner,
    at: u64,
    left: u64,
) -> Result<Header, Damage>
    ensures so { result ≡ header_in max who at left bytes.now }
    ensures some { IfOk result (λ header. 1 ≤ header.length) }
    ensures short { IfOk result (λ header. header.length ≤ max) }
    ensures place { IfOk result (λ header. header.at ≡ at) }
    ensures within { IfOk result (λ header. header.length ≤ left) }
{
    let (length, mark) = parts_of(bytes);
    if length >= 1 && length <= max && u64::from(length) <= left {
        return Ok(Header { length, mark, at });
    }
    Err(Damage::Header {
        owner: who,
        at,
        length,
        left,
    })
}

// The length and the mark that a header says.
fn parts_of(bytes: &[u8; HEADER]) -> (u32, Mark)
    ensures length { result.0 ≡ from_be_bytes w32 (take 4 bytes.now) }
    ensures mark { result.1.0 ≡ take 32 (drop 4 bytes.now) }
{
    let length = Cursor::new(bytes).take_u32().unwrap_or(0);
    let mut mark = [0u8; 32];
    mark.copy_from_slice(&bytes[4..]);
    (length, Mark(mark))
}
