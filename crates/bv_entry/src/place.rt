//! The places of a header: a target and a flag for each payload.
ghost use Rattle.std.specs.Prelude.{◌≡◌, ◌<◌, ◌≤◌, ◌+◌, ◌*◌, ◌^◌, length};
ghost use Rattle.spec_record.specs.Field.{field};
ghost use Rattle.spec_record.specs.Places.{
  target_in,
  flag_in,
  is_used_place,
  is_unused_place,
  is_place,
  wrong_place,
  block_in,
};
ghost use Rattle.bv_bytes.specs.Rows.{with_field};

use crate::payload::fits_flag;
use bv_bytes::{Block, Field};

/// The places of a header.
pub(crate) const PLACES: usize = 679;

/// A target, from its first byte on.
type Target = Field<0, 8>;

/// A flag, from its first byte on.
type Flag = Field<0, 4>;

/// Where the target of a place begins.
fn target_offset(place: usize) -> usize
    requires { place < 679 }
    ensures { result ≡ 40 + 8 * place }
{
    40 + 8 * place
}

/// Where the flag of a place begins.
fn flag_offset(place: usize) -> usize
    requires { place < 679 }
    ensures { result ≡ 5472 + 4 * place }
{
    5472 + 4 * place
}

pub(crate) fn target_at(header: &Block, place: usize) -> u64
    requires { place < 679 }
    ensures { result ≡ target_in header.now place }
{
    Target::get(&header[target_offset(place)..])
}

pub(crate) fn flag_at(header: &Block, place: usize) -> u64
    requires { place < 679 }
    ensures { result ≡ flag_in header.now place }
{
    Flag::get(&header[flag_offset(place)..])
}

/// Writes a place of a header.
pub(crate) fn put_place(header: &mut Block, place: usize, target: u64, flag: u64)
    requires place { place < 679 }
    requires flag { flag ≤ 1 }
    ensures header { let first = with_field header.old (40 + 8 * place) 8 target in
        header.new ≡ with_field first (5472 + 4 * place) 4 flag }
    ensures fits { target < 2 ^ 64 }
{
    Target::put(&mut header[target_offset(place)..], target);
    Flag::put(&mut header[flag_offset(place)..], flag);
}

fn is_used(header: &Block, meta: u64, place: usize, payload: &Block) -> bool
    requires { place < 679 }
    ensures { result ≡ is_used_place header.now meta place payload.now }
{
    let target = target_at(header, place);
    let rises = place == 0 || target_at(header, place - 1) < target;
    rises && target < meta && fits_flag(flag_at(header, place), payload)
}

fn is_unused(header: &Block, place: usize) -> bool
    requires { place < 679 }
    ensures { result ≡ is_unused_place header.now place }
{
    target_at(header, place) == 0 && flag_at(header, place) == 0
}

/// Whether a place of the header is as the count asks for.
fn is_right(blocks: &[Block], count: u64, meta: u64, place: usize) -> bool
    requires place { place < 679 }
    requires count { count ≡ field (block_in blocks.now 0) 32 8 }
    requires blocks { count + 2 ≤ length blocks.now }
    ensures { result ≡ is_place blocks.now meta place }
{
    if (place as u64) < count {
        is_used(&blocks[0], meta, place, &blocks[place + 1])
    } else {
        is_unused(&blocks[0], place)
    }
}

/// The first place of the header that is wrong.
pub(crate) fn wrong_place_of(blocks: &[Block], count: u64, meta: u64) -> Option<u64>
    requires count { count ≡ field (block_in blocks.now 0) 32 8 }
    requires blocks { count + 2 ≤ length blocks.now }
    ensures { result ≡ wrong_place blocks.now meta }
{
    for place in 0..PLACES {
        if !is_right(blocks, count, meta, place) {
            return Some(place as u64);
        }
    }
    None
}
