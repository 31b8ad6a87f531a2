//! Blobs, their honest windows, and what verification says of a window that is handed in.

ghost use Rattle.std.specs.Prelude.{◌≡◌, All, IsTrue, IfOk, length};
ghost use Rattle.bv_pager.specs.Reading.{FitsIn};

use bv_merkle::{Digest, levels, windows};
use bv_proof::{Mismatch, RawWindow, first_fault, raw_of, window_bytes};
use std::alloc::{AllocError, Global};

/// The bytes of a block.
pub(crate) const BLOCK: u32 = 8192;

/// Byte i of the blob is (i + i div 8192) mod 256.
pub(crate) fn seq(alloc: Global, size: u32) -> Result<Vec<u8>, AllocError>
    ensures { IfOk result (λ bytes. length bytes.items ≡ size) }
{
    let mut bytes = Vec::new(alloc);
    for i in 0..size {
        bytes.push(((i % 256 + i / BLOCK) % 256) as u8)?;
    }
    Ok(bytes)
}

/// A window of these bytes with its path, where there is one of this number.
pub(crate) fn honest(
    alloc: Global,
    bytes: &[u8],
    window: u64,
) -> Result<Option<RawWindow>, AllocError> {
    if window >= windows(bytes.len() as u64) {
        return Ok(None);
    }
    let raw = raw_of(alloc, bytes, window)?;
    Ok(Some(raw))
}

/// Whether a window has the lengths that its number gives it in a blob of this size.
pub(crate) fn fits(size: u64, raw: &RawWindow) -> bool
    ensures { IsTrue result → FitsIn size raw.now }
{
    raw.window < windows(size)
        && raw.bytes.len() as u64 == window_bytes(size, raw.window)
        && raw.path.len() as u64 == levels(size) as u64
}

/// What verification says of a window.
#[derive(Clone, Copy, Debug, PartialEq, Eq)]
pub(crate) enum Verdict {
    /// Its lengths are others.
    Misfit,
    Verifies,
    Fails(Mismatch),
}

/// What verification says of a window.
pub(crate) fn judged(name: &Digest, size: u64, raw: &RawWindow) -> Verdict {
    if !fits(size, raw) {
        return Verdict::Misfit;
    }
    match first_fault(name, size, raw) {
        None => Verdict::Verifies,
        Some(mismatch) => Verdict::Fails(mismatch),
    }
}

/// Windows, and one more where it fits.
pub(crate) fn with_one(
    size: u64,
    mut raws: Vec<RawWindow>,
    raw: RawWindow,
) -> Result<Vec<RawWindow>, AllocError>
    requires { All (FitsIn size) raws.items }
    ensures { IfOk result (λ more. All (FitsIn size) more.items) }
{
    if fits(size, &raw) {
        raws.push(raw)?;
    }
    Ok(raws)
}

/// A digest as two numbers, whose hexadecimal digits are those of its text.
pub(crate) fn halves(digest: &Digest) -> [u128; 2] {
    let mut front = [0; 16];
    front.copy_from_slice(&digest.0[..16]);
    let mut back = [0; 16];
    back.copy_from_slice(&digest.0[16..]);
    [u128::from_be_bytes(front), u128::from_be_bytes(back)]
}
