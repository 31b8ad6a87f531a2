//! What holds of the blocks of a blob as they are written.

ghost use Rattle.bv_fetch.specs.Laws.{WrittenBlobsVerify};

/// The blocks of bytes with a root and a size, tree and data in their order, have the blob: each
/// window of them, as a fetch finds it, verifies.
pub fn written_blobs_verify()
    ensures { WrittenBlobsVerify }
{}
