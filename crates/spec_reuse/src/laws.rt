//! Laws of the definitions: what each function here ensures holds of all values.

ghost use Rattle.spec_reuse.specs.Reuse.{PurgedFitsAgain};

/// A blob can be purged and then published again where it was.
pub fn a_purged_blob_fits_again()
    ensures { PurgedFitsAgain }
{}
