//! Laws of the definitions: what each function here ensures holds of all values.

ghost use Rattle.spec_seen.specs.ByLine.{LinesAddOnce};
ghost use Rattle.spec_seen.specs.Held.{BlocksAreKnownByThen, HeldBlobsStayPublished, HeldBlobsStayWhere};
ghost use Rattle.spec_seen.specs.Pages.{PagesShow};
ghost use Rattle.spec_seen.specs.Published.{LoggedRootsHavePublishers};
ghost use Rattle.spec_seen.specs.Versions.{MapHasVersions};

/// A line whose result came of pages as the device has them says of the device what it should.
pub fn pages_of_the_device_show_what_it_has()
    ensures { PagesShow }
{}

/// While a slot holds a root, who published it last stays the same.
pub fn a_held_blob_stays_published()
    ensures { HeldBlobsStayPublished }
{}

/// Each line of a lawful script adds one blob at most: it puts before it publishes, and publishes
/// what it has put.
pub fn lines_add_one_blob_at_most()
    ensures { LinesAddOnce }
{}

/// While a slot holds a root, its blob's blocks stay the same, where lines made the history.
pub fn a_held_blob_stays_where_it_is()
    ensures { HeldBlobsStayWhere }
{}

/// A blob of the map has the volume's version where it was published in this mount, and else that of
/// the opening image.
pub fn a_blob_of_the_map_has_its_publishers_version()
    ensures { MapHasVersions }
{}

/// While no write or sync has failed, a root that the log publishes was published by somebody.
pub fn a_root_of_the_log_has_a_publisher()
    ensures { LoggedRootsHavePublishers }
{}

/// A blob's blocks are known by the device's events up to then.
pub fn blocks_are_known_by_then()
    ensures { BlocksAreKnownByThen }
{}
