//! Laws of the definitions: what each function here ensures holds of all values.

ghost use Rattle.spec_complete.specs.Fit.{LinesThatFitMeetNone};
ghost use Rattle.spec_complete.specs.Good.{EventsGoWell, NothingStops, RunsGoWell};
ghost use Rattle.spec_complete.specs.Sound.{HeldLinesFit, LinesAreOfTheMap, MomentsHoldTheirs, SoundContentsVerify};
ghost use Rattle.spec_complete.specs.Whole.{SoundRunsGoWell};

/// Where no call of the device failed and there is enough of all, each event replies what comes where
/// nothing fails.
pub fn events_go_well()
    ensures { EventsGoWell }
{}

/// A run in which no call of the device failed, which had enough of all and met no mismatch went well.
pub fn runs_go_well()
    ensures { RunsGoWell }
{}

/// Where each window of a line's blob verifies on the device as its own event ends, no line of a lawful
/// script meets a mismatch, if the results say of the device what they should.
pub fn lines_that_fit_meet_no_mismatch()
    ensures { LinesThatFitMeetNone }
{}

/// As the own event of a line that opened, reads or scans a blob ends, the blob is in the map, with its
/// size.
pub fn lines_are_of_the_map()
    ensures { LinesAreOfTheMap }
{}

/// What a sound blob of an image has in its blocks verifies.
pub fn sound_contents_verify()
    ensures { SoundContentsVerify }
{}

/// Where the opening's blobs are sound, and a line's blob has in its blocks what it had in the opening
/// image or what verifies, each window of it verifies.
pub fn held_lines_fit()
    ensures { HeldLinesFit }
{}

/// A run over a volume of sound blobs goes well where no call of the device failed, there is enough, the
/// results say of the device what they should, and the lines' blobs hold theirs.
pub fn sound_runs_go_well()
    ensures { SoundRunsGoWell }
{}

/// Where the device has of each blob of the map what it should as each event ends, the blobs of lines that
/// open, read or scan them hold theirs.
pub fn moments_hold_theirs()
    ensures { MomentsHoldTheirs }
{}

/// Where no call of the device failed and there was enough, nothing stops the volume.
pub fn nothing_stops()
    ensures { NothingStops }
{}
