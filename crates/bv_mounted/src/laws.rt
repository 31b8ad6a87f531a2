//! Laws of a mount: each is the contract of a function that does nothing.
ghost use Rattle.std.specs.Prelude.{◌≡◌, [], Option};
ghost use Rattle.spec_core.specs.History.{History, opening_map};
ghost use Rattle.spec_crash.specs.Crash.{HoldsWhole, CrashPrefix};
ghost use Rattle.bv_device.specs.Told.{Disk, now_of};
ghost use Rattle.bv_mount.specs.Recovers.{KeepsVolume};
ghost use Rattle.bv_mounted.specs.Opens.{OpensWithItsImage, RefusedMountsSurvive, SurvivesFromItsImage};

/// A run that keeps the volume of a disk, such as a recovery that failed, keeps the theorem of stops
/// of a mount without an event, where the disk held the opening's blobs whole.
pub fn a_kept_volume_keeps_the_theorem_of_stops()
    ensures { (d : Disk) (told : Option Disk) (h : History) (kept : KeepsVolume d told)
        → h.events ≡ [] → HoldsWhole (now_of d) (opening_map h)
        → CrashPrefix (now_of d) kept.events h }
{}

/// On a settled device that tells, the history of a mounted volume opens with what the image has:
/// its blobs, its counts and its next number. So it does at each later moment of the mount.
pub fn a_mounted_history_opens_with_its_image()
    ensures { OpensWithItsImage }
{}

/// Where each blob of that image was whole, the mounted volume survives each stop of the machine.
pub fn a_mounted_volume_survives_from_its_image()
    ensures { SurvivesFromItsImage }
{}

/// A refused mount left the device as it was, or each stop since leaves the blobs of the image.
pub fn a_refused_mount_survives()
    ensures { RefusedMountsSurvive }
{}
