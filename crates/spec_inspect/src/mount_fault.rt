//! Why a device holds no volume.

use crate::{OpenFault, SurveyFault};
use spec_record::{FieldName, InfoFault, NodeFault, SuperFault};
use spec_tree::Digest;
use std::alloc::AllocError;

/// Why a device holds no volume, or none that can be read now.
///
/// All but the last two stand in the order of the tests.
#[derive(Clone, Copy, Debug, PartialEq, Eq)]
pub enum MountFault {
    /// Block 0 is no superblock of this device.
    Super(SuperFault),
    /// The journal's info block isn't one of this ring.
    Replay(InfoFault),
    /// The superblock that the journal leaves isn't a valid one of the same geometry.
    Moved,
    /// A node, or the chain from it, doesn't read; or it is a container that stands in no chain.
    Node {
        node: u32,
        fault: NodeFault,
    },
    /// A data block is in two extents.
    Overlap {
        block: u64,
    },
    /// A root has two inodes.
    Twice {
        root: Digest,
    },
    /// The stored bit of a block isn't the one that the extents ask for.
    Bitmap {
        block: u64,
        says: bool,
    },
    /// A count of the superblock, and what was counted.
    SuperCount {
        field: FieldName,
        said: u64,
        found: u64,
    },
    /// A call of the device failed.
    DeviceFault {
        /// The device's count of failed calls, right after the one that failed.
        fault: u64,
    },
    /// There was no memory.
    NoMemory,
}

impl From<AllocError> for MountFault {
    ghost use Rattle.std.specs.Prelude.{◌≡◌};
    ghost use Rattle.spec_inspect.specs.declared.mount_fault.MountFault.TheVariants.{NoMemory};

    ghost from_gives = { λ _ e. e ≡ NoMemory };

    fn from(_: AllocError) -> Self {
        MountFault::NoMemory
    }
}

impl From<OpenFault> for MountFault {
    ghost use Rattle.std.specs.Prelude.{◌≡◌};
    ghost use Rattle.spec_inspect.specs.Faults.{of_opening};

    ghost from_gives = { λ fault e. e ≡ of_opening fault };

    fn from(fault: OpenFault) -> Self {
        match fault {
            OpenFault::Super(fault) => MountFault::Super(fault),
            OpenFault::Replay(fault) => MountFault::Replay(fault),
            OpenFault::Moved => MountFault::Moved,
            OpenFault::DeviceFault { fault } => MountFault::DeviceFault { fault },
            OpenFault::NoMemory => MountFault::NoMemory,
        }
    }
}

impl From<SurveyFault> for MountFault {
    ghost use Rattle.std.specs.Prelude.{◌≡◌};
    ghost use Rattle.spec_inspect.specs.Faults.{of_survey};

    ghost from_gives = { λ fault e. e ≡ of_survey fault };

    fn from(fault: SurveyFault) -> Self {
        match fault {
            SurveyFault::Node { node, fault } => MountFault::Node { node, fault },
            SurveyFault::Overlap { block } => MountFault::Overlap { block },
            SurveyFault::Twice { root } => MountFault::Twice { root },
            SurveyFault::Bitmap { block, says } => MountFault::Bitmap { block, says },
            SurveyFault::SuperCount { field, said, found } => {
                MountFault::SuperCount { field, said, found }
            }
        }
    }
}
