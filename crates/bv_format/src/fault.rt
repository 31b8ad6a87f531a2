//! Why no volume was made.

use spec_record::FieldName;

/// Why `format` made no volume, in the order of the tests.
#[derive(Clone, Copy, Debug, PartialEq, Eq)]
pub enum FormatFault {
    /// A count is out of its limits: blocks, nodes or journal. The device was not touched.
    Counts {
        /// Which count it is.
        field: FieldName,
        /// The count.
        value: u64,
    },
    /// The device has too few blocks. It was not touched.
    ShortDevice {
        /// The blocks that the volume needs.
        wanted: u64,
        /// The blocks of the device.
        has: u64,
    },
    /// A write or a sync failed. A device that was settled holds one of the three cases of a stop.
    DeviceFault {
        /// The device's count of failed calls, right after the one that failed.
        fault: u64,
    },
}
