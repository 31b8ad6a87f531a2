//! The test of a row.

/// Returns from the function with a fault where the test of a row fails.
#[macro_export]
macro_rules! ensure {
    ($test:expr => $fault:expr) => {
        if !($test) {
            return Err($fault);
        }
    };
}
