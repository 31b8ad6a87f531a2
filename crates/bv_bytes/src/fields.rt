//! The fields of a record, by one table for its reader and its writer.

/// Goes over the table of a record: `offset width name;` a row, each width 1 to 8.
///
/// `get Row from bytes` makes the struct `Row`, whose fields of type `u64` have the table's names.
/// `put row into bytes` writes the fields of such a struct, each of which fits its width.
#[macro_export]
macro_rules! fields {
    (get $row:ident from $bytes:expr; $($offset:literal $width:literal $name:ident;)*) => {
        $row { $($name: $crate::Field::<$offset, $width>::get($bytes)),* }
    };
    (put $row:ident into $bytes:expr; $($offset:literal $width:literal $name:ident;)*) => {
        $($crate::Field::<$offset, $width>::put($bytes, $row.$name);)*
    };
}
