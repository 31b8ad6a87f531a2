//! Laws of the definitions: what each function here ensures holds of all values.

ghost use Rattle.spec_printed.specs.Printed.{PrintFixesHistory, PrintedIsRead};

/// The events of a history are read from what is printed of it.
pub fn a_printed_history_is_read_again()
    ensures { PrintedIsRead }
{}

/// Two histories that began alike, and of which the same is printed, are one.
pub fn a_print_fixes_the_history()
    ensures { PrintFixesHistory }
{}
