//! Laws of rows: each function's contract is a law, and its body is empty.
ghost use Rattle.d64_leftovers.specs.Rows.{FilesAloneAreTheInventory};

/// If files alone are wanted, the rows are those of the inventory, in the same order.
pub fn files_alone_are_the_inventory()
    ensures { FilesAloneAreTheInventory }
{}
