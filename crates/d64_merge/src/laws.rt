//! Laws of a merge: each function's contract is a law, and its body is empty.
ghost use Rattle.d64_merge.specs.Laws.{EachBlockIsADumps, ErrorsOnlyWhereAllAreLost, EqualDumpsMakeThatDump, OrderDoesNotMatter};

/// Each block of the merged dump is some dump's at its place, and has a read error only if no copy
/// is good.
pub fn merged_blocks_are_those_of_dumps()
    ensures blocks { EachBlockIsADumps }
    ensures errors { ErrorsOnlyWhereAllAreLost }
{}

/// One dump gives that dump, and so do equal ones.
pub fn equal_dumps_make_that_dump()
    ensures { EqualDumpsMakeThatDump }
{}

/// If no block is lost or taken from the first good copy, the bytes of the blocks don't depend on
/// the order of the dumps.
pub fn order_does_not_matter()
    ensures { OrderDoesNotMatter }
{}
