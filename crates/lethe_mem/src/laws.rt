//! What is true of all entries in order.
ghost use Rattle.lethe_mem.specs.Order.{OneList, OwnEntries};
ghost use Rattle.lethe_mem.specs.Pairs.{PairsAnswer};

/// Two lists in the order of the keys that have the same entry at every key are one list.
pub fn one_list()
    ensures { OneList }
{}

/// In a list in the order of the keys each entry is the entry of its key. The entry of a key stands in the list, under that key.
pub fn own_entries()
    ensures { OwnEntries }
{}

/// The pairs of the keys that were put, tombstones left out, are the map that the entries leave.
pub fn pairs_answer()
    ensures { PairsAnswer }
{}
