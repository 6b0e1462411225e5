//! What holds of every store that calls reach from the empty one.
#![tactic(auto)]

ghost use Rattle.reached.specs.Scans.{ScansAscend};
ghost use Rattle.reached.specs.Sound.{StoresAreSound};

/// Whatever calls are made on an empty store: generations and handle numbers are unique and below their counts, contents
/// hold at least their header and at most 1,016 bytes, names are valid and unique, and no table holds more than its limit.
pub fn stores_are_sound()
    ensures { StoresAreSound }
{}

/// Whatever calls are made on an empty store, a scan lists exactly the names of a partition's files, each once, in
/// ascending byte order, a shorter prefix first.
pub fn scans_ascend()
    ensures { ScansAscend }
{}
