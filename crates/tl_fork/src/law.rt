//! What evidence shows.

ghost use Rattle.tl_fork.specs.Evidence.{AccusesNoHonestLog};

/// States that if each checkpoint of a log is of a prefix of one list, nothing is evidence against it, or two
/// different byte strings, one hashed to check the proof and one for the list, have one SHA-256. It computes nothing:
/// its contract is the law.
pub fn fork_law()
    ensures { AccusesNoHonestLog }
{}
