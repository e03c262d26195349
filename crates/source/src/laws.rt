// The laws of reading, each the contract of a function that returns nothing of note.
ghost use Rattle.source.specs.Laws.{FaultsAreDecided};

// A fault is decided by the tokens up to the one at which reading stopped.
pub fn faults_are_decided() -> u8
    ensures { FaultsAreDecided }
{
    0
}
