//! What is found by a key, and what a command gets whose key was used. Read `repeats_get_their_reply` first.

ghost use Rattle.std.specs.Prelude.{ℕ};
ghost use Rattle.dh_laws.specs.Repeating.{KeysAreFound, KeysAreOfOne, NothingNewChangesNothing, RepeatsGetTheirReply, SentAgainGetsTheSameReply};

/// Something is found by a key exactly where a receipt, or a run, has it.
pub fn keys_are_found()
    ensures { KeysAreFound }
{}

/// Where no key stands twice, exactly the receipt or the run that has the key is found.
pub fn keys_are_of_one()
    ensures { KeysAreOfOne }
{}

/// A refusal, or a reply that the command was carried out before, leaves the state as it was.
pub fn nothing_new_changes_nothing()
    ensures { (size : ℕ) → NothingNewChangesNothing size }
{}

/// Where no run is open, a receipt, a run or an opening whose key was used gets the reply that is kept, or refusal 9, and
/// the state stays.
pub fn repeats_get_their_reply()
    ensures { (size : ℕ) → RepeatsGetTheirReply size }
{}

/// A receipt or a run that was accepted with no run open, and is sent again next, is told its number, or its sum, as before; so is a
/// run that was opened and posted, and it doesn't matter whether it is sent as a run or as an opening.
pub fn sent_again_gets_the_same_reply()
    ensures { (size : ℕ) → SentAgainGetsTheSameReply size }
{}
