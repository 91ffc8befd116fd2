//! Laws of the definitions of chains, each the contract of a function with an empty body: of accepted chain files,
//! and of what a chain leaves of a capture.
//!
//! The crate stands on `chain_spec`, `tenant_spec` and `run_spec`. Each law is stated in `specs/`: `Right` and
//! `Files` of accepted chain files, `Keys`, `Counts` and `SharedRest` of what a chain leaves.
#![tactic(auto)]

ghost use Rattle.chain_laws.specs.Files.{FilesAreDistinct};
ghost use Rattle.chain_laws.specs.Counts.{LeavesNoMore, CountsAreSmall};
ghost use Rattle.chain_laws.specs.Right.{AcceptedIsRight};
ghost use Rattle.chain_laws.specs.Keys.{KeysAreDistinct, AnswersAreDistinct, RecordsStandOnce, KeysStandOnce};
ghost use Rattle.chain_laws.specs.SharedRest.{RestsMayShare};

/// A law: what is right of each chain of an accepted chain file: names, the ranges of numbers, the lengths of lists,
/// and the facts that join its parts. So the code may rely on it.
pub fn accepted_chains_are_right()
    ensures { AcceptedIsRight }
{}

/// A law: the files of a run on an accepted chain file have names of their own: no two are the same, whether of one
/// tenant or of two, none is the chain file, and none is a tenant's capture.
pub fn files_are_distinct()
    ensures { FilesAreDistinct }
{}

/// A law: whatever records are refused, no two items of a leaf group's list have the same key, and the keys rise.
pub fn keys_are_distinct()
    ensures { KeysAreDistinct }
{}

/// A law: the same of what a chain answers for any records of a capture, in any order.
pub fn answers_are_distinct()
    ensures { AnswersAreDistinct }
{}

/// A law: no two items of all leaf groups together have the same key, where it is that of a record or of a window that
/// a record triggered.
pub fn records_stand_once()
    ensures { RecordsStandOnce }
{}

/// A law: where the whole chain has at most one `window`, no two items of all leaf groups together have the same key.
pub fn keys_stand_once()
    ensures { KeysStandOnce }
{}

/// A worked example: with a `window` each in two groups of an accepted chain, two items of the two groups have one key.
pub fn rests_may_share()
    ensures { RestsMayShare }
{}

/// A law: what a chain leaves and drops of some items are together no more than one for each of them and one for each
/// byte of its frame.
pub fn leaves_no_more()
    ensures { LeavesNoMore }
{}

/// A law: the items of all leaf groups and all drops of a capture that is read are together no more than 33,554,432,
/// the most bytes that it may have. So counts of 32 bits are exact.
pub fn counts_are_small()
    ensures { CountsAreSmall }
{}
