//! What is so of whole logs and of every store, as laws that need no code.
ghost use Rattle.std.specs.Prelude.{List};
ghost use Rattle.doc_model.specs.declared.command.Entry.{Entry};
ghost use Rattle.doc_model.specs.Agreement.{Agree, MergedIsLegal};
ghost use Rattle.doc_model.specs.Answers.{Limits};
ghost use Rattle.doc_model.specs.ClientLog.{ClientLog};
ghost use Rattle.doc_model.specs.Growth.{AccountGoesOn, LogGoesOn};
ghost use Rattle.doc_model.specs.LawfulStore.{CommandKeepsLawful, EntryKeepsLawful};
ghost use Rattle.doc_model.specs.LawfulStore.{HistoryIsLawful, OpensLawful, PutsAreShallow};
ghost use Rattle.doc_model.specs.Merge.{IsMerge};
ghost use Rattle.doc_tree.specs.Tree.{DocTree};

/// Logs that agree on the versions that they read and made are, merged, a history of one store.
pub fn merged_is_legal()
    ensures legal { (l : Limits) (trees : List DocTree) (logs : List ClientLog)
        (merged : List Entry)
        → Agree l trees logs → IsMerge logs merged → MergedIsLegal l trees logs merged }
{}

/// A log that follows from a list of versions does so too with one entry more that stands after it,
/// and the client then has what that entry leaves.
pub fn log_goes_on()
    ensures follows { LogGoesOn }
    ensures account { AccountGoesOn }
{}

/// Every version of a store, and the draft of each client, is a lawful tree.
pub fn stores_stay_lawful()
    ensures opens { OpensLawful }
    ensures entry { EntryKeepsLawful }
    ensures command { CommandKeepsLawful }
    ensures history { HistoryIsLawful }
{}

/// In a lawful store no command that puts a text is answered that the tree would be too high.
pub fn puts_are_never_too_deep()
    ensures shallow { PutsAreShallow }
{}
