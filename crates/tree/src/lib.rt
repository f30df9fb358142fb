//! The laws of the directory tree, for any order of names, each stated by the contract of a function.
#![tactic(auto)]

ghost use Rattle.tree.specs.Laws.{AnyOrder, Shares, LookupFinds, EmptyGood};
ghost use Rattle.tree.specs.Stored.{AnyCompare, SeekLooks, InsertStores, ReplaceStores, DeleteStores};
ghost use Rattle.tree.specs.Stored.{SpotsStand, GoodApart, InsertFrees, ReplaceFrees, DeleteFrees, InsertBalances, ReplaceBalances, DeleteBalances};
ghost use Rattle.tree.specs.Examples.{Examples, Reached};
ghost use Rattle.tree.specs.StoredExamples.{StoredExamples};
ghost use Rattle.tree.specs.Laws.{InsertPuts, InsertKeeps, InsertLevels, InsertWithin, InsertRises, InsertGains, InsertPath, InsertSix, InsertChanges, InsertAgain};
ghost use Rattle.tree.specs.Laws.{DeleteTakes, DeleteKeeps, DeleteLoses, DeleteMost, DeleteChanges};

/// The tree of a new directory is good, and a search finds what the entries in order have.
pub fn lookup_stands<K>()
    ensures begins { AnyOrder K EmptyGood }
    ensures finds { AnyOrder K LookupFinds }
{}

/// An insert: the entries, the pages and the levels.
pub fn insert_stands<K>()
    ensures puts { AnyOrder K InsertPuts }
    ensures keeps { AnyOrder K InsertKeeps }
    ensures stays { AnyOrder K InsertLevels }
    ensures within { AnyOrder K InsertWithin }
    ensures rises { AnyOrder K InsertRises }
    ensures gains { AnyOrder K InsertGains }
    ensures path { AnyOrder K InsertPath }
    ensures six { AnyOrder K InsertSix }
{}

/// A delete: the entries and the pages.
pub fn delete_stands<K>()
    ensures takes { AnyOrder K DeleteTakes }
    ensures keeps { AnyOrder K DeleteKeeps }
    ensures loses { AnyOrder K DeleteLoses }
    ensures most { AnyOrder K DeleteMost }
{}

/// The changed pages, by their definition, are those that insert and delete count.
pub fn changes_stand<K>()
    ensures insert { AnyOrder K InsertChanges }
    ensures again { AnyOrder K InsertAgain }
    ensures delete { AnyOrder K DeleteChanges }
{}

/// How two neighbours share their entries, whatever hangs below them.
pub fn shares_stand<K, S>()
    ensures { Shares K S }
{}

/// A tree in sectors: search, and an insert and a delete that write the changed pages to free sectors and the root to its own.
/// The sectors set free are those of the old pages that the new tree has no more.
pub fn stored_stands<K>()
    ensures seeks { AnyCompare K SeekLooks }
    ensures inserts { AnyCompare K InsertStores }
    ensures replaces { ReplaceStores K }
    ensures deletes { AnyOrder K DeleteStores }
    ensures spots { SpotsStand K }
    ensures apart { AnyOrder K GoodApart }
    ensures insert_frees { AnyOrder K InsertFrees }
    ensures replace_frees { AnyOrder K ReplaceFrees }
    ensures delete_frees { AnyOrder K DeleteFrees }
    ensures insert_balances { AnyOrder K InsertBalances }
    ensures replace_balances { AnyOrder K ReplaceBalances }
    ensures delete_balances { AnyOrder K DeleteBalances }
{}

/// Worked examples, and good trees in which an insert changes six pages and a delete four.
pub fn examples_stand()
    ensures worked { Examples }
    ensures reached { Reached }
    ensures stored { StoredExamples }
{}
