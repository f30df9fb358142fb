//! Laws of page editing, stated by the contract of a function.
ghost use Rattle.directory.specs.Lines.{LineLaws};
ghost use Rattle.directory.specs.Trees.{TreeLaws};

/// What holds of two neighbours in a line.
pub fn lines_stand()
    ensures { LineLaws }
{}

/// Page editing does to a page what the tree's insert and delete do to it.
pub fn trees_stand()
    ensures { TreeLaws }
{}
