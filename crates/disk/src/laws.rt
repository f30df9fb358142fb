ghost use Rattle.disk.specs.Laws.{Follows};

/// What follows from the rules for any disk: which answer a call must give, and what an accepted put leaves.
pub fn rules_stand()
    ensures { Follows }
{}
