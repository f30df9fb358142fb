//! What holds of the table, of the ledger, and of the two together, each stated by the contract of a function.

ghost use Rattle.std.specs.Prelude.{Bool};
ghost use Rattle.promise.specs.Laws.{StaysProper, Accounts, Refusals, StaysSane, RestartForgets, StayTogether, HoldsOne, HoldsClear};
ghost use Rattle.promise.specs.Witnesses.{Witnesses, Refused};
ghost use Rattle.promise.specs.Growing.{Growing};
ghost use Rattle.promise.specs.Replacing.{Replacing};
ghost use Rattle.promise.specs.Splits.{Splits};

/// Every call keeps the table proper, whatever it answers.
pub fn proper_stands()
    ensures { StaysProper }
{}

/// An accepted call takes no more sectors than are free, and the account of free sectors is exact.
pub fn accounts_stand()
    ensures { Accounts }
{}

/// A refusal but 3 changes nothing; after a 3 the store waits.
pub fn refusals_stand()
    ensures { Refusals }
{}

/// The ledger of a run stays sane: through calls, broken-off ones and starts.
pub fn sane_stands()
    ensures { StaysSane }
{}

/// An accepted start forgets slots and files without a name, and nothing else.
pub fn restart_stands()
    ensures { RestartForgets }
{}

/// Table and ledger go together, through every call, after a format and after an accepted start.
pub fn together_stand()
    ensures { StayTogether }
{}

/// A store holds one table, as far as anything of it can be seen. What it has free and open is clear of what else is laid down.
pub fn holds_stands()
    ensures one { HoldsOne }
    ensures clear { HoldsClear }
{}

/// What the calls promise can be kept: each of them on a small store, accepted and refused, is as it is promised.
pub fn witnesses_stand()
    ensures done { (calm : Bool) → Witnesses calm }
    ensures refused { Refused }
{}

/// What Register and Delete promise can be kept where pages are split and joined.
pub fn splits_stand()
    ensures { Splits }
{}

/// What Write and Close promise can be kept where a file grows past the sectors that are laid down.
pub fn growing_stands()
    ensures { Growing }
{}

/// What Register and Close promise can be kept where a name is taken over while its old file is open.
pub fn replacing_stands()
    ensures { Replacing }
{}
