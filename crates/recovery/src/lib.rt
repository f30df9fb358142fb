//! What a power stop may leave of a volume at each disk call of the store, and that its calls count whole or not at all.
#![tactic(auto)]

ghost use Rattle.recovery.specs.Picks.{SteadyRecoverable, AgreesFrame, SettledSteady};
ghost use Rattle.recovery.specs.Steps.{AreSteps, OnePut, LessSteady, LessRecoverable};
ghost use Rattle.recovery.specs.Wider.{WiderSteady, BreaksWider, CountsWider, CloseWider, FollowWider, RefusedWider};
ghost use Rattle.recovery.specs.Harmless.{PutSteady, OutsideHarmless, DataHarmless, TableHarmless, WritingHarmless, WroteWider, LocalSteady};
ghost use Rattle.recovery.specs.Turning.{PutTurns, StoppedRecoverable, TurningRecoverable, TurningSteady};
ghost use Rattle.recovery.specs.Turning.{WipingRecoverable, FormatRecoverable, FormatSteady, RestartRecovers, StartedSteady};
ghost use Rattle.recovery.specs.Owed.{DeleteTurns, RegisterTurns, CloseTurns, SaneGives, RegisterNamed};
ghost use Rattle.recovery.specs.Kept.{RunKept, RunSize, RunPromise, LivesHolds};
ghost use Rattle.recovery.specs.Keeping.{Keeps};
ghost use Rattle.recovery.specs.Cards.{Cards};

/// Every call of a disk is a step on the picks, and what steps leave.
pub fn steps_stand()
    ensures steps { AreSteps }
    ensures put { OnePut }
    ensures steady { LessSteady }
    ensures recoverable { LessRecoverable }
{}

/// A steady disk is recoverable, and a settled one is steady where what is shown agrees.
pub fn picks_stand()
    ensures recoverable { SteadyRecoverable }
    ensures frame { AgreesFrame }
    ensures settled { SettledSteady }
    ensures local { LocalSteady }
{}

/// Which calls take nothing from the ledger, and that a steady disk stays so for such a ledger.
pub fn wider_stands()
    ensures steady { WiderSteady }
    ensures breaks { BreaksWider }
    ensures counts { CountsWider }
    ensures close { CloseWider }
    ensures wrote { WroteWider }
    ensures follow { FollowWider }
    ensures refused { RefusedWider }
{}

/// Which puts are harmless, and that they leave a steady disk so.
pub fn harmless_stands()
    ensures steady { PutSteady }
    ensures outside { OutsideHarmless }
    ensures bytes { DataHarmless }
    ensures table { TableHarmless }
    ensures write { WritingHarmless }
{}

/// The Put of Register, Close and Delete that turns one catalog into another.
pub fn turning_stands()
    ensures put { PutTurns }
    ensures stopped { StoppedRecoverable }
    ensures recoverable { TurningRecoverable }
    ensures steady { TurningSteady }
{}

/// The same of Format, which counts whole or not at all too.
pub fn format_stands()
    ensures stopped { WipingRecoverable }
    ensures recoverable { FormatRecoverable }
    ensures steady { FormatSteady }
{}

/// What a Start finds, and that the store goes on from it.
pub fn start_stands()
    ensures recovers { RestartRecovers }
    ensures steady { StartedSteady }
{}

/// What Delete, Register and Close owe at their Put, told of what they hold, makes it one that turns.
pub fn owed_stand()
    ensures delete { DeleteTurns }
    ensures register { RegisterTurns }
    ensures close { CloseTurns }
    ensures ledger { SaneGives }
    ensures name { RegisterNamed }
{}

/// A run keeps what its store keeps in each call, and so gives the whole promise to every Start.
pub fn run_stands()
    ensures kept { RunKept }
    ensures size { RunSize }
    ensures promise { RunPromise }
{}

/// A store of any origin holds a table whenever it is ready, so that its calls promise something.
pub fn lives_stand()
    ensures { LivesHolds }
{}

/// What is left for each call so that it keeps what a store keeps.
pub fn keeping_stands()
    ensures { Keeps }
{}

/// What each call owes is met on a small disk; a run begins on one, goes on with a call, and a Start follows.
pub fn cards_stand()
    ensures { Cards }
{}
