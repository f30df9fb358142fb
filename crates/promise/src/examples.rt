//! Worked examples of calls and of the ledger, each stated by the contract of a function.

ghost use Rattle.promise.specs.Examples.{Script, Room, Handles, TakenOver, Riders, FirstNo, Changes, Threes, BrokenOff};

/// Calls on small tables, and what the ledger makes of calls that were broken off.
pub fn examples_stand()
    ensures script { Script }
    ensures room { Room }
    ensures handles { Handles }
    ensures taken_over { TakenOver }
    ensures riders { Riders }
    ensures first_no { FirstNo }
    ensures changes { Changes }
    ensures threes { Threes }
    ensures broken_off { BrokenOff }
{}
