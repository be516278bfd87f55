//! Laws of the queue's definitions. Each is the contract of a function that does nothing.
ghost use Rattle.share_model.specs.stride.Moves.{MovesCommute, NextIsUnique};
ghost use Rattle.share_model.specs.stride.Level.{LevelledIsLevel, LevelStays, MovesInAnyOrder, LevelledInAnyOrder};
ghost use Rattle.share_model.specs.stride.Level.{RemovalCommutes, RemovalCommutesWithLevel};
ghost use Rattle.share_model.specs.stride.Runs.{RunsStayClose};
ghost use Rattle.share_model.specs.stride.Shares.{SharesStayClose};

/// Moves of two flows give the same state in either order, if nothing is charged between them.
pub fn moves_commute()
    ensures { MovesCommute }
{}

/// After a levelling of distinct flows a client competes if and only if its flow has tickets, and then with these. A
/// level client takes no move.
pub fn levelling_levels()
    ensures level { LevelledIsLevel }
    ensures stays { LevelStays }
{}

/// Moves of distinct flows give the same state in every order, if nothing is charged between them. So does a levelling.
pub fn moves_in_any_order()
    ensures moves { MovesInAnyOrder }
    ensures levelling { LevelledInAnyOrder }
{}

/// The removal of a client that does not compete and a move or the levelling of another flow give the same state in
/// either order.
pub fn removal_commutes()
    ensures moves { RemovalCommutes }
    ensures levelling { RemovalCommutesWithLevel }
{}

/// No queue has two next flows.
pub fn next_is_unique()
    ensures { NextIsUnique }
{}

/// Take two passes, `one` and `other`, and charge `one` only while it is at most `other`. Then `one` is charged at most
/// the greater of 0 and a sum of three terms. They are what `other` is charged, the distance that `other` was ahead at
/// the start, and the largest charge to `one`.
pub fn shares_stay_close()
    ensures { SharesStayClose }
{}

/// The same of two flows that compete throughout a run of the queue with unchanged tickets.
pub fn runs_stay_close()
    ensures { RunsStayClose }
{}
