//! Laws of tickets and segments: consequences of the ticket invariant, and the law that the segments together have each
//! car exactly once.
//!
//! Each law is the contract of a function with an empty body.

ghost use Rattle.std.specs.Prelude.{ℕ, Bool};
ghost use Rattle.trlab_segments.specs.Laws.{AllPassesHaveAllTickets, AnswersJoin, CounterIsBounded};
ghost use Rattle.trlab_segments.specs.Laws.{SegmentsAreAllCars, SegmentsBeginAndEnd, SegmentsHaveCars};

/// The shared counter stays near the count, so it never overflows. A drawer with all passes has all tickets exactly if
/// the counter has reached the count.
pub fn counter_shows_drawn_tickets()
    ensures bounded { CounterIsBounded }
    ensures all { AllPassesHaveAllTickets }
{}

/// Segments are adjacent, from the first car to the last. None is empty if there are at most as many as cars.
pub fn segments_are_all_cars()
    ensures ends { SegmentsBeginAndEnd }
    ensures some { SegmentsHaveCars }
    ensures all { SegmentsAreAllCars }
{}

/// The speeds (or lane changes) of the segments, one after the other, are those of all cars.
pub fn answers_join()
    ensures speeds { AnswersJoin ℕ }
    ensures choices { AnswersJoin Bool }
{}
