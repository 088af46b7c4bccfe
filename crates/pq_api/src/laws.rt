//! Laws of what a pass knows.
ghost use Rattle.pq_api.specs.Laws.{SizesAreBounded, CallsAreSteps, PlacesAreCalls, OneSeatHasMadeAll};
ghost use Rattle.pq_api.specs.Laws.{OneSeatSteps, FullWithOneSeat, EmptyWhereNothingIsLeft, BelowWhereTheLeastIs};

/// Law: a legal history never leaves more entries than the capacity.
pub fn sizes_are_bounded()
    ensures { SizesAreBounded }
{}

/// Law: each call that a pass keeps is the mark at its place in each
/// history that the pass knows, and a step there. So `Full` and `Empty` came where the replay has them.
pub fn calls_are_steps()
    ensures { CallsAreSteps }
{}

/// Law: in the actual history of a pass, at each place stands a call that
/// the pass keeps, and only one.
pub fn places_are_calls()
    ensures { PlacesAreCalls }
{}

/// Law: with one seat, an insert is answered `Full` exactly where as
/// many entries are held as the capacity is.
pub fn full_with_one_seat()
    ensures { FullWithOneSeat }
{}

/// Law: a removal is answered `Empty` exactly where no entry is held.
pub fn empty_where_nothing_is_left()
    ensures { EmptyWhereNothingIsLeft }
{}

/// Law: a removal below a limit is answered `Empty` exactly where no entry
/// is held, `Above` exactly where some are and the least key is the limit or above it, and `Got` exactly with
/// the least entry, where its key is below the limit.
pub fn below_where_the_least_is()
    ensures { BelowWhereTheLeastIs }
{}

/// Law: with one seat, each history that the pass knows is its own calls,
/// in order, and nothing else.
pub fn one_seat_has_made_all()
    ensures { OneSeatHasMadeAll }
{}

/// Law: with one seat, each call of the pass is a step from the entries
/// that its calls before it leave, and these calls with it leave the entries after that step.
pub fn one_seat_steps()
    ensures { OneSeatSteps }
{}
