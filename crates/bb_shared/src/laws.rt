//! Laws of what seats keep, and of the control's words.
ghost use Rattle.bb_shared.specs.Laws.{DrawnAreFree, FirstMayDrawAgain, OthersStayFree};
ghost use Rattle.bb_shared.specs.Laws.{CostsAreTold, StopsAreTold};
ghost use Rattle.pq_numbers.specs.Draws.{DrawsAreApart, DrawsCover};

/// Law: a seat may put under each number that it has just drawn.
pub fn drawn_numbers_are_free<N>()
    ensures { DrawnAreFree N }
{}

/// Law: a seat that was never answered `Over` is still so after an answer `First`, and may draw again.
pub fn first_may_draw_again<N>()
    ensures { FirstMayDrawAgain N }
{}

/// Law: after a put under one number a seat may still put under its other numbers.
pub fn other_numbers_stay_free<N>()
    ensures { OthersStayFree N }
{}

/// Law: once all seats are joined, no number is in two of their draws.
pub fn joined_draws_are_apart()
    ensures { DrawsAreApart }
{}

/// Law: once all seats are joined, each number below the sum of the counts is in one of their draws.
pub fn joined_draws_cover()
    ensures { DrawsCover }
{}

/// Law: the best word of a cost gives this cost back.
pub fn costs_are_told()
    ensures { CostsAreTold }
{}

/// Law: the stop word of a stop gives this stop back.
pub fn stops_are_told()
    ensures { StopsAreTold }
{}
