//! Laws of the mound's steps: what each of them keeps of the facts, and what may be answered.
ghost use Rattle.pq_mound.specs.Laws.{FullWhereNoneIsFree, JoinsKeep, RestsKeep};
ghost use Rattle.pq_mound.specs.Laws.{HeadsAreLeast, EmptyRootsHoldNone, TakesKeep, SwapsKeep, EndsKeep};
ghost use Rattle.pq_mound.specs.Laws.{NewMoundsKeep, HandsChange};
ghost use Rattle.pq_mound.specs.Laws.{OwnStoresLink, JoinsLink, StoresRest};
ghost use Rattle.pq_mound.specs.Laws.{TakesLink, SwapsLink, EndsLink, OtherStoresLeaveChains};

/// Law: the steps of an insert keep the facts of the mound. Where it ends there is room for its entry, and where it
/// finds no free cell, Full may be answered.
pub fn inserts_keep_the_mound()
    ensures full { FullWhereNoneIsFree }
    ensures join { JoinsKeep }
    ensures rest { RestsKeep }
{}

/// Law: the steps of a removal keep the facts of the mound, whoever has holes below. The root's head is the least
/// entry, and where the root's list is empty there is none.
pub fn removals_keep_the_mound()
    ensures least { HeadsAreLeast }
    ensures empty { EmptyRootsHoldNone }
    ensures take { TakesKeep }
    ensures swap { SwapsKeep }
    ensures end { EndsKeep }
{}

/// Law: a new mound has the facts.
pub fn mounds_open()
    ensures { NewMoundsKeep }
{}

/// Law: a cell may go from the free ones to a seat, and back.
pub fn cells_change_hands()
    ensures { HandsChange }
{}

/// Law: each step leaves the lists linked in the words of their cells.
pub fn lists_are_linked()
    ensures own { OwnStoresLink }
    ensures join { JoinsLink }
    ensures store { StoresRest }
    ensures take { TakesLink }
    ensures swap { SwapsLink }
    ensures end { EndsLink }
    ensures other { OtherStoresLeaveChains }
{}
