//! Laws of the heap's steps: which marks each of them may place, and that it keeps the facts.
ghost use Rattle.pq_hunt.specs.Laws.{FullIsAStep, LeavesKeep, ClimbsKeep, SettlesAreSteps, LooksKeep, LostHavePlaces};
ghost use Rattle.pq_hunt.specs.Laws.{EmptyIsAStep, DrawsAreSteps, LastDrawsAreSteps, AboveIsAStep};
ghost use Rattle.pq_hunt.specs.Laws.{SiftsKeep, FillsKeep};
ghost use Rattle.pq_hunt.specs.Laws.{NewHeapsKeep, QuietHeapsAreNotBusy, WordsMeanOneNode};
ghost use Rattle.pq_hunt.specs.Laws.{PlacedHaveLetters, DrawsTell, SettlesTell};
ghost use Rattle.pq_hunt.specs.Seen.{FreeNodesCountByWord, LockedNodesCountByGuard};

/// Law: the steps of an insert keep the facts of the heap, and Full and Done are steps where they are answered.
pub fn inserts_keep_the_heap()
    ensures full { FullIsAStep }
    ensures leaf { LeavesKeep }
    ensures climb { ClimbsKeep }
    ensures settle { SettlesAreSteps }
    ensures look { LooksKeep }
    ensures lost { LostHavePlaces }
{}

/// Law: the steps of a removal keep the facts of the heap, whoever sifts below, and the marks that they place are
/// steps.
pub fn removals_keep_the_heap()
    ensures empty { EmptyIsAStep }
    ensures draw { DrawsAreSteps }
    ensures last { LastDrawsAreSteps }
    ensures above { AboveIsAStep }
    ensures sift { SiftsKeep }
    ensures fill { FillsKeep }
{}

/// Law: a new heap has the facts, and one in which no insert waits has no Busy node.
pub fn heaps_open_and_end()
    ensures new { NewHeapsKeep }
    ensures quiet { QuietHeapsAreNotBusy }
{}

/// Law: an owner whose insert another seat placed has a letter until it has taken its call over.
pub fn owners_are_told()
    ensures placed { PlacedHaveLetters }
    ensures draw { DrawsTell }
    ensures settle { SettlesTell }
{}

/// Law: a word says one thing of its node.
pub fn words_mean_one_node()
    ensures { WordsMeanOneNode }
{}

/// Law: between any two steps of any seats, a node that is not locked counts as its word says, and one that is counts
/// as a guard in its holder's view says, which names its word too.
pub fn nodes_count_as_seen()
    ensures free { FreeNodesCountByWord }
    ensures locked { LockedNodesCountByGuard }
{}
