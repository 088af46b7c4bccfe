//! Laws of the rule: which steps keep it, in each state in which it holds.
ghost use Rattle.pq_chunk.specs.Laws.{FrontLoadsKeep, FrontArmsKeep, ClaimsKeep, FullsKeep, DrawsKeep, DryDrawsKeep};
ghost use Rattle.pq_chunk.specs.Laws.{WithinKeeps, CountArmsKeep, CountsKeep};
ghost use Rattle.pq_chunk.specs.Opening.{FreshWordsOpen, TotalsFit};

/// Law: a load of the front word keeps the rule, and so does an exchange of it that lost.
pub fn front_loads_keep()
    ensures { FrontLoadsKeep }
{}

/// Law: so does a load that shows an entry left in the first chunk, by which the seat is armed. What remains is no less
/// than the seats that are armed then, since they are at most 16.
pub fn front_arms_keep()
    ensures { FrontArmsKeep }
{}

/// Law: so does a claim where less is used than the capacity. What is used never passes the capacity.
pub fn claims_keep()
    ensures { ClaimsKeep }
{}

/// Law: so does Full where as much is used as the capacity. It is the next mark, at the length of the word: the claims
/// of others are fewer than the seats, so fewer places are free than there are seats.
pub fn fulls_keep()
    ensures { FullsKeep }
{}

/// Law: so does a draw by a seat that is armed and pinned, where an entry is left. Got is the next mark, at the length of
/// the word that was found, and its entry is the least. It stands at the last place of the first chunk that was left,
/// and the seat stands on that chunk.
pub fn draws_keep()
    ensures { DrawsKeep }
{}

/// Law: so does a draw by an armed seat where none is left. It marks nothing, and what remains does not fall below 0.
pub fn dry_draws_keep()
    ensures { DryDrawsKeep }
{}

/// Law: the words of a fresh queue meet the facts of the rule, with no entry and one seat that has nothing.
pub fn fresh_words_open()
    ensures { FreshWordsOpen }
{}

/// Law: between any two steps the total of the front word is at most 536,870,960, which is below 2^30. A history has at
/// most 536,870,896 marks, and at most 64 entries are left in the first chunk.
pub fn totals_fit()
    ensures { TotalsFit }
{}

/// Law: a load of the high of the insert chunk that an insert has come to keeps the rule. Where it is not below the entry,
/// the entry is within the chunk's bounds.
pub fn within_keeps()
    ensures { WithinKeeps }
{}

/// Law: so does a load of that chunk's count that shows a place left: the seat is armed for the count. The count and the
/// seats that are armed for it are at most 80 together, since the seats are at most 16.
pub fn count_arms_keep()
    ensures { CountArmsKeep }
{}

/// Law: so does the addition of 1 to the count by an armed seat. The place that the count named is the seat's, or none was
/// left. The count was below 80.
pub fn counts_keep()
    ensures { CountsKeep }
{}
