//! Laws of the rule. A queue that makes further kinds of step on the table shows by them that the whole rule holds
//! after its step, once it has shown its own facts.
ghost use Rattle.pq_seats.specs.Laws.{FieldsSuffice, SeatsKnow};
ghost use Rattle.pq_seats.specs.Laws.{OwnStepsKeep, BackStepsKeep, SilentStepsKeep};
ghost use Rattle.pq_seats.specs.Laws.{PlacingStepsKeep, HelpingStepsKeep};

use crate::SeatRule;

/// Law: between any two steps the history has at most 536,870,896 marks, and each letter, in its word or owed, is Back
/// or at most that number. So no place plus 1 reaches Back, which is 2^40; and where the history word is the length of
/// the history, it stays below 2^30.
pub fn fields_suffice<R: SeatRule>()
    ensures { FieldsSuffice R.rule }
{}

/// Law: in each state in which the rule holds, a seat with no insert in flight knows the history of that state.
pub fn seats_know<R: SeatRule>()
    ensures { SeatsKnow R.rule }
{}

/// Law: a step keeps the rule that changes one word of the queue's own, and the own part of one seat's post.
pub fn own_steps_keep<R: SeatRule>()
    ensures { OwnStepsKeep R.rule }
{}

/// Law: so does a step on such a word that sends the insert of another seat back: the seat owes that owner the letter
/// Back from this step on. The owner's insert is in flight, and no letter is there for it, in its word or owed.
pub fn back_steps_keep<R: SeatRule>()
    ensures { BackStepsKeep R.rule }
{}

/// Law: so does a step on the history word after which the history is as long as before.
pub fn silent_steps_keep<R: SeatRule>()
    ensures { SilentStepsKeep R.rule }
{}

/// Law: so does a step on the history word that places a batch with the seat's own call. The batch need not be the one
/// that the rule tells: the step itself may have found it.
pub fn placing_steps_keep<R: SeatRule>()
    ensures { PlacingStepsKeep R.rule }
{}

/// Law: so does a step on the history word that places inserts of other seats, and no call of the seat's own.
pub fn helping_steps_keep<R: SeatRule>()
    ensures { HelpingStepsKeep R.rule }
{}
