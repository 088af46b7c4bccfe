//! The calls of the spot.
ghost use Rattle.std.specs.Prelude.{◌≡◌, ◌≢◌, ℕ, suc, ◌+◌, ◌-◌, ◌<◌, ◌≤◌, Contains, [], ◌∷◌, length};
ghost use Rattle.std.specs.Prelude.{IfOk, MatchBool, Some, None, false, ◌⊎◌};
ghost use Rattle.std.specs.Mem.Slots.{slots_items};
ghost use Rattle.pq_model.specs.Limits.{max_seats};
ghost use Rattle.pq_model.specs.History.{IsSeat};
ghost use Rattle.pq_model.specs.Passes.{fresh};
ghost use Rattle.pq_model.specs.declared.marks.Act.TheVariants as acts;
ghost use Rattle.pq_model.specs.declared.marks.Reply.TheVariants as replies;
ghost use Rattle.pq_api.specs.Limits.{call_limit};
ghost use Rattle.pq_api.specs.Answers.{EachAt, MakesCall};
ghost use Rattle.pq_api.specs.Closing.{IsClosed};
ghost use Rattle.pq_seats.specs.Views.{with_post};
ghost use Rattle.pq_seats.specs.Laws.{history_limit};
ghost use Rattle.pq_seats.specs.Steps.{Took, Missed};
ghost use Rattle.pq_seats.specs.Passes.{limits_of, view_of, known, Belongs, IsSamePass};
ghost use Rattle.pq_spot.specs.Spot.{token, lock_word, words_needed, max_word, part, spot_rule};
ghost use Rattle.pq_spot.specs.Spot.{stored_post, offered_post};
ghost use Rattle.pq_spot.specs.Passes.{Goes, IsStill, IsTried, resting, offering, locking, freed_post};
ghost use Rattle.pq_spot.specs.Passes.{offered_by, settled_by, IsSettled, taken_reply};
ghost use Rattle.pq_spot.specs.Passes.{Rests, Offers, IsRefused, remains};

use crate::plays::{Look, Offer, Put};
use crate::{Settled, SpotPass, SpotTable};
use pq_io::NoMemory;
use pq_model::Act;
use pq_seats::Shared;
use pq_words::{Entry, Letter};
use std::alloc::Global;
use std::sync::Wait;

pub(crate) const LOCK: u32 = 17;

pub(crate) const SPOT: usize = 18;

// How many words the table has.
const WORDS: usize = 19;

// What the spot has where the entry is in the queue.
pub(crate) const THERE: u64 = 1;

/// The one entry of the queue.
pub fn token() -> Entry
    ensures { result ≡ token }
{
    Entry { key: 0, id: 0 }
}

/// Opens a table without an entry, and gives all its passes.
pub fn open(
    alloc: Global,
    capacity: u32,
    seats: u32,
) -> Result<(SpotTable, Vec<SpotPass>), NoMemory>
    requires capacity { 1 ≤ capacity }
    requires seats { IsSeat max_seats seats }
    ensures capacity { IfOk result (λ r. (limits_of r.0).capacity ≡ capacity) }
    ensures seats { IfOk result (λ r. r.0.seats ≡ seats) }
    ensures count { IfOk result (λ r. length r.1.items ≡ seats) }
    ensures passes { IfOk result (λ r. EachAt (λ i p. Rests r.0 p × (known p ≡ fresh (i + 1))) r.1.items) }
{
    let mut words = Vec::new(alloc);
    for _ in 0..WORDS {
        words.push(0)?;
    }
    let (table, passes) = Shared::open(alloc, words, capacity, seats)?;
    Ok((table, passes))
}

// Takes the lock, and gives what the spot has.
pub(crate) fn hold<W: Wait>(rt: &W, table: &SpotTable, pass: &mut SpotPass) -> u64
    requires own { Belongs table.now pass.old }
    requires wide { words_needed ≤ table.now.words }
    requires unlocked { (view_of pass.old).post.locks ≡ [] }
    ensures own { Belongs table.now pass.new }
    ensures same { IsSamePass pass.old pass.new }
    ensures held { Goes (view_of pass.old) (view_of pass.new) (locking (view_of pass.old).post result result) }
    ensures small { result ≤ max_word }
{
    table.lock(rt, pass, LOCK);
    look(table, pass)
}

// What the spot has, by the holder of the lock.
pub(crate) fn look(table: &SpotTable, pass: &mut SpotPass) -> u64
    requires own { Belongs table.now pass.old }
    requires wide { words_needed ≤ table.now.words }
    requires held { Contains (view_of pass.old).post.locks lock_word }
    ensures own { Belongs table.now pass.new }
    ensures same { IsSamePass pass.old pass.new }
    ensures view { view_of pass.new ≡ view_of pass.old }
    ensures found { result ≡ (view_of pass.old).post.own.stored }
    ensures small { (view_of pass.old).post.own.counted ≤ max_word }
{
    table.table.shared.load::<Look>(&mut pass.seat, SPOT)
}

// Stores at the spot, by the holder of the lock.
pub(crate) fn put(table: &SpotTable, pass: &mut SpotPass, word: u64)
    requires own { Belongs table.now pass.old }
    requires wide { words_needed ≤ table.now.words }
    requires held { Contains (view_of pass.old).post.locks lock_word }
    ensures own { Belongs table.now pass.new }
    ensures same { IsSamePass pass.old pass.new }
    ensures view { view_of pass.new ≡ with_post (view_of pass.old) (stored_post (view_of pass.old).post word) }
    ensures small { (view_of pass.old).front ≤ history_limit }
{
    table.table.shared.store::<Put>(&mut pass.seat, SPOT, word);
}

// Offers the entry at a spot that has none, by the holder of the lock.
fn put_offer(table: &SpotTable, pass: &mut SpotPass)
    requires own { Belongs table.now pass.old }
    requires wide { words_needed ≤ table.now.words }
    requires held { Contains (view_of pass.old).post.locks lock_word }
    requires free { ((view_of pass.old).post.own.counted ≡ 0) × ((view_of pass.old).post.own.out ≡ false) }
    requires room { ((view_of pass.old).post.flight ≡ Some token) ⊎
        (((view_of pass.old).post.flight ≡ None) × (length (known pass.old).calls < call_limit - 1)) }
    ensures own { Belongs table.now pass.new }
    ensures same { IsSamePass pass.old pass.new }
    ensures view { view_of pass.new ≡ with_post (view_of pass.old) (offered_post (view_of pass.old).post) }
{
    let word = u64::from(pass.number) + 1;
    table
        .table
        .shared
        .store::<Offer>(&mut pass.seat, SPOT, word);
}

// Frees the lock, where the spot is stored as it counts.
pub(crate) fn free(table: &SpotTable, pass: &mut SpotPass)
    requires own { Belongs table.now pass.old }
    requires wide { words_needed ≤ table.now.words }
    requires locks { (view_of pass.old).post.locks ≡ lock_word ∷ [] }
    requires stored { (view_of pass.old).post.own.stored ≡ (view_of pass.old).post.own.counted }
    ensures own { Belongs table.now pass.new }
    ensures same { IsSamePass pass.old pass.new }
    ensures freed { Goes (view_of pass.old) (view_of pass.new) (freed_post (view_of pass.old).post) }
{
    table.unlock(pass, LOCK);
}

/// Tries to take the lock, by one exchange. The answer is true exactly where the word read was 0. The seat has the lock
/// then, and else it holds nothing, as before. In both cases its view has read further.
pub fn try_hold(table: &SpotTable, pass: &mut SpotPass) -> bool
    requires rests { Rests table.now pass.old }
    ensures own { Belongs table.now pass.new }
    ensures same { IsSamePass pass.old pass.new }
    ensures tried { IsTried pass.new.number result (view_of pass.old) (view_of pass.new) }
    ensures answer { MatchBool result
        (Took spot_rule (view_of pass.old) (view_of pass.new) lock_word)
        (Missed spot_rule (view_of pass.old) (view_of pass.new)) }
{
    table.try_lock(pass, LOCK)
}

/// Frees the lock that `try_hold` took.
pub fn unhold(table: &SpotTable, pass: &mut SpotPass)
    requires own { Belongs table.now pass.old × (words_needed ≤ table.now.words) }
    requires held { (x : ℕ) × ((view_of pass.old).post ≡ locking (resting pass.old.number) x x) }
    ensures rests { Rests table.now pass.new }
    ensures same { IsSamePass pass.old pass.new × IsStill (view_of pass.old) (view_of pass.new) }
{
    free(table, pass);
}

/// Offers the entry, if the spot is free. The insert is in flight then: another seat may place it, or send it back. The
/// answer tells whether it is.
pub fn offer<W: Wait>(rt: &W, table: &SpotTable, pass: &mut SpotPass) -> bool
    requires rests { Rests table.now pass.old }
    requires few { length (known pass.old).calls < call_limit - 1 }
    ensures own { Belongs table.now pass.new }
    ensures same { IsSamePass pass.old pass.new }
    ensures offered { Goes (view_of pass.old) (view_of pass.new) (offered_by (view_of pass.old).post result) }
{
    offer_free(rt, table, pass)
}

/// Offers the entry again whose offer was sent back, if the spot is free. The answer tells whether it is.
pub fn offer_again<W: Wait>(rt: &W, table: &SpotTable, pass: &mut SpotPass) -> bool
    requires refused { IsRefused table.now pass.old }
    ensures own { Belongs table.now pass.new }
    ensures same { IsSamePass pass.old pass.new }
    ensures offered { Goes (view_of pass.old) (view_of pass.new) (offered_by (view_of pass.old).post result) }
{
    offer_free(rt, table, pass)
}

// Offers the entry of a seat that has no other thing in hand, if the spot is free.
fn offer_free<W: Wait>(rt: &W, table: &SpotTable, pass: &mut SpotPass) -> bool
    requires own { Belongs table.now pass.old }
    requires wide { words_needed ≤ table.now.words }
    requires bare { let p = (view_of pass.old).post in p ≡ record (resting pass.old.number) { flight = p.flight } }
    requires room { ((view_of pass.old).post.flight ≡ Some token) ⊎
        (((view_of pass.old).post.flight ≡ None) × (length (known pass.old).calls < call_limit - 1)) }
    ensures own { Belongs table.now pass.new }
    ensures same { IsSamePass pass.old pass.new }
    ensures offered { Goes (view_of pass.old) (view_of pass.new) (offered_by (view_of pass.old).post result) }
{
    let word = hold(rt, table, pass);
    if word != 0 {
        free(table, pass);
        return false;
    }
    put_offer(table, pass);
    free(table, pass);
    true
}

/// Places the insert that the pass has in flight, if its offer still stands, or else takes its letter, which tells
/// where another seat has placed it, or that it was sent back.
pub fn settle<W: Wait>(rt: &W, table: &SpotTable, pass: &mut SpotPass) -> Settled
    requires offers { Offers table.now pass.old }
    requires few { length (known pass.old).calls < call_limit - 1 }
    ensures own { Belongs table.now pass.new }
    ensures same { IsSamePass pass.old pass.new }
    ensures post { (view_of pass.new).post ≡ settled_by pass.old.number result }
    ensures call { IsSettled result (known pass.old) (known pass.new) }
{
    let word = hold(rt, table, pass);
    if word == u64::from(pass.number) + 1 {
        return Settled::Placed(place_own(table, pass));
    }
    free(table, pass);
    match table.take_letter(pass) {
        Letter::At(place) => Settled::Placed(place),
        Letter::Nothing => Settled::Waits,
        Letter::Back => Settled::Back,
    }
}

// Places the seat's own insert, under the lock, which it frees.
fn place_own(table: &SpotTable, pass: &mut SpotPass) -> u32
    requires own { Belongs table.now pass.old }
    requires wide { words_needed ≤ table.now.words }
    requires few { length (known pass.old).calls < call_limit - 1 }
    requires post { (view_of pass.old).post ≡
        locking (offering pass.old.number) (suc pass.old.number) (suc pass.old.number) }
    ensures own { Belongs table.now pass.new }
    ensures same { IsSamePass pass.old pass.new }
    ensures post { (view_of pass.new).post ≡ resting pass.old.number }
    ensures call { MakesCall (known pass.old) result (acts.Insert token) replies.Done (known pass.new) }
{
    let place = table.draw(pass, Act::Insert(token()), 1);
    put(table, pass, THERE);
    free(table, pass);
    place
}

/// Takes the entry, if it is in the queue or offered. Where it is offered, its insert is placed before, and its owner
/// gets a letter. The answer tells whether there was an entry, and the call's place.
pub fn remove<W: Wait>(rt: &W, table: &SpotTable, pass: &mut SpotPass) -> (bool, u32)
    requires rests { Rests table.now pass.old }
    requires few { length (known pass.old).calls < call_limit - 1 }
    ensures rests { Rests table.now pass.new }
    ensures same { IsSamePass pass.old pass.new }
    ensures call { MakesCall (known pass.old) result.1 acts.Remove (taken_reply result.0) (known pass.new) }
{
    let word = hold(rt, table, pass);
    match word {
        0 => (false, take_none(table, pass)),
        THERE => (true, take_it(table, pass)),
        _ => (true, take_offered(table, pass, (word - 1) as u32)),
    }
}

// Finds nothing at the spot.
fn take_none(table: &SpotTable, pass: &mut SpotPass) -> u32
    requires own { Belongs table.now pass.old }
    requires wide { words_needed ≤ table.now.words }
    requires few { length (known pass.old).calls < call_limit - 1 }
    requires post { (view_of pass.old).post ≡ locking (resting pass.old.number) 0 0 }
    ensures own { Belongs table.now pass.new }
    ensures same { IsSamePass pass.old pass.new }
    ensures post { (view_of pass.new).post ≡ resting pass.old.number }
    ensures call { MakesCall (known pass.old) result acts.Remove replies.Empty (known pass.new) }
{
    let place = table.draw(pass, Act::Remove, 1);
    free(table, pass);
    place
}

// Takes the entry that is in the queue.
fn take_it(table: &SpotTable, pass: &mut SpotPass) -> u32
    requires own { Belongs table.now pass.old }
    requires wide { words_needed ≤ table.now.words }
    requires few { length (known pass.old).calls < call_limit - 1 }
    requires post { (view_of pass.old).post ≡ locking (resting pass.old.number) 1 1 }
    ensures own { Belongs table.now pass.new }
    ensures same { IsSamePass pass.old pass.new }
    ensures post { (view_of pass.new).post ≡ resting pass.old.number }
    ensures call { MakesCall (known pass.old) result acts.Remove (replies.Got token) (known pass.new) }
{
    let place = table.draw(pass, Act::Remove, 1);
    put(table, pass, 0);
    free(table, pass);
    place
}

// Takes the entry that this seat offers, and leaves it its letter.
fn take_offered(table: &SpotTable, pass: &mut SpotPass, owner: u32) -> u32
    requires own { Belongs table.now pass.old }
    requires wide { words_needed ≤ table.now.words }
    requires owner { (1 ≤ owner) × (owner ≤ max_seats) }
    requires few { length (known pass.old).calls < call_limit - 1 }
    requires post { (view_of pass.old).post ≡ locking (resting pass.old.number) (suc owner) (suc owner) }
    ensures own { Belongs table.now pass.new }
    ensures same { IsSamePass pass.old pass.new }
    ensures post { (view_of pass.new).post ≡ resting pass.old.number }
    ensures call { MakesCall (known pass.old) result acts.Remove (replies.Got token) (known pass.new) }
{
    let first = table.draw(pass, Act::Remove, 2);
    put(table, pass, 0);
    table.leave_letter(pass, owner, Letter::At(first));
    free(table, pass);
    first + 1
}

/// Ends the table, once all passes are joined into this one. The calls of all passes, put by place, are then the whole
/// history, and it is legal. The answer tells whether it leaves the entry, and how long it is.
pub fn shut(table: SpotTable, pass: SpotPass) -> (bool, u32)
    requires rests { Rests table pass }
    requires all { table.seats ≤ pass.lanes }
    ensures closed { IsClosed table.seats (limits_of table).capacity (known pass) (remains result.0 result.1) }
{
    let closed = table.close(pass);
    let there = closed.word(SPOT) == THERE;
    let length = closed.word(0) as u32;
    closed.free();
    (there, length)
}
