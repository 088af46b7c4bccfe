//! Calls that see to the offers of other seats, and steps on the history word that the base does not make.
ghost use Rattle.std.specs.Prelude.{◌≡◌, ℕ, suc, ◌+◌, ◌-◌, ◌<◌, ◌≤◌, ◌^◌, Contains, [], ◌∷◌, length, None, IfSome};
ghost use Rattle.pq_model.specs.Limits.{max_seats};
ghost use Rattle.pq_model.specs.declared.marks.Act.TheVariants as acts;
ghost use Rattle.pq_api.specs.Limits.{call_limit};
ghost use Rattle.pq_api.specs.Answers.{MakesCall};
ghost use Rattle.pq_seats.specs.Views.{with_post};
ghost use Rattle.pq_seats.specs.Passes.{view_of, known, Belongs, IsSamePass};
ghost use Rattle.pq_spot.specs.Spot.{lock_word, words_needed, max_word};
ghost use Rattle.pq_spot.specs.Spot.{accepted_post, refused_post, plain_removal, removed_view, seen_view};
ghost use Rattle.pq_words.specs.Letters.{letter_number};
ghost use Rattle.pq_spot.specs.Passes.{IsStill, resting, locking, owing, accepted_by, refused_by, taken_reply, Rests};

use crate::plays::{Accept, Glance, Grab, Refuse};
use crate::spot::{LOCK, SPOT, THERE, free, hold, look, put};
use crate::{SpotPass, SpotRule, SpotTable};
use pq_seats::{back_steps_keep, helping_steps_keep, placing_steps_keep, silent_steps_keep};
use pq_words::Letter;
use std::sync::Wait;

/// How many calls were made, at one step. The pass may have an insert in flight. Where it has none, its front rises to
/// the answer.
pub fn glance(table: &SpotTable, pass: &mut SpotPass) -> u32
    requires own { Belongs table.now pass.old }
    ensures own { Belongs table.now pass.new }
    ensures same { IsSamePass pass.old pass.new }
    ensures view { view_of pass.new ≡ seen_view (view_of pass.old) result }
    ensures more { (view_of pass.old).front ≤ result }
{
    silent_steps_keep::<SpotRule>();
    table.table.shared.load::<Glance>(&mut pass.seat, 0) as u32
}

/// Places the insert that another seat offers, if one does. The answer tells which seat does, and the place of its
/// insert: the pass owes that seat the letter then (`tell`). It makes no call.
pub fn accept<W: Wait>(rt: &W, table: &SpotTable, pass: &mut SpotPass) -> Option<(u32, u32)>
    requires rests { Rests table.now pass.old }
    ensures own { Belongs table.now pass.new }
    ensures same { IsSamePass pass.old pass.new × IsStill (view_of pass.old) (view_of pass.new) }
    ensures post { (view_of pass.new).post ≡ accepted_by pass.old.number result }
    ensures owner { IfSome result (λ x. x.0 ≤ max_seats) }
{
    let word = hold(rt, table, pass);
    if word <= THERE {
        free(table, pass);
        return None;
    }
    let owner = (word - 1) as u32;
    let place = place_offered(table, pass, owner);
    put(table, pass, THERE);
    free(table, pass);
    Some((owner, place))
}

// Places the insert of the seat that offers it, by the holder of the lock.
fn place_offered(table: &SpotTable, pass: &mut SpotPass, owner: u32) -> u32
    requires own { Belongs table.now pass.old }
    requires wide { words_needed ≤ table.now.words }
    requires owner { (1 ≤ owner) × (owner ≤ max_seats) }
    requires post { (view_of pass.old).post ≡ locking (resting pass.old.number) (suc owner) (suc owner) }
    ensures own { Belongs table.now pass.new }
    ensures same { IsSamePass pass.old pass.new }
    ensures view { view_of pass.new ≡
        with_post (view_of pass.old) (accepted_post (view_of pass.old).post owner result) }
{
    helping_steps_keep::<SpotRule>();
    table.table.shared.fetch_add::<Accept>(&mut pass.seat, 0, 1) as u32
}

/// Sends back the insert that another seat offers, if one does: clears the offer. The answer tells which seat does: the
/// pass owes that seat the letter Back then (`tell`). Nothing is placed.
pub fn send_back<W: Wait>(rt: &W, table: &SpotTable, pass: &mut SpotPass) -> Option<u32>
    requires rests { Rests table.now pass.old }
    ensures own { Belongs table.now pass.new }
    ensures same { IsSamePass pass.old pass.new × IsStill (view_of pass.old) (view_of pass.new) }
    ensures post { (view_of pass.new).post ≡ refused_by pass.old.number result }
    ensures owner { IfSome result (λ owner. owner ≤ max_seats) }
{
    let word = hold(rt, table, pass);
    if word <= THERE {
        free(table, pass);
        return None;
    }
    let owner = (word - 1) as u32;
    clear_offer(table, pass, owner);
    free(table, pass);
    Some(owner)
}

/// Leaves an owner the one letter that the pass owes.
pub fn tell(table: &SpotTable, pass: &mut SpotPass, owner: u32, letter: Letter)
    requires own { Belongs table.now pass.old × (words_needed ≤ table.now.words) }
    requires owner { owner ≤ max_seats }
    requires owed { (view_of pass.old).post ≡ owing pass.old.number owner (letter_number letter) }
    ensures rests { Rests table.now pass.new }
    ensures same { IsSamePass pass.old pass.new × IsStill (view_of pass.old) (view_of pass.new) }
{
    table.leave_letter(pass, owner, letter);
}

// Clears the offer of this seat, by the holder of the lock, who owes it Back then.
fn clear_offer(table: &SpotTable, pass: &mut SpotPass, owner: u32)
    requires own { Belongs table.now pass.old }
    requires wide { words_needed ≤ table.now.words }
    requires owner { (1 ≤ owner) × (owner ≤ max_seats) }
    requires post { (view_of pass.old).post ≡ locking (resting pass.old.number) (suc owner) (suc owner) }
    ensures own { Belongs table.now pass.new }
    ensures same { IsSamePass pass.old pass.new }
    ensures view { view_of pass.new ≡ with_post (view_of pass.old) (refused_post (view_of pass.old).post owner) }
{
    back_steps_keep::<SpotRule>();
    table.table.shared.store::<Refuse>(&mut pass.seat, SPOT, 0);
}

/// Takes the entry, if it is in the queue. It places the call first, and looks then: what it takes is what is in the
/// queue at that step. An offer it leaves as it is. The answer tells whether there was an entry, and the call's place.
pub fn grab<W: Wait>(rt: &W, table: &SpotTable, pass: &mut SpotPass) -> (bool, u32)
    requires rests { Rests table.now pass.old }
    requires few { length (known pass.old).calls < call_limit - 1 }
    ensures rests { Rests table.now pass.new }
    ensures same { IsSamePass pass.old pass.new }
    ensures call { MakesCall (known pass.old) result.1 acts.Remove (taken_reply result.0) (known pass.new) }
{
    table.lock(rt, pass, LOCK);
    let place = place_removal(table, pass);
    let there = look(table, pass) == THERE;
    if there {
        put(table, pass, 0);
    }
    free(table, pass);
    (there, place)
}

// Places a removal of what is in the queue, by the holder of the lock.
fn place_removal(table: &SpotTable, pass: &mut SpotPass) -> u32
    requires own { Belongs table.now pass.old }
    requires wide { words_needed ≤ table.now.words }
    requires held { Contains (view_of pass.old).post.locks lock_word }
    requires quiet { (view_of pass.old).post.flight ≡ None }
    requires few { length (known pass.old).calls < call_limit - 1 }
    ensures own { Belongs table.now pass.new }
    ensures same { IsSamePass pass.old pass.new }
    ensures view { view_of pass.new ≡ removed_view (view_of pass.old) result }
    ensures call { let b = plain_removal (view_of pass.old).post.own.counted in
        MakesCall (known pass.old) result acts.Remove b.reply (known pass.new) }
{
    placing_steps_keep::<SpotRule>();
    table.table.shared.fetch_add::<Grab>(&mut pass.seat, 0, 1) as u32
}
