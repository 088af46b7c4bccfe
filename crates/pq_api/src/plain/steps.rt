//! The steps of a plain pass on its table, whose view keeps the calls.
ghost use Rattle.std.specs.Prelude.{◌≡◌, ℕ, ◌-◌, ◌<◌, length};
ghost use Rattle.pq_model.specs.declared.marks.Act.{Act};
ghost use Rattle.pq_model.specs.declared.marks.Act.TheVariants.{Remove};
ghost use Rattle.pq_model.specs.declared.marks.Reply.{Reply};
ghost use Rattle.pq_model.specs.declared.marks.Reply.TheVariants.{Empty};
ghost use Rattle.pq_model.specs.declared.passes.Known.{Known};
ghost use Rattle.pq_model.specs.History.{IsStep, after, left};
ghost use Rattle.pq_model.specs.Passes.{Knows, fresh};
ghost use Rattle.pq_api.specs.Limits.{call_limit};
ghost use Rattle.pq_api.specs.Answers.{MakesCall};
ghost use Rattle.pq_api.specs.Plain.{HasOneView, IsKept, Draws, Looks, marks_of};

use atomic_table::{Play, Seat, Table, TableRule};
use pq_model::{Act, Known, Receipt, Reply};
use std::alloc::Global;
use std::marker::{Brand, PhantomData};

/// The table of a plain pass has one view, which keeps the calls. Its one word is read at each step and tells nothing:
/// as no one else makes calls, the pass counts them itself.
pub struct PlainRule;

impl TableRule<(), Known, ()> for PlainRule {
    ghost holds = { λ _ s. HasOneView s };

    ghost first = { λ _. fresh 1 };
}

/// The table that a plain queue and its pass share.
pub type PlainTable = Table<(), Known, (), PlainRule, Global>;

/// The one seat at that table, which the pass has.
pub type PlainSeat = Seat<(), Known>;

// A kind of call: what is asked and what is answered. Whoever makes a step picks it.
trait CallKind {
    ghost act: { Act };

    ghost reply: { Reply };
}

impl CallKind for Brand {
    ghost act = { Remove };

    ghost reply = { Empty };
}

struct CallStep<C> {
    of: PhantomData<C>,
}

impl<C: CallKind> Play<(), Known> for CallStep<C> {
    ghost then = { λ st m _ m'. Draws C.act C.reply m m' };
}

struct LookStep;

impl Play<(), Known> for LookStep {
    ghost then = { λ st m _ m'. Looks m m' };
}

// The mark of a call, by one step: the view keeps the call.
#[inline]
fn draw_made<C: CallKind>(table: &PlainTable, seat: &mut PlainSeat, act: Act, reply: Reply)
    requires own { (seat.old.table_id ≡ table.now.shared.table_id) × (seat.old.table_id.words ≡ 1) }
    requires made { (C.act ≡ act) × (C.reply ≡ reply) }
    ensures own { seat.new.table_id ≡ seat.old.table_id }
    ensures call { Draws act reply seat.old.me seat.new.me }
{
    table.shared.load::<CallStep<C>>(seat, 0);
}

/// The mark of a call, by one step, for a pass that keeps its calls. `made` counts them.
#[inline]
pub fn draw(
    table: &PlainTable,
    seat: &mut PlainSeat,
    made: &mut u32,
    capacity: u32,
    act: Act,
    reply: Reply,
) -> Receipt
    requires own { (seat.old.table_id ≡ table.now.shared.table_id) × (seat.old.table_id.words ≡ 1) }
    requires counted { made.old ≡ length seat.old.me.0.calls }
    requires few { length seat.old.me.0.calls < call_limit - 1 }
    requires kept { IsKept capacity seat.old.me.0 }
    requires step { IsStep 1 capacity (left (marks_of seat.old.me.0)) act reply }
    ensures own { seat.new.table_id ≡ seat.old.table_id }
    ensures counted { made.new ≡ length seat.new.me.0.calls }
    ensures call { MakesCall seat.old.me.0 result.place act reply seat.new.me.0 }
    ensures kept { IsKept capacity seat.new.me.0 }
    ensures knows { Knows 1 capacity seat.new.me.0 }
    ensures left { left (marks_of seat.new.me.0) ≡ after (left (marks_of seat.old.me.0)) act reply }
{
    let place = *made;
    draw_made::<Brand>(table, seat, act, reply);
    *made = place + 1;
    Receipt { place }
}

/// The view's front rises to the length of the history.
pub fn load(table: &PlainTable, seat: &mut PlainSeat)
    requires own { (seat.old.table_id ≡ table.now.shared.table_id) × (seat.old.table_id.words ≡ 1) }
    ensures own { seat.new.table_id ≡ seat.old.table_id }
    ensures front { Looks seat.old.me seat.new.me }
{
    table.shared.load::<LookStep>(seat, 0);
}
