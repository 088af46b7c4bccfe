//! Inserting: what a full mound answers.
ghost use Rattle.std.specs.Prelude.{◌≡◌, ◌-◌, ◌<◌, ◌≤◌, [], None, length};
ghost use Rattle.pq_model.specs.declared.marks.Act.TheVariants.{Insert};
ghost use Rattle.pq_model.specs.declared.marks.Reply.TheVariants as replies;
ghost use Rattle.pq_api.specs.Limits.{call_limit};
ghost use Rattle.pq_api.specs.Answers.{MakesCall};
ghost use Rattle.pq_seats.specs.Views.{empty_post};
ghost use Rattle.pq_seats.specs.Passes.{view_of, known, Belongs, IsSamePass, IsInformed};
ghost use Rattle.pq_mound.specs.Passes.{at_cells};
ghost use Rattle.pq_mound.specs.Tables.{IsMoundTable};
ghost use Rattle.pq_mound.specs.Views.{idle};

use crate::locks::free_cells;
use crate::rule::{MoundTable, TablePass};
use pq_model::Act;
use pq_words::Entry;

/// Answers Full, by a seat that holds the cells' lock and found no cell free. Gives the place of the answer.
pub(crate) fn refuse(table: &MoundTable, pass: &mut TablePass, e: Entry) -> u32
    requires table { IsMoundTable table.now }
    requires own { Belongs table.now pass.old }
    requires begun { (view_of pass.old).post ≡ at_cells pass.old.number [] 0 None }
    requires few { length (known pass.old).calls < call_limit - 1 }
    ensures own { Belongs table.now pass.new }
    ensures same { IsSamePass pass.old pass.new }
    ensures rests { (view_of pass.new).post ≡ empty_post idle pass.old.number }
    ensures call { MakesCall (known pass.old) result (Insert e) replies.Full (known pass.new) }
    ensures knows { IsInformed table.now pass.new }
{
    let place = table.draw(pass, Act::Insert(e), 1);
    free_cells(table, pass);
    place
}
