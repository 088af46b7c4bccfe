//! The job shop in use, with active branching.

ghost use Rattle.std.specs.Prelude.{◌≡◌, IfOk};
ghost use Rattle.bb_shop.specs.Plans.{AreShaped};
ghost use Rattle.pq_cli.specs.Problems.ActiveShopTexts.{texts};

use crate::answer::Answer;
use crate::problem::UsedProblem;
use crate::problems::shop::judged;
use bb_onemach::ActiveShop;
use inst_text::{Claimed, Starts, read_plan_shop, read_shop, write_starts};
use pq_io::{NoMemory, ReadRefusal};
use std::alloc::Global;

impl UsedProblem for ActiveShop {
    ghost texts = { texts };

    ghost suits = { AreShaped };

    fn read(alloc: Global, bytes: &[u8]) -> Result<ActiveShop, ReadRefusal> {
        Ok(ActiveShop::new(alloc, read_shop(alloc, bytes)?)?)
    }

    fn read_with_plan(
        alloc: Global,
        bytes: &[u8],
    ) -> Result<(ActiveShop, Claimed<Starts>), ReadRefusal> {
        let (jobs, claimed) = read_plan_shop(alloc, bytes)?;
        Ok((ActiveShop::new(alloc, jobs)?, claimed))
    }

    fn plan_text(&self, alloc: Global, starts: &Starts) -> Result<Vec<u8>, NoMemory> {
        write_starts(alloc, self.shop().makespan_of(starts), starts)
    }

    fn root_bound(&self) -> u32 {
        self.root_bound()
    }

    fn judge(&self, alloc: Global, claimed: &Claimed<Starts>) -> Result<Answer, NoMemory> {
        judged(alloc, self.shop(), claimed)
    }
}
