//! A knapsack whose canonical proof is too long, as told by `prove`.

ghost use Rattle.std.specs.Prelude.{◌≡◌, IfOk};
ghost use Rattle.bb_tests.specs.Alike.{alike};

use bb_knap::Knapsack;
use bb_proof::{Made, prove};
use inst_text::{Item, Items};
use pq_io::NoMemory;
use std::alloc::Global;
use std::test::Fail;

// Items that are all alike, and room for an odd weight, which no choice of them has. The bound stays that of the odd
// weight while enough items are left, so nearly all choices of eleven items are walked.
fn all_alike(alloc: Global) -> Result<Knapsack, NoMemory>
    ensures { IfOk result (λ k. k ≡ alike) }
{
    let item = Item {
        weight: 2,
        value: 2,
    };
    let items = vec![in alloc; item; 23]?;
    Knapsack::new(
        alloc,
        Items {
            capacity: 23,
            items,
        },
    )
}

// Eleven of the 23 items are worth 22, and leave 24 behind.
#[test]
fn tells_a_proof_that_is_too_long(rt: HostRuntime) -> Result<(), Fail> {
    let knapsack = all_alike(rt.alloc())?;
    let made = prove(rt.alloc(), &knapsack, 24);
    assert!(rt; matches!(made, Made::TooLong));
    Ok(())
}
