//! A command's answer each, and each of the two verdicts.

use super::{NONE, THREE_BY_THREE, THREE_ITEMS, expect};
use pq_cli::Status;
use std::test::Fail;

const TRUE_HISTORY: &str = "seats 1 capacity 1024\n0 1 + 5 1 done\n1 1 + 3 2 done\n\
    2 1 - got 3 2\n3 1 - got 5 1\n4 1 - empty\nleft 0\n";

const WRONG_ORDER: &str = "seats 1 capacity 4\n0 1 + 5 1 done\n1 1 + 3 2 done\n\
    2 1 - got 5 1\n3 1 - got 3 2\nleft 0\n";

// On machine 1 the first two jobs have head 5, time 5 and tail 5.
const TWO_ON_ONE: &str = "3 3\n0 5 1 5 2 5\n2 5 1 5 0 5\n1 1 0 0 2 0\n";

const GOOD_CHOICE: &str = "3 5\n2 3\n3 4\n4 5\nvalue 7\nitems 0 1\n";

const EARLY_START: &str = "3 3\n0 3 1 2 2 2\n0 2 2 1 1 4\n1 4 2 3 0 0\n\
    makespan 11\n1 5 7\n0 2 7\n0 4 7\n";

const TWO_ITEMS: &str = "2 5\n3 4\n4 5\n";

const PROVED: &str = "2 5\n3 4\n4 5\nvalue 5\nitems 1\nproof 4\nb\nb\nc\nc\n";

const SHORT_PROOF: &str = "2 5\n3 4\n4 5\nvalue 5\nitems 1\nproof 1\nc\n";

#[test]
fn answers_inputs(rt: HostRuntime) -> Result<(), Fail> {
    for (words, input, status, output) in [
        (
            "solve knapsack --queue plain",
            THREE_ITEMS,
            Status::Ok,
            "value 7\nitems 0 1\n",
        ),
        (
            "solve --queue=plain shop",
            THREE_BY_THREE,
            Status::Ok,
            "makespan 11\n2 5 7\n0 2 7\n0 4 7\n",
        ),
        ("bound knapsack", THREE_ITEMS, Status::Ok, "bound 7\n"),
        ("bound shop", THREE_BY_THREE, Status::Ok, "bound 10\n"),
        (
            "bound shop --branching=active",
            TWO_ON_ONE,
            Status::Ok,
            "bound 20\n",
        ),
        ("check knapsack", GOOD_CHOICE, Status::Ok, "feasible 7\n"),
        (
            "check shop",
            EARLY_START,
            Status::Illegal,
            "bad machine 0 0 1 0\n",
        ),
        (
            "prove knapsack --queue plain",
            TWO_ITEMS,
            Status::Ok,
            "value 5\nitems 1\nproof 4\nb\nb\nc\nc\n",
        ),
        ("verify knapsack", PROVED, Status::Ok, "proved 5\n"),
        (
            "verify knapsack",
            SHORT_PROOF,
            Status::Illegal,
            "bad token 0\n",
        ),
        (
            "trace --queue plain",
            "+ 5 1\n+ 3 2\n-\n-\n-\n",
            Status::Ok,
            TRUE_HISTORY,
        ),
        ("make knapsack --size 1", "", Status::Ok, "1 7\n15 46\n"),
        ("make --size=1 shop", "any", Status::Ok, "1 1\n0 6\n"),
        ("audit", TRUE_HISTORY, Status::Ok, "legal\nleft 0\n"),
        ("audit", WRONG_ORDER, Status::Illegal, "bad 2\n"),
    ] {
        let words: Vec<&str> = words.split(' ').collect(rt.alloc())?;
        expect(&rt, rt.alloc(), &words, input, &NONE, (status, output, ""))?;
    }
    Ok(())
}
