//! Worked texts of proofs, and a proof that is made. Faulty texts, and proofs of made-up knapsacks beside a walk of their
//! own, are cases of the built program (`tests/cli/faults.table`, `tests/cli/proofs.py`).

use bb_knap::Knapsack;
use bb_problem::Problem;
use bb_proof::{Made, ProofVerdict, prove, read_proof, verify, write_proof};
use std::alloc::Global;
use std::test::Fail;

// what the text of an instance, a plan and a proof is found to be
fn found(alloc: Global, text: &[u8]) -> Result<ProofVerdict, Fail> {
    let (items, claimed, proof) = read_proof(alloc, text)?;
    let knapsack = Knapsack::new(alloc, items)?;
    Ok(verify(alloc, &knapsack, &claimed, &proof)?)
}

#[test]
fn judges_worked_proofs(rt: HostRuntime) -> Result<(), Fail> {
    let three = "3 5\n2 3\n3 4\n4 5\n";
    let two = "2 5\n3 4\n4 5\n";
    let rows = [
        (three, "value 7\nitems 0 1\nproof 1\nc\n", "proved"),
        (three, "value 7\nitems 0 2\nproof 1\nc\n", "bad weight 6"),
        (three, "value 8\nitems 0 1\nproof 1\nc\n", "bad value 7"),
        (two, "value 5\nitems 1\nproof 4\nb\nb\nc\nc\n", "proved"),
        (two, "value 5\nitems 1\nproof 1\nc\n", "bad token 0"),
        (
            two,
            "value 5\nitems 1\nproof 5\nb\nb\nc\nc\nc\n",
            "bad token 4",
        ),
        (two, "value 5\nitems 1\nproof 3\nb\nb\nc\n", "bad token 3"),
        (
            two,
            "value 5\nitems 1\nproof 4\nb\nb\nb\nc\n",
            "bad token 2",
        ),
        ("0 0\n", "value 0\nitems\nproof 1\nc\n", "proved"),
    ];
    for (instance, rest, verdict) in rows {
        let text = format!(in rt.alloc(); "{instance}{rest}")?;
        let found = found(rt.alloc(), text.as_bytes())?;
        assert_eq!(rt;
            format!(in rt.alloc(); "{found}")?.as_str(),
            verdict,
            "at {rest}"
        );
    }
    Ok(())
}

#[test]
fn reads_the_longest_proof(rt: HostRuntime) -> Result<(), Fail> {
    let mut text = Vec::from_slice(rt.alloc(), b"0 0\nvalue 0\nitems\nproof 2097152\n")?;
    for _ in 0..2_097_152 {
        text.extend_from_slice(b"c\n")?;
    }
    let verdict = found(rt.alloc(), text.as_slice())?;
    assert_eq!(rt; verdict, ProofVerdict::BadToken { place: 1 });
    Ok(())
}

// the proof that is made for a plan that a text proves, as a text
fn made_again(alloc: Global, text: &[u8]) -> Result<Option<Vec<u8>>, Fail> {
    let (items, claimed, proof) = read_proof(alloc, text)?;
    let knapsack = Knapsack::new(alloc, items)?;
    match verify(alloc, &knapsack, &claimed, &proof)? {
        ProofVerdict::Proved => {
            let cost = knapsack.cost(&claimed.plan);
            match prove(alloc, &knapsack, cost) {
                Made::Proof(made) => Ok(Some(write_proof(alloc, &claimed, &made)?)),
                Made::TooLong | Made::NoMemory => Ok(None),
            }
        }
        _ => Ok(None),
    }
}

#[test]
fn makes_and_writes_a_proof(rt: HostRuntime) -> Result<(), Fail> {
    let instance = "2 5\n3 4\n4 5\n";
    let rest = "value 5\nitems 1\nproof 4\nb\nb\nc\nc\n";
    let text = format!(in rt.alloc(); "{instance}{rest}")?;
    let made = made_again(rt.alloc(), text.as_bytes())?.ok_or("no proof")?;
    assert_eq!(rt; made.as_slice(), rest.as_bytes());
    Ok(())
}
