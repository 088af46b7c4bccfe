//! A rule with the words of the base and of the pool alone, on which the calls of the pool can be made without a queue.
ghost use Rattle.std.specs.Prelude.{◌≡◌, ℕ, ◌+◌, ◌*◌, ◌≤◌, Contains, IfOk, MatchBool, None, length, slice_index};
ghost use Rattle.pq_model.specs.Limits.{max_seats};
ghost use Rattle.pq_model.specs.History.{IsSeat};
ghost use Rattle.pq_model.specs.Passes.{joined_with};
ghost use Rattle.pq_api.specs.Answers.{EachAt};
ghost use Rattle.pq_seats.specs.Rules.{IsBare, IsAtRest};
ghost use Rattle.pq_seats.specs.Seats.{Begins, limits_for, newcomer};
ghost use Rattle.pq_seats.specs.Passes.{limits_of, view_of, known, Belongs, IsSamePass, IsInformed};
ghost use Rattle.pq_seats.specs.Steps.{Took, Missed, freed_view};
ghost use Rattle.pq_pool.specs.Limits.{max_chunks};
ghost use Rattle.pq_pool.specs.Layout.{builder_word, first_chunk, chunk_words};
ghost use Rattle.pq_pool.specs.States.{live_state, young_state, IsBuilt, IsLive};
ghost use Rattle.pq_pool.specs.Views.{unpinned, moved};
ghost use Rattle.pq_pool.specs.Passes.{pool_of, HoldsBuilder, StaysBuilder, StaysSeated, AgreesAt};
ghost use Rattle.pq_pool.specs.Bench.{bench_rule, bench_pool, bench_limits, IsLoose};
ghost use Rattle.pq_pool.specs.BenchLawsHold.{bench_lawful, bench_pool_laws};

use crate::layout::{BUILDER_WORD, CHUNK_WORDS, FIRST_CHUNK};
use crate::{PoolRule, PoolView, chunks, pins};
use pq_io::NoMemory;
use pq_seats::{SeatPass, SeatRule, Shared};
use std::alloc::Global;
use std::sync::Wait;

/// A table with a pool and nothing else. Its history stays empty, and no chunk links to another.
pub struct Bench;

impl SeatRule for Bench {
    type Own = PoolView;

    ghost rule = { bench_rule };

    ghost lawful = { bench_lawful };
}

impl PoolRule for Bench {
    const BUILDER: u32 = BUILDER_WORD;

    ghost BUILDER = { builder_word };

    ghost pool = { bench_pool };

    ghost pool_laws = { bench_pool_laws };
}

/// The pass of a seat of the bench.
pub type BenchPass = SeatPass<Bench>;

/// The words of a fresh bench: all are 0, so every chunk is free, every link is 0, and no pin or grace bit is set. They
/// suit any capacity, since a bench holds no entries.
pub fn bench_words(alloc: Global, chunks: u32, seats: u32) -> Result<Vec<u64>, NoMemory>
    requires chunks { (1 ≤ chunks) × (chunks ≤ max_chunks) }
    requires seats { IsSeat max_seats seats }
    ensures long { IfOk result (λ v. length v.items ≡ first_chunk + chunk_words * chunks) }
    ensures zeros { IfOk result (λ v. (i : ℕ) → slice_index v.items i ≡ 0) }
    ensures begins { IfOk result (λ v. (capacity : ℕ)
        → Begins bench_rule (limits_for capacity seats v.items) v.items) }
{
    let count = FIRST_CHUNK + CHUNK_WORDS * chunks as usize;
    let mut words = Vec::new(alloc);
    for _ in 0..count {
        words.push(0)?;
    }
    Ok(words)
}

impl Bench {
    /// Opens a fresh bench with the words of `bench_words`, and gives all its passes at once, numbered from 1 on. Each
    /// is new: its seat has no pin and not the builder's word, and has seen and read nothing. That all chunks are free,
    /// no clause says here, since a table tells nothing of its words but its rule; it rests on `bench_words`.
    pub fn open(
        alloc: Global,
        chunks: u32,
        capacity: u32,
        seats: u32,
    ) -> Result<(Shared<Bench>, Vec<BenchPass>), NoMemory>
        requires chunks { (1 ≤ chunks) × (chunks ≤ max_chunks) }
        requires seats { IsSeat max_seats seats }
        ensures limits { IfOk result (λ r. limits_of r.0 ≡ bench_limits capacity seats chunks) }
        ensures long { IfOk result (λ r. r.0.words ≡ first_chunk + chunk_words * chunks) }
        ensures seats { IfOk result (λ r. r.0.seats ≡ seats) }
        ensures count { IfOk result (λ r. length r.1.items ≡ seats) }
        ensures passes { IfOk result (λ r. EachAt (λ i p. IsLoose r.0 p × (p.number ≡ i + 1)) r.1.items) }
        ensures new { IfOk result (λ r. EachAt (λ i p.
            view_of p ≡ newcomer bench_rule (bench_limits capacity seats chunks) (i + 1)) r.1.items) }
        ensures rest { IfOk result (λ r. EachAt (λ i p. IsAtRest bench_rule (view_of p).post) r.1.items) }
    {
        let words = bench_words(alloc, chunks, seats)?;
        let (shared, passes) = Shared::open(alloc, words, capacity, seats)?;
        Ok((shared, passes))
    }

    /// Tries to take the builder's word, by one exchange. The seat has no pin. The answer is true exactly where the
    /// word read was 0. In both cases the view has read further.
    pub fn try_hold(shared: &Shared<Bench>, pass: &mut BenchPass) -> bool
        requires wide { first_chunk ≤ shared.now.words }
        requires loose { IsLoose shared.now pass.old }
        ensures same { IsSamePass pass.old pass.new }
        ensures held { MatchBool result
            (HoldsBuilder bench_pool shared.now pass.new
            × AgreesAt bench_pool shared.now pass.new)
            (IsLoose shared.now pass.new) }
        ensures answer { MatchBool result
            (Took bench_rule (view_of pass.old) (view_of pass.new) builder_word)
            (Missed bench_rule (view_of pass.old) (view_of pass.new)) }
    {
        shared.try_lock(pass, Bench::BUILDER)
    }

    /// Takes the builder's word. It backs off between two tries, and may wait for ever.
    pub fn hold<W: Wait>(rt: &W, shared: &Shared<Bench>, pass: &mut BenchPass)
        requires wide { first_chunk ≤ shared.now.words }
        requires loose { IsLoose shared.now pass.old }
        ensures same { IsSamePass pass.old pass.new }
        ensures held { HoldsBuilder bench_pool shared.now pass.new }
        ensures agrees { AgreesAt bench_pool shared.now pass.new }
        ensures took { Took bench_rule (view_of pass.old) (view_of pass.new) builder_word }
    {
        shared.lock(rt, pass, Bench::BUILDER);
    }

    /// Frees the builder's word, where all words are as they count.
    pub fn free(shared: &Shared<Bench>, pass: &mut BenchPass)
        requires builder { HoldsBuilder bench_pool shared.now pass.old }
        requires agrees { AgreesAt bench_pool shared.now pass.old }
        ensures same { IsSamePass pass.old pass.new }
        ensures loose { IsLoose shared.now pass.new }
        ensures view { view_of pass.new ≡ freed_view bench_rule (view_of pass.old) builder_word }
    {
        shared.unlock(pass, Bench::BUILDER);
    }

    /// `unpin` of the pool, with no leave to ask for. Who held nothing but the pin is at rest then.
    pub fn unpin(shared: &Shared<Bench>, pass: &mut BenchPass)
        requires wide { first_chunk ≤ shared.now.words }
        requires own { Belongs shared.now pass.old }
        requires no_lock { ¬ Contains (view_of pass.old).post.locks builder_word }
        ensures same { StaysSeated bench_pool shared.now pass.old pass.new }
        ensures loose { IsLoose shared.now pass.new }
        ensures view { pool_of bench_pool pass.new ≡ unpinned (pool_of bench_pool pass.old) }
        ensures rests { IsBare (view_of pass.old).post → IsAtRest bench_rule (view_of pass.new).post }
    {
        pins::unpin(shared, pass);
    }

    /// Takes the other pass into this one. If the other is pinned, its pin ends before; and it may have had pins and
    /// looked under them. It holds nothing else, and no insert is in flight.
    pub fn join(shared: &Shared<Bench>, pass: &mut BenchPass, other: BenchPass)
        requires wide { first_chunk ≤ shared.now.words }
        requires own { Belongs shared.now pass.old × ((view_of pass.old).post.flight ≡ None) }
        requires other { Belongs shared.now other }
        requires bare { IsBare (view_of other).post }
        ensures own { Belongs shared.now pass.new }
        ensures same { (pass.new.number ≡ pass.old.number) × (pass.new.lanes ≡ pass.old.lanes + other.lanes) }
        ensures post { (view_of pass.new).post ≡ (view_of pass.old).post }
        ensures joined { known pass.new ≡ joined_with (known pass.old) (known other) }
        ensures knows { IsInformed shared.now pass.new }
    {
        let mut other = other;
        Bench::unpin(shared, &mut other);
        shared.join(pass, other);
    }

    /// `publish` of the pool, with no leave to ask for.
    pub fn publish(shared: &Shared<Bench>, pass: &mut BenchPass, chunk: u32)
        requires builder { HoldsBuilder bench_pool shared.now pass.old }
        requires built { IsBuilt (pool_of bench_pool pass.old).stored chunk }
        ensures same { StaysBuilder bench_pool shared.now pass.old pass.new }
        ensures live { pool_of bench_pool pass.new ≡ moved (pool_of bench_pool pass.old) chunk live_state }
        ensures agrees { AgreesAt bench_pool shared.now pass.old → AgreesAt bench_pool shared.now pass.new }
        ensures stays { (c : ℕ) → IsLive (pool_of bench_pool pass.old).counted c
            → IsLive (pool_of bench_pool pass.new).counted c }
        ensures now { IsLive (pool_of bench_pool pass.new).counted chunk }
    {
        chunks::publish(shared, pass, chunk);
    }

    /// `retire` of the pool, with no leave to ask for.
    pub fn retire(shared: &Shared<Bench>, pass: &mut BenchPass, chunk: u32)
        requires builder { HoldsBuilder bench_pool shared.now pass.old }
        requires live { IsLive (pool_of bench_pool pass.old).counted chunk }
        ensures same { StaysBuilder bench_pool shared.now pass.old pass.new }
        ensures young { pool_of bench_pool pass.new ≡ moved (pool_of bench_pool pass.old) chunk young_state }
        ensures agrees { AgreesAt bench_pool shared.now pass.old → AgreesAt bench_pool shared.now pass.new }
    {
        chunks::retire(shared, pass, chunk);
    }
}
