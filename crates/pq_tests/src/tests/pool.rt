//! The pool by itself: a row worked by hand, and two seats in threads of their own.
ghost use Rattle.std.specs.Prelude.{◌≡◌, ◌≤◌, true, Contains, IfSome, None};
ghost use Rattle.pq_seats.specs.Passes.{limits_of, view_of, Belongs};
ghost use Rattle.pq_seats.specs.Rules.{IsBare, IsAtRest};
ghost use Rattle.pq_pool.specs.Layout.{builder_word, first_chunk};
ghost use Rattle.pq_pool.specs.States.{IsLive};
ghost use Rattle.pq_pool.specs.Passes.{pool_of, HoldsBuilder, AgreesAt};
ghost use Rattle.pq_pool.specs.Bench.{bench_rule, bench_pool, IsLoose};

use pq_pool::{Bench, BenchPass, pin, still_stands, take};
use pq_seats::Shared;
use std::sync::atomic::{AtomicU32, Ordering};
use std::thread::{join, yield_now};

// Each thread of a test ends after this many turns.
const TURNS: u32 = 20_000;

// A thread of the test that counts chunks has so many pass through all their states.
const PASSED: u32 = 5_000;

// After so many turns it ends all the same, and the test fails.
const MOST_TURNS: u32 = 4_000_000;

const ORDER: Ordering = Ordering::SeqCst;

// What six takes give: two before the second seat pins itself, two under its pin, and two after it.
fn six_takes(
    shared: &Shared<Bench>,
    first: &mut BenchPass,
    second: &mut BenchPass,
) -> Option<[Option<u32>; 6]>
    requires wide { first_chunk ≤ shared.now.words }
    requires first { IsLoose shared.now first.old }
    requires second { IsLoose shared.now second.old }
{
    if !Bench::try_hold(shared, first) {
        return None;
    }
    let a = take(shared, first)?;
    Bench::publish(shared, first, a);
    let b = take(shared, first)?;
    Bench::publish(shared, first, b);
    pin(shared, second);
    Bench::retire(shared, first, a);
    let c = take(shared, first);
    let d = take(shared, first);
    still_stands(shared, second);
    Bench::unpin(shared, second);
    let e = take(shared, first);
    let f = take(shared, first);
    Bench::free(shared, first);
    Some([Some(a), Some(b), c, d, e, f])
}

// A chunk that was retired under a pin comes back by two sweeps after it: the first makes it old, the second free.
#[test]
fn bench_sweeps(rt: HostRuntime) {
    let opened = Bench::open(rt.alloc(), 2, 7, 2);
    let (shared, mut passes) = opened.expect(&rt, "there is memory");
    let mut first = passes.remove(0);
    let mut second = passes.remove(0);
    let taken = six_takes(&shared, &mut first, &mut second);
    let wanted = [Some(0), Some(1), None, None, None, Some(0)];
    assert_eq!(rt; taken, Some(wanted));
}

// Takes a chunk, makes it live and retires it.
fn one_chunk(shared: &Shared<Bench>, pass: &mut BenchPass) -> bool
    requires builder { HoldsBuilder bench_pool shared.now pass.old }
    requires agrees { AgreesAt bench_pool shared.now pass.old }
    ensures builder { HoldsBuilder bench_pool shared.now pass.new }
    ensures agrees { AgreesAt bench_pool shared.now pass.new }
{
    let Some(chunk) = take(shared, pass) else {
        return false;
    };
    Bench::publish(shared, pass, chunk);
    Bench::retire(shared, pass, chunk);
    true
}

// Pins the seat and ends the pin. Then, where nobody else builds, has a chunk pass through all its states.
fn one_turn(shared: &Shared<Bench>, pass: &mut BenchPass) -> bool
    requires wide { first_chunk ≤ shared.now.words }
    requires loose { IsLoose shared.now pass.old }
    ensures loose { IsLoose shared.now pass.new }
{
    pin(shared, pass);
    still_stands(shared, pass);
    Bench::unpin(shared, pass);
    if !Bench::try_hold(shared, pass) {
        return false;
    }
    let taken = one_chunk(shared, pass);
    Bench::free(shared, pass);
    taken
}

// Turns until so many chunks have passed through all their states. The answer is less where that took too many turns.
fn turns(shared: &Shared<Bench>, pass: &mut BenchPass, wanted: u32) -> u32
    requires wide { first_chunk ≤ shared.now.words }
    requires loose { IsLoose shared.now pass.old }
    ensures loose { IsLoose shared.now pass.new }
{
    let mut passed: u32 = 0;
    for _ in 0..MOST_TURNS {
        if passed == wanted {
            return passed;
        }
        if one_turn(shared, pass) {
            passed = passed.saturating_add(1);
        } else {
            yield_now();
        }
    }
    passed
}

// The turns of a thread, with the pass itself, which comes back.
fn all_turns(shared: &Shared<Bench>, pass: BenchPass) -> (u32, BenchPass)
    requires wide { first_chunk ≤ shared.now.words }
    requires loose { IsLoose shared.now pass }
    ensures loose { IsLoose shared.now result.1 }
{
    let mut pass = pass;
    let passed = turns(shared, &mut pass, PASSED);
    (passed, pass)
}

// Takes a chunk, makes it live and leaves it so.
fn one_kept(shared: &Shared<Bench>, pass: &mut BenchPass) -> bool
    requires builder { HoldsBuilder bench_pool shared.now pass.old }
    requires agrees { AgreesAt bench_pool shared.now pass.old }
    ensures builder { HoldsBuilder bench_pool shared.now pass.new }
    ensures agrees { AgreesAt bench_pool shared.now pass.new }
{
    let Some(chunk) = take(shared, pass) else {
        return false;
    };
    Bench::publish(shared, pass, chunk);
    true
}

// How many chunks four takes give, where each is made live and stays so. By the first two of them every chunk that was
// retired is free again.
fn come_back(shared: &Shared<Bench>, pass: &mut BenchPass) -> u32
    requires wide { first_chunk ≤ shared.now.words }
    requires loose { IsLoose shared.now pass.old }
{
    if !Bench::try_hold(shared, pass) {
        return 0;
    }
    let mut count: u32 = 0;
    for _ in 0..4 {
        if one_kept(shared, pass) {
            count = count.saturating_add(1);
        }
    }
    count
}

// Two seats pin themselves, and build where they get the builder's word and a chunk, each until it has had thousands of
// chunks pass through all their states. Once both threads have ended, no pin is set, and all three chunks come back.
#[test]
fn two_seats_pin_and_build_at_once(rt: HostRuntime) {
    let opened = Bench::open(rt.alloc(), 3, 7, 2);
    let (shared, mut passes) = opened.expect(&rt, "there is memory");
    let first = passes.remove(0);
    let second = passes.remove(0);
    let (ran, other) = join(
        &rt,
        || all_turns(&shared, first),
        || all_turns(&shared, second),
    );
    let (by_first, mut first) = ran;
    let (by_second, _) = other;
    assert_eq!(rt; (by_first, by_second), (PASSED, PASSED));
    assert_eq!(rt; come_back(&shared, &mut first), 3);
}

// Takes a chunk and makes it live. The seat holds the builder's word from then on, also where there was no chunk.
fn one_live(shared: &Shared<Bench>, pass: &mut BenchPass) -> Option<u32>
    requires wide { first_chunk ≤ shared.now.words }
    requires loose { IsLoose shared.now pass.old }
    ensures live { IfSome result (λ c. HoldsBuilder bench_pool shared.now pass.new
        × AgreesAt bench_pool shared.now pass.new
        × IsLive (pool_of bench_pool pass.new).counted c) }
{
    if !Bench::try_hold(shared, pass) {
        return None;
    }
    let chunk = take(shared, pass)?;
    Bench::publish(shared, pass, chunk);
    Some(chunk)
}

// Has a chunk pass through all its states, if there is one, and tells whether it was this one.
fn takes_it(shared: &Shared<Bench>, pass: &mut BenchPass, kept: u32) -> bool
    requires builder { HoldsBuilder bench_pool shared.now pass.old }
    requires agrees { AgreesAt bench_pool shared.now pass.old }
    ensures builder { HoldsBuilder bench_pool shared.now pass.new }
    ensures agrees { AgreesAt bench_pool shared.now pass.new }
{
    let Some(chunk) = take(shared, pass) else {
        return false;
    };
    Bench::publish(shared, pass, chunk);
    Bench::retire(shared, pass, chunk);
    chunk == kept
}

// Retires a chunk, and then takes many times. How often was it given that chunk?
fn builds_on(shared: &Shared<Bench>, pass: BenchPass, kept: u32) -> (u32, BenchPass)
    requires builder { HoldsBuilder bench_pool shared.now pass }
    requires agrees { AgreesAt bench_pool shared.now pass }
    requires live { IsLive (pool_of bench_pool pass).counted kept }
    ensures builder { HoldsBuilder bench_pool shared.now result.1 }
    ensures agrees { AgreesAt bench_pool shared.now result.1 }
{
    let mut pass = pass;
    Bench::retire(shared, &mut pass, kept);
    let mut given: u32 = 0;
    for _ in 0..TURNS {
        if takes_it(shared, &mut pass, kept) {
            given = given.saturating_add(1);
        }
    }
    (given, pass)
}

// Looks many times under a pin, which stays.
fn looks_on(shared: &Shared<Bench>, pass: BenchPass) -> BenchPass
    requires own { Belongs shared.now pass }
    requires pinned { (pool_of bench_pool pass).pinned ≡ true }
    requires no_lock { ¬ Contains (view_of pass).post.locks builder_word }
    ensures own { Belongs shared.now result }
    ensures no_lock { ¬ Contains (view_of result).post.locks builder_word }
{
    let mut pass = pass;
    for _ in 0..TURNS {
        still_stands(shared, &mut pass);
    }
    pass
}

// The second seat pins itself where a chunk is live, and stays pinned in a thread of its own. Meanwhile the first seat
// retires the chunk and takes in another thread, as often as is stated: it is never given that chunk. Once the pin has
// ended, the chunk comes back by two sweeps.
#[test]
fn a_chunk_stays_while_another_thread_is_pinned(rt: HostRuntime) {
    let opened = Bench::open(rt.alloc(), 3, 7, 2);
    let (shared, mut passes) = opened.expect(&rt, "there is memory");
    let mut first = passes.remove(0);
    let mut second = passes.remove(0);
    let kept = one_live(&shared, &mut first).expect(&rt, "a chunk is free");
    pin(&shared, &mut second);
    let (built, mut second) = join(
        &rt,
        || builds_on(&shared, first, kept),
        || looks_on(&shared, second),
    );
    let (given, mut first) = built;
    assert_eq!(rt; given, 0);
    Bench::unpin(&shared, &mut second);
    assert!(rt; !takes_it(&shared, &mut first, kept));
    assert!(rt; takes_it(&shared, &mut first, kept));
}

// What two threads tell each other: which chunk may be read, and which is being read, by its number plus 1, and how
// many takes were made.
#[derive(Drop)]
struct Desk {
    offered: AtomicU32,
    read: AtomicU32,
    takes: AtomicU32,
}

// A wait ends after this many looks at a word. In a patient one each look gives way to other threads.
fn looks(patient: bool) -> u32 {
    if patient { 10_000_000 } else { 100 }
}

// Waits until the word has been raised by so many, and tells whether it was.
fn rises(patient: bool, word: &AtomicU32, from: u32, by: u32) -> bool {
    for _look in 0..looks(patient) {
        if by <= word.load(ORDER).wrapping_sub(from) {
            return true;
        }
        if patient {
            yield_now();
        }
    }
    false
}

// Waits for an offer, pins the seat, and reads the chunk that is offered then, if there is one, until the other thread
// has taken three times. Tells whether it did so under the pin. The chunk was live at a moment of the pin, since no
// other is offered.
fn reads_once(patient: bool, shared: &Shared<Bench>, pass: &mut BenchPass, desk: &Desk) -> bool
    requires wide { first_chunk ≤ shared.now.words }
    requires loose { IsLoose shared.now pass.old }
    ensures loose { IsLoose shared.now pass.new }
{
    rises(patient, &desk.offered, 0, 1);
    pin(shared, pass);
    let chunk = desk.offered.load(ORDER);
    desk.read.store(chunk, ORDER);
    let takes = desk.takes.load(ORDER);
    let outlasted = chunk != 0 && rises(patient, &desk.takes, takes, 3);
    desk.read.store(0, ORDER);
    Bench::unpin(shared, pass);
    outlasted
}

// How often it did so. It is patient up to the first time.
fn reads_on(shared: &Shared<Bench>, pass: BenchPass, desk: &Desk) -> (u32, BenchPass)
    requires wide { first_chunk ≤ shared.now.words }
    requires loose { IsLoose shared.now pass }
    ensures loose { IsLoose shared.now result.1 }
{
    let mut pass = pass;
    let mut outlasted: u32 = 0;
    for _ in 0..TURNS {
        if reads_once(outlasted == 0, shared, &mut pass, desk) {
            outlasted = outlasted.saturating_add(1);
        }
    }
    (outlasted, pass)
}

// Takes a chunk, makes it live and offers it until some chunk is read. Then no more is offered, and it is retired.
// Tells whether the chunk was being read when it was given.
fn offers_once(patient: bool, shared: &Shared<Bench>, pass: &mut BenchPass, desk: &Desk) -> bool
    requires builder { HoldsBuilder bench_pool shared.now pass.old }
    requires agrees { AgreesAt bench_pool shared.now pass.old }
    ensures builder { HoldsBuilder bench_pool shared.now pass.new }
    ensures agrees { AgreesAt bench_pool shared.now pass.new }
{
    let taken = take(shared, pass);
    desk.takes.fetch_add(1, ORDER);
    let Some(chunk) = taken else {
        return false;
    };
    let name = chunk.saturating_add(1);
    let clashes = desk.read.load(ORDER) == name;
    Bench::publish(shared, pass, chunk);
    desk.offered.store(name, ORDER);
    rises(patient, &desk.read, 0, 1);
    desk.offered.store(0, ORDER);
    Bench::retire(shared, pass, chunk);
    clashes
}

// How often that was so. The first offer waits patiently for its reader.
fn offers_on(shared: &Shared<Bench>, pass: BenchPass, desk: &Desk) -> (u32, BenchPass)
    requires wide { first_chunk ≤ shared.now.words }
    requires loose { IsLoose shared.now pass }
    ensures loose { IsLoose shared.now result.1 }
{
    let mut pass = pass;
    let mut clashes: u32 = 0;
    if !Bench::try_hold(shared, &mut pass) {
        return (1, pass);
    }
    for turn in 0..TURNS {
        if offers_once(turn == 0, shared, &mut pass, desk) {
            clashes = clashes.saturating_add(1);
        }
    }
    Bench::free(shared, &mut pass);
    (clashes, pass)
}

// One seat pins itself again and again, and reads what is offered over takes of the other, which retires each chunk
// that it has offered. No chunk is given while it is being read, and there was a pin that outlasted three takes.
#[test]
fn no_chunk_is_given_while_it_is_read(rt: HostRuntime) {
    let opened = Bench::open(rt.alloc(), 4, 7, 2);
    let (shared, mut passes) = opened.expect(&rt, "there is memory");
    let first = passes.remove(0);
    let second = passes.remove(0);
    let desk = Desk {
        offered: AtomicU32::new(0),
        read: AtomicU32::new(0),
        takes: AtomicU32::new(0),
    };
    let (offered, read) = join(
        &rt,
        || offers_on(&shared, first, &desk),
        || reads_on(&shared, second, &desk),
    );
    let (clashes, _) = offered;
    let (outlasted, _) = read;
    assert_eq!(rt; clashes, 0);
    assert!(rt; 0 < outlasted);
}

// Pins the seat, looks under the pin, and ends it.
fn pins_once(shared: &Shared<Bench>, pass: &mut BenchPass)
    requires wide { first_chunk ≤ shared.now.words }
    requires own { Belongs shared.now pass.old }
    requires bare { IsBare (view_of pass.old).post }
    ensures own { Belongs shared.now pass.new }
    ensures lanes { pass.new.lanes ≡ pass.old.lanes }
    ensures rests { IsAtRest bench_rule (view_of pass.new).post }
{
    pin(shared, pass);
    still_stands(shared, pass);
    Bench::unpin(shared, pass);
}

// Closes the table, and gives the length of the history and the pin words of the first three seats.
fn last_words(shared: Shared<Bench>, pass: BenchPass) -> [u64; 4]
    requires wide { first_chunk ≤ (limits_of shared).words }
    requires own { Belongs shared pass }
    requires all { shared.seats ≤ pass.lanes }
    requires rests { IsAtRest bench_rule (view_of pass).post }
{
    let closed = shared.close(pass);
    let words = [
        closed.word(0),
        closed.word(18),
        closed.word(19),
        closed.word(20),
    ];
    closed.free();
    words
}

// Passes that were pinned are joined: one whose pin has ended, and one that is pinned still, whose pin the join ends. The
// last is pinned once more, and closes the table. No pin is set then.
#[test]
fn passes_that_pinned_are_joined_and_closed(rt: HostRuntime) {
    let opened = Bench::open(rt.alloc(), 2, 7, 3);
    let (shared, mut passes) = opened.expect(&rt, "there is memory");
    let mut first = passes.remove(0);
    let mut second = passes.remove(0);
    let mut third = passes.remove(0);
    pins_once(&shared, &mut second);
    shared.join(&mut first, second);
    pin(&shared, &mut third);
    Bench::join(&shared, &mut first, third);
    pins_once(&shared, &mut first);
    assert_eq!(rt; first.lanes, 3);
    assert!(rt; shared.seats <= first.lanes);
    assert_eq!(rt; last_words(shared, first), [0, 0, 0, 0]);
}
