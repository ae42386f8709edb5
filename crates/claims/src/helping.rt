// Work that idle workers help with: they claim its pieces beside the calling thread, from the time
// on at which they are idle.
ghost use Rattle.std.specs.Prelude.{◌≡◌, ◌<◌, ◌≤◌, ◌+◌, ◌*◌, ◌++◌, ◌^◌, ℕ, [], length, IfOk, IfSome, IfNone, OnOk, vec_len};
ghost use Rattle.std.specs.Fork.{GivesEach};
ghost use Rattle.std.specs.Thread.{IsSync, IsSend};
ghost use Rattle.claims.specs.ClaimWord.{HasEachBelow, KnowsWhole, pass_state};
ghost use Rattle.claims.specs.Pieces.{AreDone, ArePiecesOf, IsAtWork, IsHelped};

use crate::claim_word::{ALL_PARTS, Claims, Pass};
use crate::helpers::Helpers;
use crate::sharing::{Work, in_order};
use answers::Memory;
use outside::Gate;
use std::alloc::Global;
use std::marker::{Send, Sync};
use std::thread::{Threads, join_mut, spawn};

/// How many pieces a worker computes before it looks for helpers again.
pub const PIECES_ALONE: usize = 16;

// How many bytes a worker takes and gives back before it is helped, and a helper before it begins.
const ROOM: usize = 4194304;

// Work, and the helpers who may join in.
#[derive(Drop)]
pub(crate) struct Job<'a, R, F, G> {
    work: Work<'a, R, F, G>,
    helpers: &'a Helpers,
}

/// The list `f(0)` to `f(count - 1)`, computed by the calling thread and by helpers. A helper joins
/// in, in a thread of its own where one can be made, where some are idle and a worker's share of
/// the pieces that are left is enough for one; the worker and the helper then have half of the
/// share each. The calling thread looks for helpers at the start, and each worker after every 16
/// pieces. Each helper is added again. Where some are idle at the start, and the pieces are enough
/// for one, a thread that does nothing is started first, and nobody waits for it. The workers claim
/// the numbers from the claim word, and pass the gate before each piece: in at most 127 turns, each
/// of at most 16 claims more than there are pieces. The pass has all 64 parts and has claimed
/// nothing; whatever the answer, it has all parts again, and tells the numbers that were claimed.
/// Refused for want of memory alone.
///
/// # Errors
///
/// Memory ran out.
pub fn helped_map<R: Threads + Sync, T: Send + Drop, F: Fn(usize) -> T + Sync, G: Gate>(
    rt: &R,
    alloc: Global,
    claims: &Claims,
    pass: &mut Pass,
    count: usize,
    helpers: &Helpers,
    gate: &G,
    f: &F,
) -> Result<Vec<T>, Memory>
    requires pass { pass.old ≡ pass_state claims.now 64 [] }
    requires count { count < 2 ^ 32 }
    requires accepts { (k : ℕ) → k < count → F.pre f.now k }
    ensures pass { pass.new ≡ pass_state claims.now 64 pass.new.claimed }
    ensures few { length pass.new.claimed ≤ 127 * (count + 16) }
    ensures each_once { HasEachBelow (length pass.new.claimed) pass.new.claimed }
    ensures past { OnOk result (count < length pass.new.claimed) }
    ensures len { IfOk result (λ v. vec_len v ≡ count) }
    ensures each { IfOk result (λ v. GivesEach F.Fn f.now count v.items) }
{
    let mut pieces = room_for(alloc, count);
    if helpers.are_free_for(count) {
        start_idle_thread(rt);
    }
    let work = Work {
        rt,
        alloc,
        claims,
        count,
        gate,
        f,
    };
    let job = Job { work, helpers };
    helped(&job, count, pass, &mut pieces)?;
    in_order(alloc, pieces)
}

// Starts a thread that does nothing, and does not wait for it. Some systems put a new thread on the
// processor of the one that starts it, where it waits for milliseconds, and the next new thread on
// another processor, where it begins at once.
fn start_idle_thread<R: Threads>(rt: &R) {
    drop(spawn(rt, || {}));
}

// An empty list with room for so many pieces; without room where there is no memory.
fn room_for<T: Drop>(alloc: Global, count: usize) -> Vec<T>
    ensures { result.items ≡ [] }
{
    match Vec::with_capacity(alloc, count) {
        Ok(list) => list,
        Err(_) => Vec::new(alloc),
    }
}

// A worker's share of the pieces that are left: as much of them as it has of all parts.
fn share(left: usize, parts: u32) -> usize {
    left.saturating_mul(parts as usize) / ALL_PARTS as usize
}

// The further pieces that a worker claims, until none is left, beside helpers who join in where
// some are idle. So many are left as far as the worker knows.
#[cycle(helping)]
fn helped<R: Threads + Sync, T: Send + Drop, F: Fn(usize) -> T + Sync, G: Gate>(
    job: &Job<R, F, G>,
    left: usize,
    pass: &mut Pass,
    pieces: &mut Vec<(usize, T)>,
) -> Result<(), Memory>
    requires work { IsAtWork F.Fn job.now.work.f.now job.now.work.count job.now.work.claims.now
        pass.old pieces.old.items }
    requires count { job.now.work.count < 2 ^ 32 }
    requires accepts { (k : ℕ) → k < job.now.work.count → F.pre job.now.work.f.now k }
    ensures pass { IsHelped job.now.work.count 1 pass.old pass.new }
    ensures pieces { OnOk result
        (AreDone F.Fn job.now.work.f.now job.now.work.count pass.new.claimed pieces.new.items) }
{
    let mut left = left;
    for _ in 0..job.work.count / PIECES_ALONE + 1 {
        let parts = pass.parts();
        if parts > 1 && job.helpers.take_for(share(left, parts)) {
            return halved(job, left, pass, pieces);
        }
        match worked(&job.work, pass, pieces)? {
            Some(more) => left = more,
            None => return Ok(()),
        }
    }
    Ok(())
}

// The further pieces that a worker and a helper claim.
#[cycle(helping)]
fn halved<R: Threads + Sync, T: Send + Drop, F: Fn(usize) -> T + Sync, G: Gate>(
    job: &Job<R, F, G>,
    left: usize,
    pass: &mut Pass,
    pieces: &mut Vec<(usize, T)>,
) -> Result<(), Memory>
    requires work { IsAtWork F.Fn job.now.work.f.now job.now.work.count job.now.work.claims.now
        pass.old pieces.old.items }
    requires parts { 1 < pass.old.parts }
    requires count { job.now.work.count < 2 ^ 32 }
    requires accepts { (k : ℕ) → k < job.now.work.count → F.pre job.now.work.f.now k }
    ensures pass { IsHelped job.now.work.count 2 pass.old pass.new }
    ensures pieces { OnOk result
        (AreDone F.Fn job.now.work.f.now job.now.work.count pass.new.claimed pieces.new.items) }
{
    let mut rest = room_for(job.work.alloc, left / 2);
    let (first, second) = in_halves(job, left, pass, pieces, &mut rest);
    first?;
    second?;
    pieces.append(&mut rest)?;
    Ok(())
}

// The further pieces that a worker and a helper claim, each with half of the parts: those of the
// worker are added to the first list, and those of the helper to the second. The helper is added
// again.
#[cycle(helping)]
fn in_halves<R: Threads + Sync, T: Send + Drop, F: Fn(usize) -> T + Sync, G: Gate>(
    job: &Job<R, F, G>,
    left: usize,
    pass: &mut Pass,
    pieces: &mut Vec<(usize, T)>,
    rest: &mut Vec<(usize, T)>,
) -> (Result<(), Memory>, Result<(), Memory>)
    requires work { IsAtWork F.Fn job.now.work.f.now job.now.work.count job.now.work.claims.now
        pass.old pieces.old.items }
    requires parts { 1 < pass.old.parts }
    requires none { rest.old.items ≡ [] }
    requires count { job.now.work.count < 2 ^ 32 }
    requires accepts { (k : ℕ) → k < job.now.work.count → F.pre job.now.work.f.now k }
    ensures pass { IsHelped job.now.work.count 2 pass.old pass.new }
    ensures pieces { OnOk result.0 (OnOk result.1
        (AreDone F.Fn job.now.work.f.now job.now.work.count
        pass.new.claimed (pieces.new.items ++ rest.new.items))) }
{
    let theirs = pass.parts() / 2;
    let mut other = job.work.claims.split(pass, theirs);
    let both = both_helped(job, left, pass, pieces, &mut other, rest);
    job.work.claims.join(pass, other);
    job.helpers.add(1);
    both
}

// The further pieces of two workers, each with a pass of its own, the second in a new thread. It is
// a function of its own so that what the closures require is what this function is given.
#[cycle(helping)]
fn both_helped<R: Threads + Sync, T: Send + Drop, F: Fn(usize) -> T + Sync, G: Gate>(
    job: &Job<R, F, G>,
    left: usize,
    pass: &mut Pass,
    pieces: &mut Vec<(usize, T)>,
    other: &mut Pass,
    rest: &mut Vec<(usize, T)>,
) -> (Result<(), Memory>, Result<(), Memory>)
    requires work { IsAtWork F.Fn job.now.work.f.now job.now.work.count job.now.work.claims.now
        pass.old pieces.old.items }
    requires other { IsAtWork F.Fn job.now.work.f.now job.now.work.count job.now.work.claims.now
        other.old rest.old.items }
    requires count { job.now.work.count < 2 ^ 32 }
    requires accepts { (k : ℕ) → k < job.now.work.count → F.pre job.now.work.f.now k }
    ensures pass { IsHelped job.now.work.count 1 pass.old pass.new }
    ensures other { IsHelped job.now.work.count 1 other.old other.new }
    ensures first { OnOk result.0
        (AreDone F.Fn job.now.work.f.now job.now.work.count pass.new.claimed pieces.new.items) }
    ensures second { OnOk result.1
        (AreDone F.Fn job.now.work.f.now job.now.work.count other.new.claimed rest.new.items) }
{
    let mut own = || -> Result<(), Memory>
        requires shared { IsSync R.row × IsSync F.row × IsSync G.row × IsSend T.row }
        requires work { IsAtWork F.Fn job.now.work.f.now job.now.work.count job.now.work.claims.now
            pass.now pieces.now.items }
        requires count { job.now.work.count < 2 ^ 32 }
        requires accepts { (k : ℕ) → k < job.now.work.count → F.pre job.now.work.f.now k }
        ensures pass { IsHelped job.entry.now.work.count 1 pass.entry.now pass.exit.now }
        ensures pieces { OnOk result
            (AreDone F.Fn job.entry.now.work.f.now job.entry.now.work.count
            pass.exit.now.claimed pieces.exit.now.items) }
    {
        make_room(job.work.alloc);
        helped(job, left, pass, pieces)
    };
    let mut helping = || -> Result<(), Memory>
        requires shared { IsSync R.row × IsSync F.row × IsSync G.row × IsSend T.row }
        requires work { IsAtWork F.Fn job.now.work.f.now job.now.work.count job.now.work.claims.now
            other.now rest.now.items }
        requires count { job.now.work.count < 2 ^ 32 }
        requires accepts { (k : ℕ) → k < job.now.work.count → F.pre job.now.work.f.now k }
        ensures pass { IsHelped job.entry.now.work.count 1 other.entry.now other.exit.now }
        ensures pieces { OnOk result
            (AreDone F.Fn job.entry.now.work.f.now job.entry.now.work.count
            other.exit.now.claimed rest.exit.now.items) }
    {
        make_room(job.work.alloc);
        helped(job, 0, other, rest)
    };
    let (second, first) = join_mut(job.work.rt, &mut helping, &mut own);
    (first, second)
}

/// Takes 4 MiB and gives them back. The system's allocator then keeps that room for the thread, and
/// need not ask for it page by page while the thread is at work. Where it is refused, nothing else
/// changes.
pub fn make_room(alloc: Global) {
    drop(Vec::<u8>::with_capacity(alloc, ROOM));
}

// The next pieces that one worker claims, 16 of them, and how many numbers are above the last of
// these; `None` where no piece is left to claim.
fn worked<R, T: Drop, F: Fn(usize) -> T, G: Gate>(
    work: &Work<R, F, G>,
    pass: &mut Pass,
    pieces: &mut Vec<(usize, T)>,
) -> Result<Option<usize>, Memory>
    requires work { IsAtWork F.Fn work.now.f.now work.now.count work.now.claims.now
        pass.old pieces.old.items }
    requires count { work.now.count < 2 ^ 32 }
    requires accepts { (k : ℕ) → k < work.now.count → F.pre work.now.f.now k }
    ensures same { pass.new ≡ pass_state work.now.claims.now pass.old.parts pass.new.claimed }
    ensures whole { KnowsWhole pass.new.parts pass.new.claimed }
    ensures few { length pass.new.claimed ≤ length pass.old.claimed + 16 }
    ensures of { OnOk result
        (ArePiecesOf F.Fn work.now.f.now work.now.count pass.new.claimed pieces.new.items) }
    ensures more { IfOk result (λ left. IfSome left (λ _. length pass.new.claimed
        ≡ length pass.old.claimed + 16)) }
    ensures done { IfOk result (λ left. IfNone left
        (length pieces.new.items < length pass.new.claimed)) }
{
    let mut left = 0;
    for _ in 0..PIECES_ALONE {
        pieces.reserve(1)?;
        let number = work.claims.claim(pass) as usize;
        if number >= work.count {
            return Ok(None);
        }
        work.gate.pass(number);
        pieces.push((number, (work.f)(number)))?;
        left = work.count - number - 1;
    }
    Ok(Some(left))
}
