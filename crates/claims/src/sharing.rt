// Work that is shared among threads, which claim its pieces one by one.
ghost use Rattle.std.specs.Prelude.{◌≡◌, ◌<◌, ◌≤◌, ◌+◌, ◌*◌, ◌^◌, ℕ, [], length, IfOk, OnOk, vec_len};
ghost use Rattle.std.specs.Fork.{GivesEach};
ghost use Rattle.std.specs.List.{enumerate_from};
ghost use Rattle.std.specs.List.Sorted.{IsPermutation};
ghost use Rattle.std.specs.Thread.{IsSync, IsSend};
ghost use Rattle.claims.specs.ClaimWord.{HasEachBelow, KnowsWhole, pass_state};
ghost use Rattle.claims.specs.Pieces.{AreDone, IsNewFor, IsUsedBy, numbers};

use crate::claim_word::{Claims, Pass};
use answers::Memory;
use outside::Gate;
use std::alloc::Global;
use std::marker::{Send, Sync};
use std::thread::{Threads, join_mut};

// Work whose pieces are numbered below a count: the claim word of the numbers, what each piece
// gives, and the gate.
#[derive(Drop)]
pub(crate) struct Work<'a, R, F, G> {
    pub rt: &'a R,
    pub alloc: Global,
    pub claims: &'a Claims,
    pub count: usize,
    pub gate: &'a G,
    pub f: &'a F,
}

/// The list `f(0)` to `f(count - 1)`, computed by so many workers, each in a thread of its own
/// where one can be made. The workers claim the numbers from the claim word, and pass the gate
/// before each piece. The pass has all 64 parts and has claimed nothing; whatever the answer, it
/// has all parts again, and tells the numbers that were claimed. Refused for want of memory alone.
///
/// # Errors
///
/// Memory ran out.
pub fn shared_map<R: Threads + Sync, T: Send + Drop, F: Fn(usize) -> T + Sync, G: Gate>(
    rt: &R,
    alloc: Global,
    claims: &Claims,
    pass: &mut Pass,
    count: usize,
    workers: u32,
    gate: &G,
    f: &F,
) -> Result<Vec<T>, Memory>
    requires pass { pass.old ≡ pass_state claims.now 64 [] }
    requires count { count < 2 ^ 32 }
    requires workers { (1 ≤ workers) × (workers ≤ 64) }
    requires accepts { (k : ℕ) → k < count → F.pre f.now k }
    ensures pass { pass.new ≡ pass_state claims.now 64 pass.new.claimed }
    ensures few { length pass.new.claimed ≤ workers * (count + 1) }
    ensures each_once { HasEachBelow (length pass.new.claimed) pass.new.claimed }
    ensures past { OnOk result (count < length pass.new.claimed) }
    ensures len { IfOk result (λ v. vec_len v ≡ count) }
    ensures each { IfOk result (λ v. GivesEach F.Fn f.now count v.items) }
{
    let work = Work {
        rt,
        alloc,
        claims,
        count,
        gate,
        f,
    };
    let pieces = shared_among(&work, workers, pass)?;
    in_order(alloc, pieces)
}

// The pieces that so many workers claim and compute, one half of them in a thread of its own at
// each step.
#[cycle(sharing)]
fn shared_among<R: Threads + Sync, T: Send + Drop, F: Fn(usize) -> T + Sync, G: Gate>(
    work: &Work<R, F, G>,
    workers: u32,
    pass: &mut Pass,
) -> Result<Vec<(usize, T)>, Memory>
    requires pass { IsNewFor work.now.claims.now workers pass.old }
    requires count { work.now.count < 2 ^ 32 }
    requires accepts { (k : ℕ) → k < work.now.count → F.pre work.now.f.now k }
    ensures pass { IsUsedBy workers work.now.count pass.old pass.new }
    ensures whole { KnowsWhole pass.new.parts pass.new.claimed }
    ensures pieces { IfOk result
        (λ v. AreDone F.Fn work.now.f.now work.now.count pass.new.claimed v.items) }
{
    if workers == 1 {
        return worked_alone(work, pass);
    }
    let theirs = workers / 2;
    let ours = workers - theirs;
    let mut other = work.claims.split(pass, theirs);
    let (first, second) = both_halves(work, ours, theirs, pass, &mut other);
    work.claims.join(pass, other);
    let mut pieces = first?;
    let mut rest = second?;
    pieces.append(&mut rest)?;
    Ok(pieces)
}

// The pieces of two groups of workers, each with a pass of its own. It is a function of its own so
// that what the closures require is what this function is given.
#[cycle(sharing)]
fn both_halves<R: Threads + Sync, T: Send + Drop, F: Fn(usize) -> T + Sync, G: Gate>(
    work: &Work<R, F, G>,
    ours: u32,
    theirs: u32,
    pass: &mut Pass,
    other: &mut Pass,
) -> (
    Result<Vec<(usize, T)>, Memory>,
    Result<Vec<(usize, T)>, Memory>,
)
    requires pass { IsNewFor work.now.claims.now ours pass.old }
    requires other { IsNewFor work.now.claims.now theirs other.old }
    requires count { work.now.count < 2 ^ 32 }
    requires accepts { (k : ℕ) → k < work.now.count → F.pre work.now.f.now k }
    ensures pass { IsUsedBy ours work.now.count pass.old pass.new }
    ensures other { IsUsedBy theirs work.now.count other.old other.new }
    ensures first { IfOk result.0
        (λ v. AreDone F.Fn work.now.f.now work.now.count pass.new.claimed v.items) }
    ensures second { IfOk result.1
        (λ v. AreDone F.Fn work.now.f.now work.now.count other.new.claimed v.items) }
{
    let mut front = || -> Result<Vec<(usize, T)>, Memory>
        requires shared { IsSync R.row × IsSync F.row × IsSync G.row × IsSend T.row }
        requires pass { IsNewFor work.now.claims.now ours pass.now }
        requires count { work.now.count < 2 ^ 32 }
        requires accepts { (k : ℕ) → k < work.now.count → F.pre work.now.f.now k }
        ensures pass { IsUsedBy ours work.entry.now.count pass.entry.now pass.exit.now }
        ensures pieces { IfOk result
            (λ v. AreDone F.Fn work.entry.now.f.now work.entry.now.count
            pass.exit.now.claimed v.items) }
    { shared_among(work, ours, pass) };
    let mut back = || -> Result<Vec<(usize, T)>, Memory>
        requires shared { IsSync R.row × IsSync F.row × IsSync G.row × IsSend T.row }
        requires pass { IsNewFor work.now.claims.now theirs other.now }
        requires count { work.now.count < 2 ^ 32 }
        requires accepts { (k : ℕ) → k < work.now.count → F.pre work.now.f.now k }
        ensures pass { IsUsedBy theirs work.entry.now.count other.entry.now other.exit.now }
        ensures pieces { IfOk result
            (λ v. AreDone F.Fn work.entry.now.f.now work.entry.now.count
            other.exit.now.claimed v.items) }
    { shared_among(work, theirs, other) };
    join_mut(work.rt, &mut front, &mut back)
}

// The pieces that one worker claims, in the order in which it claims them.
fn worked_alone<R, T: Drop, F: Fn(usize) -> T, G: Gate>(
    work: &Work<R, F, G>,
    pass: &mut Pass,
) -> Result<Vec<(usize, T)>, Memory>
    requires pass { IsNewFor work.now.claims.now 1 pass.old }
    requires count { work.now.count < 2 ^ 32 }
    requires accepts { (k : ℕ) → k < work.now.count → F.pre work.now.f.now k }
    ensures pass { IsUsedBy 1 work.now.count pass.old pass.new }
    ensures whole { KnowsWhole pass.new.parts pass.new.claimed }
    ensures pieces { IfOk result
        (λ v. AreDone F.Fn work.now.f.now work.now.count pass.new.claimed v.items) }
{
    let mut pieces = Vec::new(work.alloc);
    for _ in 0..work.count + 1 {
        pieces.reserve(1)?;
        let number = work.claims.claim(pass) as usize;
        if number >= work.count {
            return Ok(pieces);
        }
        work.gate.pass(number);
        pieces.push((number, (work.f)(number)))?;
    }
    Ok(pieces)
}

// The values in the order of their numbers. Each worker claimed its own in ascending order, so the
// stable sort merges few lists.
pub(crate) fn in_order<T: Drop>(
    alloc: Global,
    mut pieces: Vec<(usize, T)>,
) -> Result<Vec<T>, Memory>
    requires { HasEachBelow (length pieces.items) (numbers pieces.items) }
    ensures { IfOk result (λ v. IsPermutation pieces.items (enumerate_from 0 v.items)) }
{
    pieces.sort_by_key(|piece| piece.0)?;
    Ok(pieces.into_iter().map(|(_, value)| value).collect(alloc)?)
}
