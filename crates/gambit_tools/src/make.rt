// The tool `make`.
ghost use Rattle.std.specs.Prelude.{◌≡◌, string_bytes, IfOk};
ghost use Rattle.answers.specs.Answers.{Gives, map_ok};
ghost use Rattle.words.specs.Words.{IsFrom};
ghost use Rattle.enummixed.specs.Pairs.{pairs_of};
ghost use Rattle.gambit_tools.specs.Make.{count_lines, counts_text, make};

use crate::crew::Crew;
use answers::Memory;
use enummixed::{ExtremePairs, extreme_pairs};
use game_core::make_table;
use outside::Gate;
use refusals::Refusal;
use std::alloc::Global;
use std::marker::Sync;
use std::thread::Threads;

// Three lines: bases, vertices and pairs.
fn count_lines(
    alloc: Global,
    first_bases: u64,
    second_bases: u64,
    first: usize,
    second: usize,
    pairs: usize,
) -> Result<String, Memory>
    ensures { IfOk result (λ text. string_bytes text
        ≡ count_lines first_bases second_bases first second pairs) }
{
    Ok(format!(in alloc;
        "bases {first_bases} {second_bases}\nvertices {first} {second}\nequilibria {pairs}\n"
    )?)
}

// The counts of bases, vertices and pairs.
fn counts_text(alloc: Global, found: &ExtremePairs) -> Result<String, Memory>
    ensures { IfOk result (λ text. string_bytes text ≡ counts_text (pairs_of found.now)) }
{
    count_lines(
        alloc,
        found.first.bases,
        found.second.bases,
        found.first.list.len(),
        found.second.list.len(),
        found.pairs.len(),
    )
}

/// Makes the table with a number, and counts the bases and the vertices of its polytopes and its
/// extreme equilibria. The crew shares the enumeration, and the answer is the same for any number
/// of workers.
pub(crate) fn make<R: Threads + Sync, G: Gate>(
    crew: &Crew<R, G>,
    alloc: Global,
    number: u32,
    rows: u32,
    columns: u32,
) -> Result<Vec<u8>, Refusal>
    requires rows { IsFrom 1 32 rows }
    requires columns { IsFrom 1 32 columns }
    ensures { Gives Refusal.Memory (make number rows columns) (map_ok result (λ text. text.items)) }
{
    let table = make_table(alloc, number, rows, columns)?;
    let found = extreme_pairs(crew.rt, alloc, &table, crew.workers, crew.gate)?;
    Ok(counts_text(alloc, &found)?.into_bytes())
}
