// Bases as numbers of 128 binary digits: digit v is 1 where variable v is not basic, and variable 1
// has the highest.
ghost use Rattle.std.specs.Prelude.{◌≡◌, ◌+◌, ◌<◌, ◌≤◌, ◌^◌, ℕ, true, false, length, IfOk};
ghost use Rattle.std.specs.List.{Contains};
ghost use Rattle.std.specs.List.Sorted.{IsStrictlyIncreasing};
ghost use Rattle.basis_enum.specs.Bases.{AreVariables, basis_of, digit as digit_of};
ghost use Rattle.basis_enum.specs.Merged.{IsMerged, TakesFirst};
ghost use Rattle.basis_enum.specs.Systems.{most_variables};

use answers::Memory;
use std::alloc::Global;

/// How many variables a system has at most: so many digits a basis has.
pub(crate) const MOST_VARIABLES: usize = 128;

// What the digit of a variable counts.
pub(crate) fn digit(variable: u32) -> u128
    requires above { 0 < variable }
    requires most { variable ≤ most_variables }
    ensures { result ≡ digit_of variable }
{
    1 << (MOST_VARIABLES as u32 - variable)
}

// The basis that has these nonbasic variables.
pub(crate) fn basis(nonbasics: &[u32]) -> u128
    requires { AreVariables nonbasics.now }
    ensures { result ≡ basis_of nonbasics.now }
{
    let mut basis = 0;
    for variable in nonbasics {
        basis += digit(*variable);
    }
    basis
}

// The basis after one variable has left it and another has entered.
pub(crate) fn neighbour(basis: u128, leaving: u32, entering: u32) -> u128
    requires leaving_above { 0 < leaving }
    requires leaving_most { leaving ≤ most_variables }
    requires entering_above { 0 < entering }
    requires entering_most { entering ≤ most_variables }
    requires has { digit_of entering ≤ basis }
    requires fits { basis + digit_of leaving < 2 ^ 128 + digit_of entering }
    ensures { result + digit_of entering ≡ basis + digit_of leaving }
{
    basis - digit(entering) + digit(leaving)
}

// Whether a basis is among those of an ascending list.
pub(crate) fn is_known(known: &[u128], basis: u128) -> bool
    requires { IsStrictlyIncreasing known.now }
    ensures known { result ≡ true → Contains known.now basis }
    ensures new { result ≡ false → ¬ (Contains known.now basis) }
{
    known.binary_search(&basis).is_ok()
}

// Whether the next of the known bases comes before the next of the new ones.
fn takes_known(known: &[u128], new: &[u128], first: usize, second: usize) -> bool
    requires first_in { first ≤ length known.now }
    requires second_in { second ≤ length new.now }
    requires some { first + second < length known.now + length new.now }
    ensures known { result ≡ true → TakesFirst known.now new.now first second }
    ensures new { result ≡ false → TakesFirst new.now known.now second first }
{
    second == new.len() || (first < known.len() && known[first] < new[second])
}

// Two ascending lists with no basis in common as one.
#[tactic(auto, using(crate::proofs::MergedListLemmas::merged_start, crate::proofs::MergedListLemmas::merged_first, crate::proofs::MergedListLemmas::merged_second, crate::proofs::MergedListLemmas::merged_all))]
pub(crate) fn merged(alloc: Global, known: &[u128], new: &[u128]) -> Result<Vec<u128>, Memory>
    requires known { IsStrictlyIncreasing known.now }
    requires new { IsStrictlyIncreasing new.now }
    requires apart { (b : ℕ) → Contains known.now b → ¬ (Contains new.now b) }
    ensures { IfOk result (λ v. IsMerged known.now new.now v.items) }
{
    let mut all = Vec::with_capacity(alloc, known.len() + new.len())?;
    let mut first = 0;
    let mut second = 0;
    while first < known.len() || second < new.len() {
        if takes_known(known, new, first, second) {
            all.push(known[first])?;
            first += 1;
        } else {
            all.push(new[second])?;
            second += 1;
        }
    }
    Ok(all)
}
