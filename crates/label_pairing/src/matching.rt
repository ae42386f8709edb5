// Which masks complete a mask.
ghost use Rattle.std.specs.Prelude.{◌≡◌, ◌<◌, ◌≤◌, ◌^◌, ℕ, Bool, length, get_or, cond, nat_eq, bit_or};
ghost use Rattle.std.specs.Int.{bit_at};
ghost use Rattle.label_pairing.specs.Matches.{completes, partner_count, AreMatches};

use std::simd::prelude::*;

/// The places of a block, which are compared at once.
pub(crate) const BLOCK: usize = 8;

/// Whether the bits of a mask and of two further words together are all.
pub(crate) fn completes(mask: [u64; 2], all: [u64; 2], low: u64, high: u64) -> bool
    ensures { result ≡ completes mask all low high }
{
    mask[0] | low == all[0] && mask[1] | high == all[1]
}

// `matches`, place by place.
fn match_places(mask: [u64; 2], all: [u64; 2], low: &[u64], high: &[u64], found: &mut [bool])
    requires high { length high.now ≡ length low.now }
    requires found { length found.old ≡ length low.now }
    ensures { AreMatches mask all low.now high.now found.new }
{
    for i in 0..found.len() {
        found[i] = completes(mask, all, low[i], high[i]);
    }
}

// Which of a block's words together with a word are all: a bit for each.
fn word_bits(word: u64, all: u64, others: &[u64]) -> u64
    requires { length others.now ≡ 8 }
    ensures bits { (i : ℕ) → i < 8
        → bit_at result i ≡ cond (nat_eq (bit_or word (get_or others.now i 0)) all) 1 0 }
    ensures no_more { result < 2 ^ 8 }
{
    let together = u64x8::splat(word) | u64x8::from_slice(others);
    together.simd_eq(u64x8::splat(all)).to_bitmask()
}

// Writes a bit to each place, from the lowest on.
fn write_bits(bits: u64, found: &mut [bool])
    requires { length found.old ≤ 64 }
    ensures so_many { length found.new ≡ length found.old }
    ensures bits { (i : ℕ) (d : Bool) → i < length found.old
        → get_or found.new i d ≡ nat_eq (bit_at bits i) 1 }
{
    for i in 0..found.len() {
        found[i] = (bits >> i) % 2 == 1;
    }
}

// Which places of a block complete a mask: a bit for each. The high words are mostly not looked at.
fn block_bits(mask: [u64; 2], all: [u64; 2], low: &[u64], high: &[u64]) -> u64
    requires low { length low.now ≡ 8 }
    requires high { length high.now ≡ 8 }
    ensures bits { (i : ℕ) → i < 8 → nat_eq (bit_at result i) 1
        ≡ completes mask all (get_or low.now i 0) (get_or high.now i 0) }
    ensures no_more { result < 2 ^ 8 }
{
    let lows = word_bits(mask[0], all[0], low);
    if lows == 0 {
        return 0;
    }
    lows & word_bits(mask[1], all[1], high)
}

// `matches` of a block.
fn match_block(mask: [u64; 2], all: [u64; 2], low: &[u64], high: &[u64], found: &mut [bool])
    requires low { length low.now ≡ 8 }
    requires high { length high.now ≡ 8 }
    requires found { length found.old ≡ 8 }
    ensures { AreMatches mask all low.now high.now found.new }
{
    write_bits(block_bits(mask, all, low, high), found);
}

/// How many places of a block complete a mask.
pub(crate) fn block_count(mask: [u64; 2], all: [u64; 2], low: &[u64], high: &[u64]) -> usize
    requires low { length low.now ≡ 8 }
    requires high { length high.now ≡ 8 }
    ensures count { result ≡ partner_count mask all low.now high.now }
    ensures few { result ≤ 8 }
{
    block_bits(mask, all, low, high).count_ones() as usize
}

/// For each place of a list of masks, whose low and high words are given apart: whether the bits of
/// the mask there and of `mask` together are `all`. Writes over `found`.
pub fn matches(mask: [u64; 2], all: [u64; 2], low: &[u64], high: &[u64], found: &mut [bool])
    requires high { length high.now ≡ length low.now }
    requires found { length found.old ≡ length low.now }
    ensures { AreMatches mask all low.now high.now found.new }
{
    let blocks = found.len() / BLOCK;
    for block in 0..blocks {
        let at = BLOCK * block;
        let end = at + BLOCK;
        match_block(
            mask,
            all,
            &low[at..end],
            &high[at..end],
            &mut found[at..end],
        );
    }
    let rest = BLOCK * blocks;
    match_places(mask, all, &low[rest..], &high[rest..], &mut found[rest..]);
}
