// Games as text that several tests read.
use efg_reader::read;
use game_core::Tree;
use game_text::read_tokens;
use std::alloc::Global;

// The tree that a text stands for; nothing where it is none.
pub(crate) fn tree_of(alloc: Global, text: &[u8]) -> Option<Tree> {
    let Ok(tokens) = read_tokens(alloc, text) else {
        return None;
    };
    if tokens.list().len() >= u32::MAX as usize {
        return None;
    }
    read(alloc, &tokens).ok()
}

pub(crate) const POKER: &[u8] = br#"EFG 2 R "A simple Poker game" { "Fred" "Alice" } ""
c "" 1 "" { "Red" 1/2 "Black" 1/2 } 0
p "" 1 1 "" { "Raise" "Fold" } 0
p "" 2 1 "" { "Meet" "Pass" } 0
t "" 1 "Win Big" { 2, -2 }
t "" 2 "Win" { 1, -1 }
t "" 2 "Win" { 1, -1 }
p "" 1 2 "" { "Raise" "Fold" } 0
p "" 2 1 "" { "Meet" "Pass" } 0
t "" 3 "Lose Big" { -2, 2 }
t "" 2 "Win" { 1, -1 }
t "" 4 "Lose" { -1, 1 }"#;

pub(crate) const ALONE: &[u8] = br#"EFG 2 R "Alone" { "A" }
p "" 1 1 "" { "L" "R" } 0
t "" 1 "" { 3 }
p "" 1 2 "" { "U" "D" } 0
t "" 2 "" { 1 }
t "" 3 "" { 2 }"#;

pub(crate) const FORGET: &[u8] = br#"EFG 2 R "Forget" { "One" "Two" }
p "" 1 1 "" { "A" "B" } 0
p "" 1 2 "" { "C" "D" } 0
t "" 1 "" { 1, 0 }
t "" 2 "" { 0, 0 }
p "" 1 2 "" { "C" "D" } 0
t "" 2 ""
t "" 3 "" { 2, 0 }"#;

// A firm stays out or enters, and the other fights or shares.
pub(crate) const ENTRY: &[u8] = br#"EFG 2 R "Entry" { "E" "I" }
p "" 1 1 "" { "Out" "In" } 0
t "" 1 "Out" { 0, 2 }
p "" 2 1 "" { "Fight" "Accommodate" } 0
t "" 2 "Fight" { -1, -1 }
t "" 3 "Share" { 1, 1 }"#;
