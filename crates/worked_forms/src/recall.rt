// Perfect recall of worked trees.
use crate::games::{ALONE, FORGET, POKER, tree_of};
use perfect_recall::{Forgets, RecallStop, find_recall};
use std::alloc::Global;

// The second player chooses twice and forgets the first choice.
const SECOND_FORGETS: &[u8] = br#"EFG 2 R "" { "A" "B" }
p "" 2 1 "" { "" "" } 0
p "" 2 7 "" { "" "" } 0 t "" 1 "" { 0, 0 } t "" 1
p "" 2 7 "" 0 t "" 1 t "" 1"#;

// Whether all players of a tree recall, with these own sets and actions last before its sets.
fn recalls(alloc: Global, text: &[u8], before: &[Option<(u32, u32)>]) -> bool {
    let Some(tree) = tree_of(alloc, text) else {
        return false;
    };
    match find_recall(alloc, &tree) {
        Ok(recall) => recall.before() == before,
        Err(_) => false,
    }
}

// Whether this is the first player who forgets, and where.
fn forgets(alloc: Global, text: &[u8], forgets: Forgets) -> bool {
    let Some(tree) = tree_of(alloc, text) else {
        return false;
    };
    match find_recall(alloc, &tree) {
        Ok(_) => false,
        Err(stop) => stop == RecallStop::Forgets(forgets),
    }
}

/// In one-card poker nobody chooses twice; the player who is alone chooses again after the second
/// action.
#[test]
fn players_recall(rt: HostRuntime) {
    assert!(rt; recalls(rt.alloc(), POKER, &[None, None, None, None]));
    assert!(rt; recalls(rt.alloc(), ALONE, &[None, Some((0, 1))]));
}

/// The set is named as the file numbers it, with its first node and its first node after another
/// choice.
#[test]
fn players_forget(rt: HostRuntime) {
    for (text, player, set) in [(FORGET, 0, 2), (SECOND_FORGETS, 1, 7)] {
        let wanted = Forgets {
            player,
            set,
            first_node: 1,
            second_node: 4,
        };
        assert!(rt; forgets(rt.alloc(), text, wanted));
    }
}
