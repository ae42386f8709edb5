// Files of trees as they are read, their parts written out as text.
use crate::games::{POKER, tree_of};
use answers::Memory;
use game_core::{InfoSet, Kind, Name, Node, Outcome, Tree};
use ne_printer::push_fraction;
use std::alloc::Global;

// Adds a name after a space.
fn push_name(text: &mut Vec<u8>, name: &Name) -> Result<(), Memory> {
    text.push(b' ')?;
    text.extend_from_slice(name.bytes())?;
    Ok(())
}

// Adds a number after a space, or a stroke where there is none.
fn push_number(alloc: Global, text: &mut Vec<u8>, number: Option<u32>) -> Result<(), Memory> {
    match number {
        Some(number) => text.extend_from_slice(format!(in alloc; " {number}")?.as_bytes())?,
        None => text.extend_from_slice(b" -")?,
    }
    Ok(())
}

// Adds a node: its kind, parent, branch, set and outcome.
fn push_node(alloc: Global, text: &mut Vec<u8>, node: Node) -> Result<(), Memory> {
    match node.kind {
        Kind::Chance => text.extend_from_slice(b"c")?,
        Kind::Move { player } => text.extend_from_slice(format!(in alloc;
            "p{player}"
        )?.as_bytes())?,
        Kind::End => text.extend_from_slice(b"t")?,
    }
    push_number(alloc, text, node.parent)?;
    push_number(alloc, text, Some(node.branch))?;
    push_number(alloc, text, node.set)?;
    push_number(alloc, text, node.outcome)?;
    text.extend_from_slice(b";")?;
    Ok(())
}

// Adds the name and the probability of each action of a set.
fn push_actions(alloc: Global, text: &mut Vec<u8>, set: &InfoSet) -> Result<(), Memory> {
    for action in set.actions() {
        push_name(text, &action.name)?;
        text.push(b' ')?;
        push_fraction(alloc, text, action.prob)?;
    }
    Ok(())
}

// Adds a set: its owner, number and name, its members, and its actions.
fn push_set(alloc: Global, text: &mut Vec<u8>, set: &InfoSet) -> Result<(), Memory> {
    let label = set.label();
    push_number(alloc, text, set.owner())?;
    text.extend_from_slice(format!(in alloc; " {label}")?.as_bytes())?;
    push_name(text, set.name())?;
    text.push(b':')?;
    for member in set.members() {
        push_number(alloc, text, Some(*member))?;
    }
    text.push(b':')?;
    push_actions(alloc, text, set)?;
    text.push(b';')?;
    Ok(())
}

// Adds an outcome: its number, name and payoffs.
fn push_outcome(alloc: Global, text: &mut Vec<u8>, outcome: &Outcome) -> Result<(), Memory> {
    let label = outcome.label();
    text.extend_from_slice(format!(in alloc; " {label}")?.as_bytes())?;
    push_name(text, outcome.name())?;
    for payoff in outcome.payoffs() {
        text.push(b' ')?;
        push_fraction(alloc, text, *payoff)?;
    }
    text.push(b';')?;
    Ok(())
}

// The nodes, sets and outcomes of a tree.
fn parts_text(alloc: Global, tree: &Tree) -> Result<Vec<u8>, Memory> {
    let mut text = Vec::new(alloc);
    for node in tree.nodes() {
        push_node(alloc, &mut text, *node)?;
    }
    for set in tree.sets() {
        push_set(alloc, &mut text, set)?;
    }
    for outcome in tree.outcomes() {
        push_outcome(alloc, &mut text, outcome)?;
    }
    Ok(text)
}

// Whether a text is that of a tree with these parts.
fn has_parts(alloc: Global, text: &[u8], parts: &str) -> Result<bool, Memory> {
    match tree_of(alloc, text) {
        Some(tree) => Ok(parts_text(alloc, &tree)?.as_slice() == parts.as_bytes()),
        None => Ok(false),
    }
}

// The first names of a set and of an outcome hold, also where they come later than the first use.
const LATE_NAMES: &[u8] = br#"EFG 2 R "" { "A" } p "" 1 3 { "l" "r" } 0 p "" 1 3 "late" 0
t "" 1 { 5 } t "" 1 "end" t "" 1 "other" { 5 }"#;

// Names of a set that differ, and a comment.
const TWO_NAMES: &[u8] = br#"EFG 2.0 D "One" { "A" "B" } "a comment"
p "" 2 1 "first" { "x" } 0 p "" 2 1 "second" { "y" } 0 t "end" 0"#;

const ONE_END: &[u8] = br#"EFG 2 R "" { "A" } t "" 7 "" { 1/2 }"#;

/// Nodes, sets and outcomes are numbered from 0 in the order of first use, and first names hold.
#[test]
fn parts_of_trees_are_read(rt: HostRuntime) -> Result<(), Memory> {
    let poker =
        "c - 0 0 -;p0 0 0 1 -;p1 1 0 2 -;t 2 0 - 0;t 2 1 - 1;t 1 1 - 1;p0 0 1 3 -;p1 6 0 2 -;t 7 0 - 2;t 7 1 - 1;t 6 1 - 3; - 1 : 0: Red 1/2 Black 1/2; 0 1 : 1: Raise 0 Fold 0; 1 1 : 2 7: Meet 0 Pass 0; 0 2 : 6: Raise 0 Fold 0; 1 Win Big 2 -2; 2 Win 1 -1; 3 Lose Big -2 2; 4 Lose -1 1;";
    let late =
        "p0 - 0 0 -;p0 0 0 0 -;t 1 0 - 0;t 1 1 - 0;t 0 1 - 0; 0 3 late: 0 1: l 0 r 0; 1 end 5;";
    let two = "p1 - 0 0 -;p1 0 0 0 -;t 1 0 - -; 1 1 first: 0 1: x 0;";
    let rows = [
        (POKER, poker),
        (LATE_NAMES, late),
        (TWO_NAMES, two),
        (ONE_END, "t - 0 - 0; 7  1/2;"),
    ];
    for (text, parts) in rows {
        assert!(rt; has_parts(rt.alloc(), text, parts)?);
    }
    Ok(())
}
