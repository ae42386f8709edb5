// The sequence form of worked trees and of a table.
use crate::games::{ALONE, ENTRY, POKER, tree_of};
use answers::Memory;
use frac128::Frac;
use game_core::{Table, Tree};
use ne_printer::push_fraction;
use perfect_recall::find_recall;
use reduced_form::reduce;
use sequence_form::{
    Counts, SeqForm, SeqStop, SetRow, build, build_table, counts_table, counts_tree, program_size,
    rows,
};
use std::alloc::Global;

// Outcomes stand at the root and at an inner node, nodes of one set lie at different depths, and
// chance takes its last action never.
const MIXED: &[u8] = br#"EFG 2 R "" { "A" "B" }
c "" 1 "" { "" 1/2 "" 1/2 "" 0 } 1 "" { 1, 2 }
p "" 1 1 "" { "x" "y" } 2 "" { 10, 0 }
p "" 2 1 "" { "u" "v" } 0
t "" 3 "" { 1, 1 }
t "" 4 "" { 0, 3 }
t "" 0
p "" 2 1 "" 0
t "" 0
t "" 3
t "" 5 "" { 100, -100 }"#;

// Adds payoffs, each after a space.
fn push_payoffs(alloc: Global, text: &mut Vec<u8>, payoffs: &[Frac]) -> Result<(), Memory> {
    for payoff in payoffs {
        text.push(b' ')?;
        push_fraction(alloc, text, *payoff)?;
    }
    Ok(())
}

// Each cell with its weight and payoffs, and then the greatest payoffs of both players and the
// least of the first.
fn form_text(alloc: Global, form: &SeqForm) -> Result<Vec<u8>, Memory> {
    let mut text = Vec::new(alloc);
    for cell in form.cells() {
        let row = cell.row;
        let column = cell.column;
        let place = format!(in alloc; "({row},{column})")?;
        text.extend_from_slice(place.as_bytes())?;
        push_payoffs(alloc, &mut text, &[cell.weight, cell.one, cell.two])?;
        text.push(b';')?;
    }
    let extremes = [form.greatest_one(), form.greatest_two(), form.least_one()];
    push_payoffs(alloc, &mut text, &extremes)?;
    Ok(text)
}

// The sequence form of a tree; nothing where it has none, or where a player forgets.
pub(crate) fn form_of(alloc: Global, tree: &Tree) -> Option<SeqForm> {
    let recall = find_recall(alloc, tree).ok()?;
    build(alloc, tree, &recall).ok()
}

// Whether a sequence form has this text.
fn has_text(alloc: Global, form: &SeqForm, text: &str) -> Result<bool, Memory> {
    let made = form_text(alloc, form)?;
    Ok(made.as_slice() == text.as_bytes())
}

// Whether the sequence form of a tree has this text.
fn has_form(alloc: Global, text: &[u8], form: &str) -> Result<bool, Memory> {
    let Some(tree) = tree_of(alloc, text) else {
        return Ok(false);
    };
    match form_of(alloc, &tree) {
        Some(made) => has_text(alloc, &made, form),
        None => Ok(false),
    }
}

// Whether the sequence form of a table has this text, and as many sequences as are counted.
fn is_form_of(alloc: Global, table: &Table, form: &str) -> Result<bool, Memory> {
    if table.players().len() != 2 {
        return Ok(false);
    }
    let Ok(made) = build_table(alloc, table) else {
        return Ok(false);
    };
    if made.first().sequences() as u64 != counts_table(table).sequences_one {
        return Ok(false);
    }
    has_text(alloc, &made, form)
}

// The same of a tree's reduced form.
fn has_table_form(alloc: Global, text: &[u8], form: &str) -> Result<bool, Memory> {
    let Some(tree) = tree_of(alloc, text) else {
        return Ok(false);
    };
    match reduce(alloc, &tree) {
        Ok(reduced) => is_form_of(alloc, reduced.table(), form),
        Err(_) => Ok(false),
    }
}

// Whether a tree's form has these sizes, so many rows, and a program of this size.
fn has_sizes(alloc: Global, text: &[u8], sizes: Counts, row_count: u64, program: u64) -> bool {
    let Some(tree) = tree_of(alloc, text) else {
        return false;
    };
    if tree.players().len() != 2 {
        return false;
    }
    let counts = counts_tree(&tree);
    counts == sizes && rows(&counts) == row_count && program_size(&counts) == program
}

// Whether a tree has another number of players than two.
fn has_players(alloc: Global, text: &[u8], count: u32) -> bool {
    let Some(tree) = tree_of(alloc, text) else {
        return false;
    };
    let Ok(recall) = find_recall(alloc, &tree) else {
        return false;
    };
    match build(alloc, &tree, &recall) {
        Ok(_) => false,
        Err(stop) => stop == SeqStop::NotTwoPlayers { count },
    }
}

// Whether these are the sets of the first player.
fn has_sets(alloc: Global, text: &[u8], sets: &[SetRow]) -> bool {
    let Some(tree) = tree_of(alloc, text) else {
        return false;
    };
    match form_of(alloc, &tree) {
        Some(made) => made.first().sets() == sets,
        None => false,
    }
}

#[test]
fn trees_have_forms(rt: HostRuntime) -> Result<(), Memory> {
    let alloc = rt.alloc();
    let poker =
        "(1,1) 1/2 1 -1;(1,2) 1/2 1/2 -1/2;(2,0) 1/2 1/2 -1/2;(3,1) 1/2 -1 1;(3,2) 1/2 1/2 -1/2;(4,0) 1/2 -1/2 1/2; 2 2 -2";
    assert!(rt; has_form(alloc, POKER, poker)?);
    let mixed =
        "(0,0) 0 0 0;(0,1) 1/2 1/2 1;(0,2) 1/2 1 3/2;(1,1) 1/2 6 3/2;(1,2) 1/2 11/2 5/2;(2,0) 1/2 11/2 1; 101 5 1";
    assert!(rt; has_form(alloc, MIXED, mixed)?);
    let entry = "(1,1) 1 0 2;(1,2) 1 0 2;(2,1) 1 -1 -1;(2,2) 1 1 1; 1 2 -1";
    assert!(rt; has_table_form(alloc, ENTRY, entry)?);
    assert!(rt; has_players(alloc, ALONE, 1));
    Ok(())
}

#[test]
fn forms_have_sizes(rt: HostRuntime) {
    let poker = Counts {
        sequences_one: 5,
        sequences_two: 3,
        sets_one: 2,
        sets_two: 1,
    };
    assert!(rt; has_sizes(rt.alloc(), POKER, poker, 18, 13));
    let red = SetRow {
        before: 0,
        first: 1,
        count: 2,
    };
    let black = SetRow {
        before: 0,
        first: 3,
        count: 2,
    };
    assert!(rt; has_sets(rt.alloc(), POKER, &[red, black]));
}
