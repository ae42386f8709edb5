// The nodes at which subgames begin.
ghost use Rattle.std.specs.Prelude.{◌≡◌, ◌<◌, ◌↔◌, IfOk, IsTrue, length, max, min};
ghost use Rattle.game_core.specs.TreeGame.{game_of_tree};
ghost use Rattle.subgames.specs.Spans.{AreOwnSpans, AreSpans, IsOwnSpan};
ghost use Rattle.subgames.specs.FoundSubgames.{AreRootMarks};
ghost use Rattle.subgames.specs.Roots.{AreSubgameRoots, BeginsAlone, HasWholeSets, IsSubgameRoot};

use answers::Memory;
use game_core::Tree;
use std::alloc::Global;

// How far a node's subtree reaches, and the players' sets of the nodes in it. A node without a
// player's set counts as a set of its own.
#[derive(Clone, Copy, Debug)]
struct Span {
    // The least first member of those sets.
    least: u32,
    // The greatest last member of those sets.
    greatest: u32,
    // The last node of the subtree.
    last: u32,
}

// The span of two subtrees together.
fn joined(one: Span, other: Span) -> Span
    ensures least { result.least ≡ min one.least other.least }
    ensures greatest { result.greatest ≡ max one.greatest other.greatest }
    ensures last { result.last ≡ max one.last other.last }
{
    Span {
        least: one.least.min(other.least),
        greatest: one.greatest.max(other.greatest),
        last: one.last.max(other.last),
    }
}

// The span of a node alone.
fn own_span(tree: &Tree, node: usize) -> Span
    requires { node < length tree.now.nodes }
    ensures { IsOwnSpan (game_of_tree tree.now) node result }
{
    tree.stands_for_game_tree();
    let last = node as u32;
    match tree.choice_at(node) {
        Some((_, set)) => {
            let members = tree.sets()[set as usize].members();
            Span {
                least: members[0],
                greatest: members[members.len() - 1],
                last,
            }
        }
        None => Span {
            least: last,
            greatest: last,
            last,
        },
    }
}

// For each node its span alone.
fn own_spans(alloc: Global, tree: &Tree) -> Result<Vec<Span>, Memory>
    ensures { let t = game_of_tree tree.now in
        IfOk result (λ spans. AreOwnSpans t t.size spans.items) }
{
    let mut spans = Vec::with_capacity(alloc, tree.nodes().len())?;
    for node in 0..tree.nodes().len() {
        spans.push(own_span(tree, node))?;
    }
    Ok(spans)
}

// For each node the span of its subtree. From the last node to the first each span is joined to
// its parent's.
fn subtree_spans(alloc: Global, tree: &Tree) -> Result<Vec<Span>, Memory>
    ensures { IfOk result (λ spans. AreSpans (game_of_tree tree.now) spans.items) }
{
    tree.stands_for_game_tree();
    let mut spans = own_spans(alloc, tree)?;
    for node in (1..tree.nodes().len()).rev() {
        let above = tree.parent(node);
        spans[above] = joined(spans[above], spans[node]);
    }
    Ok(spans)
}

// Whether the subtree of a node splits no player's set.
fn has_whole_sets(tree: &Tree, spans: &[Span], node: usize) -> bool
    requires node { node < length tree.now.nodes }
    requires spans { AreSpans (game_of_tree tree.now) spans.now }
    ensures { IsTrue result ↔ HasWholeSets (game_of_tree tree.now) node }
{
    tree.stands_for_game_tree();
    let span = spans[node];
    span.least as usize >= node && span.greatest <= span.last
}

// Whether a node is one of chance, or alone in its set.
fn begins_alone(tree: &Tree, node: usize) -> bool
    requires { node < length tree.now.nodes }
    ensures { IsTrue result ↔ BeginsAlone (game_of_tree tree.now) node }
{
    tree.stands_for_game_tree();
    match tree.set_at(node) {
        Some(set) => {
            let set = set as usize;
            tree.owner(set).is_none() || tree.sets()[set].members().len() == 1
        }
        None => false,
    }
}

// Whether a subgame begins at a node.
fn is_subgame_root(tree: &Tree, spans: &[Span], node: usize) -> bool
    requires node { node < length tree.now.nodes }
    requires spans { AreSpans (game_of_tree tree.now) spans.now }
    ensures { IsTrue result ↔ IsSubgameRoot (game_of_tree tree.now) node }
{
    node == 0 || (begins_alone(tree, node) && has_whole_sets(tree, spans, node))
}

/// For each node whether a subgame begins there.
pub(crate) fn root_marks(alloc: Global, tree: &Tree) -> Result<Vec<bool>, Memory>
    ensures { IfOk result (λ begins. AreRootMarks (game_of_tree tree.now) begins.items) }
{
    tree.stands_for_game_tree();
    let spans = subtree_spans(alloc, tree)?;
    let mut begins = Vec::with_capacity(alloc, tree.nodes().len())?;
    for node in 0..tree.nodes().len() {
        begins.push(is_subgame_root(tree, &spans, node))?;
    }
    Ok(begins)
}

/// The nodes at which the subgames of a tree begin, from 0 and in ascending order; the root is the
/// first.
///
/// # Errors
///
/// Memory ran out.
pub fn subgame_roots(alloc: Global, tree: &Tree) -> Result<Vec<u32>, Memory>
    ensures { IfOk result (λ roots. AreSubgameRoots (game_of_tree tree.now) roots.items) }
{
    tree.stands_for_game_tree();
    let begins = root_marks(alloc, tree)?;
    let mut roots = Vec::new(alloc);
    for node in 0..tree.nodes().len() {
        if begins[node] {
            roots.push(node as u32)?;
        }
    }
    Ok(roots)
}
