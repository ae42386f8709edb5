// Reads a tree from the tokens of a file.
ghost use Rattle.std.specs.Prelude.{◌≡◌, ◌<◌, ◌^◌, length, IfOk, IfErr};
ghost use Rattle.answers.specs.Answers.{Gives, IsSingle};
ghost use Rattle.answers.specs.Answered.{IsAnswered};
ghost use Rattle.game_core.specs.Tree.{IsGameTree};
ghost use Rattle.written_trees.specs.Building.{tree_so_far};
ghost use Rattle.efg_reader.specs.Stops.{IsEfgStop, IsNodesStop, tree_in};
ghost use Rattle.efg_reader.specs.declared.fault.EfgStop.TheVariants.{Memory};
ghost use Rattle.game_core.specs.TokenList.{TokenList};

use crate::builder::{Builder, MOST_DEPTH, MOST_NODES};
use crate::fault::{EfgFault, EfgStop};
use crate::nodes::{NodesStop, read_nodes};
use file_parts::{PartStop, Unexpected, offset};
use game_core::{Tokens, TooLarge, Tree, What};
use std::alloc::Global;
use tree_grammar::{EfgKind, Front, read_front};

// The stop that a part's becomes.
fn stop(stopped: PartStop<EfgKind>, tokens: &Tokens) -> EfgStop
    ensures { IsEfgStop stopped tokens.now result }
{
    match stopped {
        PartStop::Unexpected(fault) => EfgStop::Fault(EfgFault {
            at: offset(tokens, fault.left),
            kind: fault.kind,
        }),
        PartStop::Memory => EfgStop::Memory,
    }
}

// The stop for nodes that are not read: where the tokens end inside the nodes, that is the fault.
fn nodes_stop(stopped: NodesStop, tokens: &Tokens) -> EfgStop
    ensures { IsNodesStop stopped tokens.now result }
{
    match stopped {
        NodesStop::Refused(PartStop::Unexpected(Unexpected { left: 0, .. })) => {
            EfgStop::Fault(EfgFault {
                at: offset(tokens, 0),
                kind: EfgKind::Unfinished,
            })
        }
        NodesStop::Refused(stopped) => stop(stopped, tokens),
        NodesStop::Passed(What::Nodes) => {
            EfgStop::TooLarge(TooLarge::first_above(What::Nodes, MOST_NODES as u64))
        }
        NodesStop::Passed(_) => {
            EfgStop::TooLarge(TooLarge::first_above(What::Depth, MOST_DEPTH as u64))
        }
    }
}

// The tree with these parts.
fn tree(alloc: Global, front: Front, builder: Builder) -> Result<Tree, EfgStop>
    requires { IsGameTree (tree_so_far front.title front.players.items builder) }
    ensures tree { IfOk result
        (λ t. t ≡ tree_so_far front.title front.players.items builder) }
    ensures memory { IfErr result (λ stop. stop ≡ Memory) }
{
    let Front { title, players } = front;
    let Builder {
        nodes,
        sets,
        outcomes,
    } = builder;
    let sets = sets.finish(alloc)?;
    let outcomes = outcomes.finish(alloc)?;
    Ok(Tree::new(alloc, title, players, nodes.list, sets, outcomes)?)
}

/// Reads the tree that the tokens stand for, of which there are fewer than 2^32.
///
/// # Errors
///
/// `Fault` exactly where the tokens are no file of a tree and pass no limit: its kind, and the
/// offset of the first token with which no file can begin any more, or the source's length where
/// the tokens end too early. `TooLarge` exactly where a node begins that is the 65,537th, or else
/// lies 1,025 edges below the root. `Memory` where memory ran out.
pub fn read(alloc: Global, tokens: &Tokens) -> Result<Tree, EfgStop>
    requires few { length tokens.now.list < 2 ^ 32 }
    ensures { Gives Memory (tree_in tokens.now) result }
{
    let (front, rest) = match read_front(alloc, tokens.list()) {
        Ok(read) => read,
        Err(stopped) => return Err(stop(stopped, tokens)),
    };
    match read_nodes(alloc, front.players.len() as u32, rest) {
        Ok(builder) => tree(alloc, front, builder),
        Err(stopped) => Err(nodes_stop(stopped, tokens)),
    }
}

/// The tokens of a source have one answer at most.
pub fn trees_are_single()
    ensures { (tokens : TokenList) → IsSingle (tree_in tokens) }
{}

/// The tokens of a source, of which there are fewer than 2^32, have an answer.
pub fn trees_are_answered()
    ensures { (tokens : TokenList) → length tokens.list < 2 ^ 32 → IsAnswered (tree_in tokens) }
{}
