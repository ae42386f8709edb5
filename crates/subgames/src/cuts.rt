// The subgames of a tree, and the cut at each as a tree of its own.
ghost use Rattle.std.specs.Prelude.{◌≡◌, ◌*◌, ◌<◌, IfOk, length};

use crate::cut_nodes::cut_lists;
use crate::cut_parts::{empty_names, made_nodes, made_outcomes, made_sets};
use crate::cut_sets::cut_sets;
use crate::roots::root_marks;
use answers::Memory;
use frac128::Frac;
use game_core::{Name, Tree};
use std::alloc::Global;
use std::marker::Model;

/// A tree that is the cut at a node of another tree, with the numbers in the whole tree of its
/// nodes and of its sets.
#[derive(Debug, Drop)]
pub struct Cut {
    tree: Tree,
    nodes: Vec<u32>,
    sets: Vec<u32>,
}

impl Model for Cut {
    ghost use Rattle.subgames.specs.MadeCuts.{MadeCut, code_of_cut};

    ghost Value = { MadeCut };

    ghost coded = { code_of_cut };

    ghost view = { λ c. record { tree = c.tree; nodes = c.nodes.items; sets = c.sets.items } };
}

impl Cut {
    /// The cut as a tree. Its names are empty, and its outcomes are numbered as its nodes.
    pub fn tree(&self) -> &Tree
        ensures { result.now ≡ self.now.tree }
    {
        &self.tree
    }

    /// For each node of the cut its number in the whole tree, in ascending order.
    pub fn nodes(&self) -> &[u32]
        ensures { result.now ≡ self.now.nodes }
    {
        self.nodes.as_slice()
    }

    /// For each set of the cut its number in the whole tree.
    pub fn sets(&self) -> &[u32]
        ensures { result.now ≡ self.now.sets }
    {
        self.sets.as_slice()
    }
}

/// Where the subgames of a tree begin, and which nodes the cut at each has.
#[derive(Debug, Drop)]
pub struct Subgames {
    // For each node whether a subgame begins there.
    begins: Vec<bool>,
    // For each node the nodes of the cut there, where a subgame begins, and none elsewhere.
    cuts: Vec<Vec<u32>>,
}

impl Model for Subgames {
    ghost use Rattle.std.specs.Prelude.{map};
    ghost use Rattle.subgames.specs.FoundSubgames.{FoundSubgames, code_of_found};

    ghost Value = { FoundSubgames };

    ghost coded = { code_of_found };

    ghost view = { λ s. record {
      begins = s.begins.items;
      cuts = map (λ v. v.items) s.cuts.items;
    } };
}

impl Subgames {
    ghost use Rattle.std.specs.Prelude.{◌≡◌, ◌*◌, ◌<◌, ◌↔◌, IfOk, IsTrue, false, length, slice_index_or};
    ghost use Rattle.game_core.specs.Tree.{GameTree};
    ghost use Rattle.game_core.specs.TreeGame.{game_of_tree};
    ghost use Rattle.subgames.specs.CutTrees.{IsCutAt};
    ghost use Rattle.subgames.specs.FoundSubgames.{AreSubgamesOf};
    ghost use Rattle.subgames.specs.MadeCuts.{worth_at};
    ghost use Rattle.subgames.specs.Roots.{IsSubgameRoot};

    /// Finds the subgames of a tree.
    ///
    /// # Errors
    ///
    /// Memory ran out.
    pub fn find(alloc: Global, tree: &Tree) -> Result<Subgames, Memory>
        ensures { IfOk result (AreSubgamesOf tree.now) }
    {
        let begins = root_marks(alloc, tree)?;
        let cuts = cut_lists(alloc, tree, &begins)?;
        Ok(Subgames { begins, cuts })
    }

    /// Whether a subgame begins at a node, from 0; not past the last node. Takes no memory.
    pub fn begins_at(&self, node: u32) -> bool
        ensures root { (tree : GameTree) → AreSubgamesOf tree self.now → node < length tree.nodes
            → IsTrue result ↔ IsSubgameRoot (game_of_tree tree) node }
        ensures marked { result ≡ slice_index_or self.now.begins node false }
    {
        self.begins.get(node as usize).copied().unwrap_or(false)
    }

    /// The cut at a node where a subgame begins: the nodes of the subgame down to the next such
    /// nodes, which are ends. `worth` has what these ends pay: for each node of the whole tree, and
    /// in it for each player, a number. Nodes, sets and players count from 0.
    ///
    /// # Errors
    ///
    /// Memory ran out.
    pub fn cut_at(
        &self,
        alloc: Global,
        tree: &Tree,
        root: u32,
        worth: &[Frac],
    ) -> Result<Cut, Memory>
        requires subgames { AreSubgamesOf tree.now self.now }
        requires within { root < length tree.now.nodes }
        requires root { IsSubgameRoot (game_of_tree tree.now) root }
        requires worth { length worth.now ≡ length tree.now.nodes * length tree.now.players }
        ensures { IfOk result (λ cut. IsCutAt tree.now root
            (worth_at (length tree.now.players) worth.now) cut.nodes cut.sets cut.tree) }
    {
        tree.stands_for_game_tree();
        let begins = self.begins.as_slice();
        let nodes = self.cuts[root as usize].as_slice().to_vec(alloc)?;
        let cut = nodes.as_slice();
        let (sets, names) = cut_sets(alloc, tree, begins, root, cut)?;
        let whole = sets.as_slice();
        let named = names.as_slice();
        let new_nodes = made_nodes(alloc, tree, cut, whole, named)?;
        let new_sets = made_sets(alloc, tree, whole, named)?;
        let outcomes = made_outcomes(alloc, tree, begins, root, worth, cut)?;
        let title = Name::new(Vec::new(alloc));
        let players = empty_names(alloc, tree.players().len())?;
        let tree = Tree::new(alloc, title, players, new_nodes, new_sets, outcomes)?;
        Ok(Cut { tree, nodes, sets })
    }
}
