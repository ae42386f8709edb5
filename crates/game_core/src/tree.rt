// Games as trees.
ghost use Rattle.std.specs.Prelude.{◌≡◌, ◌<◌, ◌^◌, [], All, length, map, slice_get, IfOk};
ghost use Rattle.game_theory.specs.FirstNodes.{AreNumberedByFirstNodes};
ghost use Rattle.game_theory.specs.OwnSets.{own_sets};
ghost use Rattle.game_theory.specs.Trees.{IsTree as is_game_tree};
ghost use Rattle.game_core.specs.OwnSets.{AreOwnLists};
ghost use Rattle.game_core.specs.Tree.{IsGameTree, IsBelow, GameTree};
ghost use Rattle.game_core.specs.TreeGame.{game_of_tree};

use crate::name::Name;
use answers::Memory;
use frac128::Frac;
use std::alloc::Global;
use std::marker::Model;

/// Who chooses at a node.
#[derive(Clone, Copy, Debug, PartialEq, Eq)]
pub enum Kind {
    /// Chance, by its probabilities.
    Chance,
    /// A player, who is numbered from 0.
    Move {
        /// The player.
        player: u32,
    },
    /// Nobody: the game ends here.
    End,
}

/// A node of a tree. Nodes, information sets, actions and outcomes are numbered from 0.
#[derive(Clone, Copy, Debug, PartialEq, Eq)]
pub struct Node {
    /// Who chooses here.
    pub kind: Kind,
    /// The node before it, and nothing at the root.
    pub parent: Option<u32>,
    /// The parent's action that leads here, and 0 at the root.
    pub branch: u32,
    /// The information set, and nothing at an end.
    pub set: Option<u32>,
    /// The outcome, where the node has one.
    pub outcome: Option<u32>,
}

/// An action of an information set.
#[derive(Debug, Drop)]
pub struct Action {
    /// Its name.
    pub name: Name,
    /// Its probability where chance chooses, and 0 where a player does.
    pub prob: Frac,
}

/// An information set: the nodes that its owner can't tell apart.
#[derive(Debug, Drop)]
pub struct InfoSet {
    owner: Option<u32>,
    label: u64,
    name: Name,
    actions: Vec<Action>,
    members: Vec<u32>,
}

impl Model for InfoSet {
    ghost use Rattle.game_core.specs.Tree.{InformationSet};
    ghost use Rattle.game_core.specs.TreeCodes.{code_of_set};

    ghost Value = { InformationSet };

    ghost coded = { code_of_set };

    ghost view = { λ s. record {
      owner = s.owner;
      label = s.label;
      name = s.name;
      actions = s.actions.items;
      members = s.members.items;
    } };
}

impl InfoSet {
    /// The set with this owner (nothing for chance), the number and the name that a file gives it,
    /// its actions in order, and the nodes that name it in order. Takes no memory.
    pub fn new(
        owner: Option<u32>,
        label: u64,
        name: Name,
        actions: Vec<Action>,
        members: Vec<u32>,
    ) -> InfoSet
        ensures { result ≡ record {
          owner = owner;
          label = label;
          name = name;
          actions = actions.items;
          members = members.items;
        } }
    {
        InfoSet {
            owner,
            label,
            name,
            actions,
            members,
        }
    }

    /// The player who chooses here, and nothing for chance.
    pub fn owner(&self) -> Option<u32>
        ensures { result ≡ self.now.owner }
    {
        self.owner
    }

    /// The number that a file gives it.
    pub fn label(&self) -> u64
        ensures { result ≡ self.now.label }
    {
        self.label
    }

    /// Its name.
    pub fn name(&self) -> &Name
        ensures { result.now ≡ self.now.name }
    {
        &self.name
    }

    /// Its actions in order.
    pub fn actions(&self) -> &[Action]
        ensures { result.now ≡ self.now.actions }
    {
        self.actions.as_slice()
    }

    /// Its nodes in order.
    pub fn members(&self) -> &[u32]
        ensures { result.now ≡ self.now.members }
    {
        self.members.as_slice()
    }
}

/// An outcome: what it pays each player.
#[derive(Debug, Drop)]
pub struct Outcome {
    label: u64,
    name: Name,
    payoffs: Vec<Frac>,
}

impl Model for Outcome {
    ghost use Rattle.game_core.specs.Tree.{TreeOutcome};
    ghost use Rattle.game_core.specs.TreeCodes.{code_of_outcome};

    ghost Value = { TreeOutcome };

    ghost coded = { code_of_outcome };

    ghost view = { λ o. record { label = o.label; name = o.name; payoffs = o.payoffs.items } };
}

impl Outcome {
    /// The outcome with the number and the name that a file gives it, and one payoff per player.
    /// Takes no memory.
    pub fn new(label: u64, name: Name, payoffs: Vec<Frac>) -> Outcome
        ensures { result ≡ record { label = label; name = name; payoffs = payoffs.items } }
    {
        Outcome {
            label,
            name,
            payoffs,
        }
    }

    /// The number that a file gives it.
    pub fn label(&self) -> u64
        ensures { result ≡ self.now.label }
    {
        self.label
    }

    /// Its name.
    pub fn name(&self) -> &Name
        ensures { result.now ≡ self.now.name }
    {
        &self.name
    }

    /// One payoff per player.
    pub fn payoffs(&self) -> &[Frac]
        ensures { result.now ≡ self.now.payoffs }
    {
        self.payoffs.as_slice()
    }
}

// No set for each player.
fn no_lists(alloc: Global, players: usize) -> Result<Vec<Vec<u32>>, Memory>
    ensures { IfOk result (λ lists. AreOwnLists [] players (map (λ v. v.items) lists.items)) }
{
    let mut lists = Vec::new(alloc);
    for _ in 0..players {
        lists.push(Vec::new(alloc))?;
    }
    Ok(lists)
}

// The numbers of each player's own sets in order.
fn own_lists(alloc: Global, players: usize, sets: &[InfoSet]) -> Result<Vec<Vec<u32>>, Memory>
    requires few { length sets.now < 2 ^ 32 }
    requires owners { All (λ set. IsBelow players set.owner) sets.now }
    ensures { IfOk result (λ lists. AreOwnLists sets.now players (map (λ v. v.items) lists.items)) }
{
    let mut lists = no_lists(alloc, players)?;
    for number in 0..sets.len() {
        if let Some(player) = sets[number].owner() {
            lists[player as usize].push(number as u32)?;
        }
    }
    Ok(lists)
}

/// A game as a tree. The nodes stand in prefix order, the sets and the outcomes in the order in
/// which the nodes first name them; outcomes that no node names come last. There are at most 65,536
/// nodes, none more than 1,024 edges from the root.
#[derive(Debug, Drop)]
pub struct Tree {
    title: Name,
    players: Vec<Name>,
    nodes: Vec<Node>,
    sets: Vec<InfoSet>,
    outcomes: Vec<Outcome>,
    own: Vec<Vec<u32>>,
}

impl Model for Tree {
    ghost use Rattle.std.specs.Prelude.{length, map};
    ghost use Rattle.game_core.specs.Tree.{GameTree, IsGameTree};
    ghost use Rattle.game_core.specs.TreeCodes.{code_of_tree};
    ghost use Rattle.game_core.specs.OwnSets.{AreOwnLists};

    ghost Value = { GameTree };

    ghost coded = { code_of_tree };

    ghost view = { λ t. record {
      title = t.title;
      players = t.players.items;
      nodes = t.nodes.items;
      sets = t.sets.items;
      outcomes = t.outcomes.items;
    } };

    ghost invariant = { λ t. IsGameTree
        (record {
          title = t.title;
          players = t.players.items;
          nodes = t.nodes.items;
          sets = t.sets.items;
          outcomes = t.outcomes.items;
        })
        × AreOwnLists t.sets.items (length t.players.items) (map (λ v. v.items) t.own.items) };
}

impl Tree {
    /// The tree with these parts.
    ///
    /// # Errors
    ///
    /// Memory ran out.
    pub fn new(
        alloc: Global,
        title: Name,
        players: Vec<Name>,
        nodes: Vec<Node>,
        sets: Vec<InfoSet>,
        outcomes: Vec<Outcome>,
    ) -> Result<Tree, Memory>
        requires { IsGameTree (record {
          title = title;
          players = players.items;
          nodes = nodes.items;
          sets = sets.items;
          outcomes = outcomes.items;
        }) }
        ensures { IfOk result
            (λ t. t ≡ record {
              title = title;
              players = players.items;
              nodes = nodes.items;
              sets = sets.items;
              outcomes = outcomes.items;
            }) }
    {
        let own = own_lists(alloc, players.len(), sets.as_slice())?;
        Ok(Tree {
            title,
            players,
            nodes,
            sets,
            outcomes,
            own,
        })
    }

    /// The game's title.
    pub fn title(&self) -> &Name
        ensures title { result.now ≡ self.now.title }
        ensures valid { IsGameTree self.now }
    {
        &self.title
    }

    /// The players' names.
    pub fn players(&self) -> &[Name]
        ensures players { result.now ≡ self.now.players }
        ensures valid { IsGameTree self.now }
    {
        self.players.as_slice()
    }

    /// The nodes in prefix order.
    pub fn nodes(&self) -> &[Node]
        ensures nodes { result.now ≡ self.now.nodes }
        ensures valid { IsGameTree self.now }
    {
        self.nodes.as_slice()
    }

    /// The information sets, in the order in which the nodes first name them.
    pub fn sets(&self) -> &[InfoSet]
        ensures sets { result.now ≡ self.now.sets }
        ensures valid { IsGameTree self.now }
    {
        self.sets.as_slice()
    }

    /// The outcomes, in the order in which the nodes first name them; those that no node names come
    /// last.
    pub fn outcomes(&self) -> &[Outcome]
        ensures outcomes { result.now ≡ self.now.outcomes }
        ensures valid { IsGameTree self.now }
    {
        self.outcomes.as_slice()
    }

    /// The numbers of a player's own sets in order; none where there is no such player. Takes no
    /// memory.
    pub fn sets_of(&self, player: u32) -> &[u32]
        ensures { result.now ≡ own_sets (game_of_tree self.now) player }
    {
        match self.own.get(player as usize) {
            Some(list) => list.as_slice(),
            None => &[],
        }
    }

    /// The number of the set at this place, from 0, among a player's own sets in order; nothing
    /// exactly where the player has no more sets. Takes no memory.
    pub fn own_sets(&self, player: u32, place: u32) -> Option<u32>
        ensures { result ≡ slice_get (own_sets (game_of_tree self.now) player) place }
    {
        let set = self.sets_of(player).get(place as usize)?;
        Some(*set)
    }
}

/// What a tree stands for is a game tree.
pub fn trees_are_game_trees()
    ensures { (t : GameTree) → IsGameTree t → is_game_tree (game_of_tree t) }
{}

/// The sets of the game tree that a tree stands for are numbered by their first nodes.
pub fn sets_are_numbered_by_first_nodes()
    ensures { (t : GameTree) → IsGameTree t → AreNumberedByFirstNodes (game_of_tree t) }
{}
