// Shortcuts past nodes at which the choices only lead on.
ghost use Rattle.std.specs.Prelude.{◌≡◌, ◌<◌, ℕ, length, MatchOption, ⊤, IfOk, IfSome, Ok};
ghost use Rattle.game_theory.specs.Trees.{Tree as game_tree};
ghost use Rattle.game_core.specs.TreeGame.{game_of_tree};
ghost use Rattle.pure_payoffs.specs.Plays.{IsPlayed, GiveAt, game_of, choice_of};
ghost use Rattle.pure_payoffs.specs.Shortcuts.{HasRoom, KeepShortcuts, OnlyLeadsTo, StandsFor};

use crate::payoff::Play;
use crate::settled::Settled;
use answers::Memory;
use frac128::Frac;
use game_core::{Kind, Tree};
use std::alloc::Global;
use std::marker::Model;

// For nodes of a tree the first node from there on, along the choices, at which something is paid
// or no player chooses: as far as such nodes were asked for since the last `forget`.
#[derive(Drop)]
pub(crate) struct Entries {
    // The present round, from 1.
    round: u32,
    // For each node the round of its entry, and 0 where it has none.
    rounds: Vec<u32>,
    // For each node its entry.
    targets: Vec<u32>,
    // What no choice changes.
    settled: Settled,
}

// The node to which the choices lead from a node at which a player chooses and nothing is paid.
fn next(play: &Play, node: u32) -> Option<u32>
    requires play { IsPlayed play.now }
    requires node { node < length play.now.tree.now.nodes }
    ensures { MatchOption result ⊤
        (λ next. OnlyLeadsTo (game_of play.now) (choice_of play.now) node next) }
{
    let here = play.tree.nodes()[node as usize];
    if here.outcome.is_some() {
        return None;
    }
    match (here.kind, here.set) {
        (Kind::Move { player }, Some(set)) => {
            let action = play.action_at(player, set);
            Some(play.children[node as usize][action])
        }
        _ => None,
    }
}

// The first node from this one on at which something is paid or no player chooses.
fn target(play: &Play, node: u32) -> u32
    requires play { IsPlayed play.now }
    requires node { node < length play.now.tree.now.nodes }
    ensures { StandsFor (game_of play.now) (choice_of play.now) node result }
{
    let mut here = node;
    while let Some(next) = next(play, here) {
        here = next;
    }
    here
}

impl Entries {
    // Room for the nodes of a tree, without an entry.
    fn new(alloc: Global, tree: &Tree) -> Result<Entries, Memory>
        ensures { IfOk result (HasRoom (game_of_tree tree.now)) }
    {
        let nodes = tree.nodes().len();
        Ok(Entries {
            round: 1,
            rounds: vec![in alloc; 0; nodes]?,
            targets: vec![in alloc; 0; nodes]?,
            settled: Settled::new(alloc, tree)?,
        })
    }

    // Forgets all entries, and keeps what no choice changes.
    pub(crate) fn forget(&mut self)
        ensures { (t : game_tree) (choice : ℕ → ℕ) → HasRoom t self.old
            → KeepShortcuts t choice self.new }
    {
        if self.round == u32::MAX {
            self.rounds.fill(0);
            self.round = 0;
        }
        self.round += 1;
    }

    // The node that stands for this one.
    pub(crate) fn take(&mut self, play: &Play, node: u32) -> u32
        requires play { IsPlayed play.now }
        requires node { node < length play.now.tree.now.nodes }
        requires keep { KeepShortcuts (game_of play.now) (choice_of play.now) self.old }
        ensures stands { StandsFor (game_of play.now) (choice_of play.now) node result }
        ensures keep { KeepShortcuts (game_of play.now) (choice_of play.now) self.new }
    {
        let number = node as usize;
        if self.rounds[number] == self.round {
            return self.targets[number];
        }
        let target = target(play, node);
        self.rounds[number] = self.round;
        self.targets[number] = target;
        target
    }

    // What a node is worth to a player whatever the choices, where that is kept.
    pub(crate) fn settled_value(&self, play: &Play, node: u32, player: u32) -> Option<Frac>
        requires play { IsPlayed play.now }
        requires node { node < length play.now.tree.now.nodes }
        requires keep { KeepShortcuts (game_of play.now) (choice_of play.now) self.now }
        ensures { IfSome result
            (λ v. GiveAt (game_of play.now) (choice_of play.now) player node (Ok v)) }
    {
        self.settled.value(node, player)
    }

    // Keeps what a node is worth to a player, where no choice changes that.
    pub(crate) fn settle(&mut self, play: &Play, node: u32, player: u32, worth: Frac)
        requires play { IsPlayed play.now }
        requires node { node < length play.now.tree.now.nodes }
        requires keep { KeepShortcuts (game_of play.now) (choice_of play.now) self.old }
        requires gives { GiveAt (game_of play.now) (choice_of play.now) player node (Ok worth) }
        ensures keep { KeepShortcuts (game_of play.now) (choice_of play.now) self.new }
    {
        self.settled.keep(node, player, worth);
    }
}

/// What is kept of a tree from choices to choices, so that not every node is visited for each.
#[derive(Drop)]
pub struct Shortcuts<'a> {
    tree: &'a Tree,
    pub(crate) entries: Entries,
}

impl<'a> Model for Shortcuts<'a> {
    ghost use Rattle.game_core.specs.Tree.{GameTree};
    ghost use Rattle.game_core.specs.TreeGame.{game_of_tree};
    ghost use Rattle.pure_payoffs.specs.Shortcuts.{HasRoom};

    ghost Value = { GameTree };

    ghost view = { λ s. s.tree.now };

    ghost invariant = { λ s. HasRoom (game_of_tree s.tree.now) s.entries };
}

impl<'a> Shortcuts<'a> {
    /// Those of a tree, before its first choices.
    ///
    /// # Errors
    ///
    /// Memory ran out.
    pub fn new(alloc: Global, tree: &'a Tree) -> Result<Shortcuts<'a>, Memory>
        ensures { IfOk result (λ shortcuts. shortcuts ≡ tree.now) }
    {
        let entries = Entries::new(alloc, tree)?;
        Ok(Shortcuts { tree, entries })
    }
}
