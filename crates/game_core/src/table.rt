// Games as tables.
ghost use Rattle.std.specs.Prelude.{◌≡◌, ◌<◌, ◌≤◌, IfOk, OnOk, Some, length, map, slice_get, slice_index};
ghost use Rattle.game_theory.specs.Profiles.{IsProfile, number_of, profile_count, stride};
ghost use Rattle.game_core.specs.Table.{IsTable, GameTable, game_of, strategy_counts, most_payoffs};

use crate::name::Name;
use answers::Memory;
use frac128::Frac;
use std::alloc::Global;
use std::marker::Model;

/// The most payoffs that a table may have.
pub const MOST_PAYOFFS: usize = 1_048_576;

/// A game as a table. Each player has at least one strategy, and each pure profile has one payoff
/// per player. Profiles run in file order, in which the first player's strategy changes fastest;
/// there are at most 1,048,576 payoffs. Players, strategies and profiles count from 0.
#[derive(Debug, Drop)]
pub struct Table {
    title: Name,
    players: Vec<Name>,
    strategies: Vec<Vec<Name>>,
    payoffs: Vec<Frac>,
}

impl Model for Table {
    ghost use Rattle.std.specs.Prelude.{map};
    ghost use Rattle.game_core.specs.Table.{GameTable, code_of_table, IsTable};

    ghost Value = { GameTable };

    ghost coded = { code_of_table };

    ghost view = { λ t. record {
      title = t.title;
      players = t.players.items;
      strategies = map (λ v. v.items) t.strategies.items;
      payoffs = t.payoffs.items;
    } };

    ghost invariant = { λ t. IsTable
        (record {
          title = t.title;
          players = t.players.items;
          strategies = map (λ v. v.items) t.strategies.items;
          payoffs = t.payoffs.items;
        }) };
}

impl Table {
    /// The table with these parts: for each player the names of the strategies, and for each
    /// profile in file order one payoff per player. Takes no memory.
    pub fn new(
        title: Name,
        players: Vec<Name>,
        strategies: Vec<Vec<Name>>,
        payoffs: Vec<Frac>,
    ) -> Table
        requires { IsTable (record {
          title = title;
          players = players.items;
          strategies = map (λ v. v.items) strategies.items;
          payoffs = payoffs.items;
        }) }
        ensures { result ≡ record {
          title = title;
          players = players.items;
          strategies = map (λ v. v.items) strategies.items;
          payoffs = payoffs.items;
        } }
    {
        Table {
            title,
            players,
            strategies,
            payoffs,
        }
    }

    /// The game's title.
    pub fn title(&self) -> &Name
        ensures title { result.now ≡ self.now.title }
        ensures valid { IsTable self.now }
    {
        &self.title
    }

    /// The players' names.
    pub fn players(&self) -> &[Name]
        ensures players { result.now ≡ self.now.players }
        ensures valid { IsTable self.now }
    {
        self.players.as_slice()
    }

    /// The names of a player's strategies.
    pub fn strategies(&self, player: usize) -> &[Name]
        requires { player < length self.now.players }
        ensures strategies { slice_get self.now.strategies player ≡ Some result.now }
        ensures valid { IsTable self.now }
    {
        self.strategies[player].as_slice()
    }

    /// How many strategies a player has.
    pub fn strategy_count(&self, player: usize) -> usize
        requires { player < length self.now.players }
        ensures count { result ≡ slice_index (strategy_counts self.now) player }
        ensures valid { IsTable self.now }
    {
        self.strategies(player).len()
    }

    /// How many strategies each player has.
    ///
    /// # Errors
    ///
    /// Memory ran out.
    pub fn strategy_counts(&self, alloc: Global) -> Result<Vec<usize>, Memory>
        ensures counts { IfOk result (λ counts. counts.items ≡ strategy_counts self.now) }
        ensures valid { OnOk result (IsTable self.now) }
    {
        let mut counts = Vec::new(alloc);
        for player in 0..self.players().len() {
            counts.push(self.strategy_count(player))?;
        }
        Ok(counts)
    }

    /// By how much a profile's number grows with a player's strategy: the product of the earlier
    /// players' numbers of strategies.
    pub fn stride(&self, player: usize) -> usize
        requires { player < length self.now.players }
        ensures { result ≡ stride (strategy_counts self.now) player }
    {
        let mut stride = 1;
        for earlier in 0..player {
            stride *= self.strategy_count(earlier);
        }
        stride
    }

    /// The payoffs, profile by profile in file order, one per player in each.
    pub fn payoffs(&self) -> &[Frac]
        ensures payoffs { result.now ≡ self.now.payoffs }
        ensures valid { IsTable self.now }
    {
        self.payoffs.as_slice()
    }

    /// The number of a pure profile, which has one strategy for each player, in file order.
    pub fn profile_number(&self, profile: &[u32]) -> usize
        requires { IsProfile (strategy_counts self.now) profile.now }
        ensures number { result ≡ number_of (strategy_counts self.now) profile.now }
        ensures valid { IsTable self.now }
    {
        profile_number(self.strategies.as_slice(), profile)
    }

    /// A player's payoff at the pure profile with a number, in file order.
    pub fn payoff_at(&self, profile: usize, player: usize) -> Frac
        requires profile { profile < profile_count (strategy_counts self.now) }
        requires player { player < length self.now.players }
        ensures { result ≡ (game_of self.now).pays player profile }
    {
        self.payoffs()[profile * self.players().len() + player]
    }

    /// A player's payoff at a pure profile, which has one strategy for each player.
    pub fn payoff(&self, profile: &[u32], player: u32) -> Frac
        requires profile { IsProfile (strategy_counts self.now) profile.now }
        requires player { player < length self.now.players }
        ensures { result
            ≡ (game_of self.now).pays player (number_of (strategy_counts self.now) profile.now) }
    {
        self.payoff_at(self.profile_number(profile), player as usize)
    }
}

// The number of a profile in file order, where the players have these strategies.
fn profile_number(strategies: &[Vec<Name>], profile: &[u32]) -> usize
    requires profile { IsProfile (map length (map (λ v. v.items) strategies.now)) profile.now }
    requires few { profile_count (map length (map (λ v. v.items) strategies.now)) ≤ most_payoffs }
    ensures { result ≡ number_of (map length (map (λ v. v.items) strategies.now)) profile.now }
{
    let mut number = 0;
    for place in (0..profile.len()).rev() {
        number = profile[place] as usize + strategies[place].len() * number;
    }
    number
}
