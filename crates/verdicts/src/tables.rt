// Whether a mixed profile of a table is an equilibrium.
ghost use Rattle.std.specs.Prelude.{◌≡◌, ◌++◌, List, length, sum};
ghost use Rattle.rational.specs.Rational.{ℚ, ◌+ℚ◌, ◌*ℚ◌};
ghost use Rattle.game_core.specs.Table.{strategy_counts};
ghost use Rattle.frac128.specs.Steps.{Step, StepsGive};
ghost use Rattle.verdicts.specs.AnsweredLaws.{TableVerdictsExist};
ghost use Rattle.verdicts.specs.TableLaws.{TableVerdictsAreSingle, TableVerdictsFindEquilibria};
ghost use Rattle.verdicts.specs.TableChecks.{table_verdict, weighed_steps};

use crate::mixed::Mixed;
use frac128::{Frac, Unfit};
use game_core::Table;

// The most deciders that are listed: more than can have two strategies each.
const MOST_LISTED: usize = 20;

/// What a mixed profile of a table is. Players and strategies count from 0.
#[derive(Clone, Copy, Debug, PartialEq, Eq)]
pub enum TableVerdict {
    /// No player has a strategy that pays more.
    Equilibrium,
    /// The first player who has one.
    Better {
        /// The player.
        player: u32,
        /// What the profile pays the player.
        payoff: Frac,
        /// What the player's best strategy pays against the others.
        best: Frac,
        /// That strategy, the first of the best.
        reply: u32,
    },
    /// The first step that does not fit.
    Range {
        /// The step.
        unfit: Unfit,
    },
}

// A strategy, and what it is worth.
#[derive(Clone, Copy)]
struct Worth {
    strategy: u32,
    value: Frac,
}

// What a player's strategies come to.
#[derive(Clone, Copy)]
struct Tally {
    // The first of the best.
    best: Worth,
    // What the profile pays the player, or its first step that does not fit.
    payoff: Result<Frac, Unfit>,
}

// A strategy that is worth more than the payoff.
#[derive(Clone, Copy)]
struct BetterReply {
    payoff: Frac,
    best: Frac,
    reply: u32,
}

// A player of a table, and the place of the player's first entry.
#[derive(Clone, Copy)]
struct Decider {
    player: usize,
    first: usize,
}

// The players by whom the weights of profiles differ or are not 1, in order. Each other player
// has one strategy, and its entry is 1.
#[derive(Clone, Copy)]
struct Deciders {
    // These, and then what is not read.
    listed: [Decider; MOST_LISTED],
    // How many are listed.
    count: usize,
    // The first player who is not told of here, one past the last where there is none.
    end: Decider,
}

// A player of a table, to whom the mixed strategies of the others leave a reply. Players,
// strategies and profiles are numbered from 0.
#[derive(Drop)]
struct TableReplies<'a> {
    // The table.
    table: &'a Table,
    // The mixed profile.
    mixed: &'a Mixed,
    // The player.
    player: usize,
    // The place of the player's first entry.
    first: usize,
    // By how much a profile's number grows with the player's strategy.
    stride: usize,
    // The players by whom the weights of profiles differ or are not 1.
    deciders: &'a Deciders,
}

// Adds the product of a weight and a number to a sum; a weight of 0 adds nothing.
fn add_weighed(sum: Frac, weight: Frac, number: Frac) -> Result<Frac, Unfit>
    ensures { StepsGive (weighed_steps weight number sum) (sum +ℚ (weight *ℚ number)) result }
{
    if weight.is_zero() {
        return Ok(sum);
    }
    let product = weight.mul(number)?;
    sum.add(product)
}

// Adds the product of a weight and a number to a sum. A sum that is an error stays that error.
fn with_weighed(sum: Result<Frac, Unfit>, weight: Frac, number: Frac) -> Result<Frac, Unfit>
    ensures { (steps : List Step) (so_far : ℚ) → StepsGive steps so_far sum
        → StepsGive (steps ++ weighed_steps weight number so_far)
        (so_far +ℚ (weight *ℚ number)) result }
{
    add_weighed(sum?, weight, number)
}

impl Deciders {
    ghost use Rattle.std.specs.Prelude.{◌≡◌, length, sum};
    ghost use Rattle.game_core.specs.Table.{strategy_counts};
    ghost use Rattle.verdicts.specs.TableReplies.{AreDeciders};

    // The players by whom the weights of profiles differ or are not 1.
    fn new(table: &Table, mixed: &Mixed) -> Deciders
        requires { length mixed.now ≡ sum (strategy_counts table.now) }
        ensures { AreDeciders table.now mixed.now result }
    {
        let entries = mixed.entries();
        let one = Frac::one();
        let mut listed = [Decider {
            player: 0,
            first: 0,
        }; MOST_LISTED];
        let mut count = 0;
        let mut first = 0;
        for player in 0..table.players().len() {
            let strategies = table.strategy_count(player);
            if strategies > 1 || entries[first] != one {
                if count == MOST_LISTED {
                    let end = Decider { player, first };
                    return Deciders { listed, count, end };
                }
                listed[count] = Decider { player, first };
                count += 1;
            }
            first += strategies;
        }
        let end = Decider {
            player: table.players().len(),
            first,
        };
        Deciders { listed, count, end }
    }
}

impl<'a> TableReplies<'a> {
    ghost use Rattle.std.specs.Prelude.{
      ◌≡◌,
      ◌+◌,
      ◌<◌,
      ◌≤◌,
      ℕ,
      All,
      drop,
      slice_index,
      IfOk,
      IfErr,
      OnOk,
    };
    ghost use Rattle.std.specs.List.{flat_map, range_with_len};
    ghost use Rattle.game_theory.specs.Mixed.{payoff as payoff_of};
    ghost use Rattle.game_theory.specs.Profiles.{profile_at, profile_count};
    ghost use Rattle.game_core.specs.Table.{IsTable, strategy_counts};
    ghost use Rattle.frac128.specs.Steps.{IsFirstUnfit, StepFits, StepsGive};
    ghost use Rattle.best_replies.specs.Strategies.{
      IsBestStrategy,
      strategy_value as value_of,
      value_below,
      weight,
    };
    ghost use Rattle.verdicts.specs.TableChecks.{
      IsFound,
      payoff_steps,
      table_player_steps,
      steps_at,
      strategy_steps,
      value_steps,
      table_weight_steps,
    };
    ghost use Rattle.verdicts.specs.TableReplies.{AreTableReplies, GiveFrom, table_game_at, mixed_at};

    // A product, times the probabilities with which the others who are not told of in `deciders`
    // play what is left of a profile's number.
    fn later_weight(&self, so_far: Frac, left: usize) -> Result<Frac, Unfit>
        requires replies { AreTableReplies self.now }
        ensures { let counts = strategy_counts self.now.table.now in
            let j = self.now.deciders.now.end.player in
            let strategies = profile_at (drop j counts) left in
            GiveFrom (mixed_at self.now) self.now.player j strategies so_far result }
    {
        let entries = self.mixed.entries();
        let mut product = so_far;
        let mut first = self.deciders.end.first;
        let mut rest = left;
        for other in self.deciders.end.player..self.table.players().len() {
            let count = self.table.strategy_count(other);
            if other != self.player {
                product = product.mul(entries[first + rest % count])?;
                if product.is_zero() {
                    return Ok(product);
                }
            }
            first += count;
            rest /= count;
        }
        Ok(product)
    }

    // The product of the probabilities with which the others play a profile.
    fn others_weight(&self, profile: usize) -> Result<Frac, Unfit>
        requires replies { AreTableReplies self.now }
        ensures { let m = mixed_at self.now in
            let i = self.now.player in
            let strategies = profile_at (strategy_counts self.now.table.now) profile in
            StepsGive (table_weight_steps m i strategies) (weight m i strategies) result }
    {
        let entries = self.mixed.entries();
        let mut product = Frac::one();
        let mut rest = profile;
        for place in 0..self.deciders.count {
            let decider = self.deciders.listed[place];
            let count = self.table.strategy_count(decider.player);
            if decider.player != self.player {
                product = product.mul(entries[decider.first + rest % count])?;
                if product.is_zero() {
                    return Ok(product);
                }
            }
            rest /= count;
        }
        self.later_weight(product, rest)
    }

    // Adds what a strategy is worth at the profiles from one on to a sum, where it is played in
    // each.
    fn add_profiles(
        &self,
        strategy: usize,
        so_far: Frac,
        first: usize,
        count: usize,
    ) -> Result<Frac, Unfit>
        requires replies { AreTableReplies self.now }
        requires valid { IsTable self.now.table.now }
        requires profiles { first + count ≤ profile_count (strategy_counts self.now.table.now) }
        requires played { (k : ℕ) → first ≤ k → k < first + count
            → slice_index (profile_at (strategy_counts self.now.table.now) k) self.now.player
            ≡ strategy }
        requires so_far { let m = mixed_at self.now in
            so_far ≡ value_below (table_game_at self.now) m self.now.player strategy first }
        ensures { let m = mixed_at self.now in
            let g = table_game_at self.now in
            let i = self.now.player in
            let value = value_below g m i strategy (first + count) in
            let steps = flat_map (steps_at g m i strategy) (range_with_len first count) in
            StepsGive steps value result }
    {
        let mut value = so_far;
        for profile in first..first + count {
            let weight = self.others_weight(profile)?;
            value = add_weighed(value, weight, self.table.payoff_at(profile, self.player))?;
        }
        Ok(value)
    }

    // What a strategy is worth, by the blocks of profiles in which it is played, in table order.
    fn strategy_value(&self, strategy: usize) -> Result<Frac, Unfit>
        requires replies { AreTableReplies self.now }
        requires strategy { strategy
            < slice_index (strategy_counts self.now.table.now) self.now.player }
        ensures { let m = mixed_at self.now in
            let g = table_game_at self.now in
            let i = self.now.player in
            StepsGive (strategy_steps g m i strategy) (value_of g m i strategy) result }
    {
        let profiles = self.table.payoffs().len() / self.table.players().len();
        let mut value = Frac::zero();
        let mut first = strategy * self.stride;
        while first < profiles {
            value = self.add_profiles(strategy, value, first, self.stride)?;
            first += self.stride * self.table.strategy_count(self.player);
        }
        Ok(value)
    }

    // The first of the player's best strategies, and what the profile pays the player.
    fn tally(&self) -> Result<Tally, Unfit>
        requires replies { AreTableReplies self.now }
        ensures best { IfOk result (λ tally.
            IsBestStrategy (table_game_at self.now) (mixed_at self.now) self.now.player
            tally.best.strategy) }
        ensures value { IfOk result (λ tally. tally.best.value
            ≡ value_of (table_game_at self.now) (mixed_at self.now) self.now.player
            tally.best.strategy) }
        ensures payoff { let m = mixed_at self.now in
            let g = table_game_at self.now in
            let i = self.now.player in
            IfOk result (λ tally. StepsGive (payoff_steps g m i) (payoff_of g m i) tally.payoff) }
        ensures fits { OnOk result
            (All StepFits
            (value_steps (table_game_at self.now) (mixed_at self.now) self.now.player)) }
        ensures unfit { IfErr result
            (IsFirstUnfit
            (value_steps (table_game_at self.now) (mixed_at self.now) self.now.player)) }
    {
        let count = self.table.strategy_count(self.player);
        let value = self.strategy_value(0)?;
        let mut best = Worth { strategy: 0, value };
        let mut payoff = with_weighed(Ok(Frac::zero()), self.mixed.entries()[self.first], value);
        for strategy in 1..count {
            let value = self.strategy_value(strategy)?;
            payoff = with_weighed(payoff, self.mixed.entries()[self.first + strategy], value);
            if best.value.is_less(value) {
                best = Worth {
                    strategy: strategy as u32,
                    value,
                };
            }
        }
        Ok(Tally { best, payoff })
    }

    // The player's best strategy, if it is worth more than the payoff.
    fn better_reply(&self) -> Result<Option<BetterReply>, Unfit>
        requires replies { AreTableReplies self.now }
        ensures found { IfOk result
            (IsFound (table_game_at self.now) (mixed_at self.now) self.now.player) }
        ensures unfit { IfErr result
            (IsFirstUnfit
            (table_player_steps (table_game_at self.now) (mixed_at self.now) self.now.player)) }
    {
        let Tally { best, payoff } = self.tally()?;
        let payoff = payoff?;
        if payoff.is_less(best.value) {
            Ok(Some(BetterReply {
                payoff,
                best: best.value,
                reply: best.strategy,
            }))
        } else {
            Ok(None)
        }
    }
}

/// Whether a mixed profile of a table is an equilibrium: player by player, what each strategy is
/// worth against the others is compared with what the profile pays. Takes no memory.
pub fn check_table(table: &Table, mixed: &Mixed) -> TableVerdict
    requires { length mixed.now ≡ sum (strategy_counts table.now) }
    ensures { table_verdict table.now mixed.now result }
{
    let deciders = Deciders::new(table, mixed);
    let mut first = 0;
    let mut stride = 1;
    for player in 0..table.players().len() {
        let replies = TableReplies {
            table,
            mixed,
            player,
            first,
            stride,
            deciders: &deciders,
        };
        match replies.better_reply() {
            Ok(None) => {}
            Ok(Some(better)) => {
                return TableVerdict::Better {
                    player: player as u32,
                    payoff: better.payoff,
                    best: better.best,
                    reply: better.reply,
                };
            }
            Err(unfit) => return TableVerdict::Range { unfit },
        }
        let count = table.strategy_count(player);
        first += count;
        stride *= count;
    }
    TableVerdict::Equilibrium
}

/// A table and the entries of a profile have at most one verdict.
pub fn table_verdicts_are_single()
    ensures { TableVerdictsAreSingle }
{}

/// A mixed profile of a table has a verdict.
pub fn table_verdicts_exist()
    ensures { TableVerdictsExist }
{}

/// Verdicts of tables tell equilibria. A better strategy is the first player's that has one, and
/// the first of the best.
pub fn table_verdicts_find_equilibria()
    ensures { TableVerdictsFindEquilibria }
{}
