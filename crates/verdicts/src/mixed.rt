// Mixed profiles of tables, by their entries.
ghost use Rattle.std.specs.Prelude.{◌≡◌, ◌<◌, ◌^◌, length, sum};
ghost use Rattle.answers.specs.Answers.{refused_by};
ghost use Rattle.game_core.specs.Table.{strategy_counts};
ghost use Rattle.behaviour_profile.specs.EntryTests.{all_pass, fault_of, profile_in, tests_from};

use behaviour_profile::{ProfileFault, test_group};
use frac128::Frac;
use game_core::Table;
use std::marker::Model;

/// A mixed profile of a table. Contracts see it as the list of its entries: player by player, the
/// probability of each strategy in order.
#[derive(Debug, Drop)]
pub struct Mixed {
    entries: Vec<Frac>,
}

impl Model for Mixed {
    ghost use Rattle.std.specs.Prelude.{List};
    ghost use Rattle.std.specs.Coded.{coded_list};
    ghost use Rattle.rational.specs.Rational.{ℚ};
    ghost use Rattle.rational.proofs.CodeLemmas.{code_ℚ};

    ghost Value = { List ℚ };

    ghost coded = { coded_list code_ℚ };

    ghost view = { λ m. m.entries.items };
}

// How many entries a mixed profile has.
fn entry_count(table: &Table) -> usize
    ensures value { result ≡ sum (strategy_counts table.now) }
    ensures few { result < 2 ^ 32 }
{
    let mut count = 0;
    for player in 0..table.players().len() {
        count += table.strategy_count(player);
    }
    count
}

// Tests the entries of all players.
fn test_players(table: &Table, entries: &[Frac]) -> Result<(), ProfileFault>
    requires entries { length entries.now ≡ sum (strategy_counts table.now) }
    requires few { length entries.now < 2 ^ 32 }
    ensures { let counts = strategy_counts table.now in
        refused_by fault_of (all_pass (tests_from entries.now 0 0 counts)) result }
{
    let mut place = 0;
    for player in 0..table.players().len() {
        let count = table.strategy_count(player) as u32;
        test_group(entries, place, player as u32, count)?;
        place += count;
    }
    Ok(())
}

impl Mixed {
    ghost use Rattle.std.specs.Prelude.{◌≡◌};
    ghost use Rattle.game_core.specs.Table.{strategy_counts};
    ghost use Rattle.behaviour_profile.specs.EntryTests.{profile_in};

    /// The mixed profile of a table with these entries: player by player, the probability of each
    /// strategy in order. Takes no memory.
    ///
    /// # Errors
    ///
    /// What is wrong first. `Count` where the entries are not as many as the players' strategies.
    /// Else player by player and entry by entry `Negative`, or `Unfit` where it cannot be added to
    /// the player's entries before it, and after each player's entries `Sum` where they do not sum
    /// to 1.
    pub fn try_new(table: &Table, entries: Vec<Frac>) -> Result<Mixed, ProfileFault>
        ensures { profile_in (strategy_counts table.now) entries.items result }
    {
        if entries.len() != entry_count(table) {
            return Err(ProfileFault::Count);
        }
        test_players(table, entries.as_slice())?;
        Ok(Mixed { entries })
    }

    /// All entries.
    pub fn entries(&self) -> &[Frac]
        ensures { result.now ≡ self.now }
    {
        self.entries.as_slice()
    }
}
