// The strategies of all players.
use std::marker::Model;

/// The strategies of all players in order, each as the list of its actions at the player's own sets
/// in order. Contracts see them as lists of lists. Players and strategies are numbered from 0, and
/// actions counted from 1, with 0 for none.
#[derive(Debug, Drop)]
pub struct Strategies {
    lists: Vec<Vec<Vec<u32>>>,
}

impl Model for Strategies {
    ghost use Rattle.std.specs.Prelude.{ℕ, List, map};
    ghost use Rattle.std.specs.Coded.{coded_ℕ, coded_list};

    ghost Value = { List (List (List ℕ)) };

    ghost coded = { coded_list (coded_list (coded_list coded_ℕ)) };

    ghost view = { λ s. map (λ v. map (λ w. w.items) v.items) s.lists.items };
}

impl Strategies {
    ghost use Rattle.std.specs.Prelude.{◌≡◌, map};

    /// The strategies in these lists, one for each player.
    pub fn new(lists: Vec<Vec<Vec<u32>>>) -> Strategies
        ensures { result ≡ map (λ v. map (λ w. w.items) v.items) lists.items }
    {
        Strategies { lists }
    }

    /// The list of each player's strategies.
    pub fn lists(&self) -> &[Vec<Vec<u32>>]
        ensures { map (λ v. map (λ w. w.items) v.items) result.now ≡ self.now }
    {
        self.lists.as_slice()
    }
}
