// The part of a file up to the nodes.
ghost use Rattle.game_core.specs.TokenList.{bare};
ghost use Rattle.file_parts.specs.Parsing.{Parses};
ghost use Rattle.tree_grammar.specs.TreeParsing.{parse_front};

use crate::kinds::EfgKind;
use file_parts::{PartStop, after_text, names, title};
use game_core::{Name, Spanned, copied};
use std::alloc::Global;

/// What a file says before its nodes: the title and the players.
#[derive(Drop)]
pub struct Front {
    /// The title.
    pub title: Name,
    /// The players' names, player 0's first.
    pub players: Vec<Name>,
}

/// The title and the players at the front of a file, and the tokens after them and the comment that
/// may come.
///
/// # Errors
///
/// The fault's kind and how many tokens are left there; or memory ran out.
#[tactic(auto, using(file_parts::proofs::ParseLemmas::stops), unfolding(crate::specs::TreeParsing::parse_front))]
pub fn read_front(
    alloc: Global,
    tokens: &[Spanned],
) -> Result<(Front, &[Spanned]), PartStop<EfgKind>>
    ensures { Parses (λ x. ((x.0.title, x.0.players.items), bare x.1.now)) result
        (parse_front (bare tokens.now)) }
{
    let (title, following) = title(tokens, b"EFG", 2, EfgKind::Header)?;
    let title = copied(alloc, title)?;
    let (players, following) = names(alloc, following, EfgKind::Players)?;
    Ok((Front { title, players }, after_text(following)))
}
