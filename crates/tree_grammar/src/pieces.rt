// Numbers and players at the front of a list of tokens.
ghost use Rattle.std.specs.Prelude.{◌≡◌, if◌then◌else◌, option_map};
ghost use Rattle.std.specs.List.{AllByRecursion};
ghost use Rattle.game_core.specs.Spacing.{IsShortToken};
ghost use Rattle.game_core.specs.TokenList.{bare};
ghost use Rattle.file_parts.specs.Reading.{count_at};
ghost use Rattle.file_parts.specs.Parsing.{ParsesAlways};
ghost use Rattle.tree_grammar.specs.TreePieces.{begins_node, is_node_word};
ghost use Rattle.tree_grammar.specs.TreeParsing.{parse_player};
ghost use Rattle.tree_grammar.specs.declared.kinds.EfgKind.TheVariants.{Node};

use crate::kinds::EfgKind;
use file_parts::{Unexpected, label, whole, word};
use game_core::Spanned;

/// A number of at least 1, and the tokens after it.
#[tactic(auto, using(crate::proofs::LabelLemmas::positives))]
pub(crate) fn positive(tokens: &[Spanned]) -> Option<(u64, &[Spanned])>
    requires short { AllByRecursion IsShortToken (bare tokens.now) }
    ensures { count_at (bare tokens.now) ≡ option_map (λ x. (x.0, bare x.1.now)) result }
{
    let (number, rest) = label(tokens)?;
    if number >= 1 {
        Some((number, rest))
    } else {
        None
    }
}

/// A player, counted from 0, by the number that comes, which is 1 to the number of players, and the
/// tokens after it.
///
/// # Errors
///
/// `Node` where no whole number comes, `UnknownPlayer` where one of no player does, and how many
/// tokens are left there.
#[tactic(auto, unfolding(crate::specs::TreeParsing::parse_player))]
pub fn player(tokens: &[Spanned], players: u32) -> Result<(u32, &[Spanned]), Unexpected<EfgKind>>
    ensures { ParsesAlways (λ x. (x.0, bare x.1.now)) result
        (parse_player players (bare tokens.now)) }
{
    let Some((number, rest)) = whole(tokens) else {
        return Err(Unexpected::first_of(EfgKind::Node, tokens));
    };
    if number >= 1 && number <= players as u128 {
        Ok((number as u32 - 1, rest))
    } else {
        Err(Unexpected::first_of(EfgKind::UnknownPlayer, tokens))
    }
}

/// The kind of the fault at a token: this one where the token shows that a list differs, and else
/// `Node`.
pub(crate) fn kind_or_node(differs: bool, kind: EfgKind) -> EfgKind
    ensures { result ≡ (if differs then kind else Node) }
{
    if differs { kind } else { EfgKind::Node }
}

/// Whether the word of a node comes: `c`, `p` or `t`.
pub fn begins_node(tokens: &[Spanned]) -> bool
    ensures { result ≡ begins_node (bare tokens.now) }
{
    match word(tokens) {
        Some((word, _)) => is_node_word(word.bytes()),
        None => false,
    }
}

// Whether this is the word of a node.
fn is_node_word(word: &[u8]) -> bool
    ensures { result ≡ is_node_word word.now }
{
    word == b"c".as_slice() || word == b"p".as_slice() || word == b"t".as_slice()
}
