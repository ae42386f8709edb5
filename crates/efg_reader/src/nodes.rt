// The nodes of a file.
ghost use Rattle.std.specs.Prelude.{◌≡◌, ◌<◌, ◌≢◌, [], true, None, length};
ghost use Rattle.std.specs.List.{AllByRecursion};
ghost use Rattle.std.specs.Str.{bytes_eq};
ghost use Rattle.game_core.specs.Spacing.{IsShortToken};
ghost use Rattle.game_core.specs.TokenList.{bare};
ghost use Rattle.file_parts.specs.Parsing.{Parses};
ghost use Rattle.game_core.specs.Tree.{kind_of_owner};
ghost use Rattle.efg_reader.specs.States.{ParsesNodes};
ghost use Rattle.tree_grammar.specs.TreePieces.{begins_node};
ghost use Rattle.tree_grammar.specs.TreeParsing.{parse_set_choice, parse_own_choice, parse_choice, parse_at, parse_all_nodes};
ghost use Rattle.written_trees.specs.Building.{passed};

use crate::builder::{Builder, UsedSet};
use file_parts::{PartStop, ends, text, unexpected, word};
use game_core::{Kind, Name, Spanned, What};
use std::alloc::{AllocError, Global};
use tree_grammar::{EfgKind, Sets, begins_node, player, read_outcome, read_set};

/// Why nodes are not read.
#[derive(Clone, Copy, Debug, PartialEq, Eq)]
pub enum NodesStop {
    /// A token does not fit, or memory ran out.
    Refused(PartStop<EfgKind>),
    /// A node passes a limit.
    Passed(What),
}

impl From<PartStop<EfgKind>> for NodesStop {
    ghost use Rattle.std.specs.Prelude.{◌≡◌};
    ghost use Rattle.efg_reader.specs.declared.nodes.NodesStop.TheVariants.{Refused};

    ghost from_gives = { λ stopped stop. stop ≡ Refused stopped };

    fn from(stopped: PartStop<EfgKind>) -> NodesStop {
        NodesStop::Refused(stopped)
    }
}

impl From<AllocError> for NodesStop {
    ghost use Rattle.std.specs.Prelude.{◌≡◌};
    ghost use Rattle.file_parts.specs.declared.stop.PartStop.TheVariants.{Memory};
    ghost use Rattle.efg_reader.specs.declared.nodes.NodesStop.TheVariants.{Refused};

    ghost from_gives = { λ _ stop. stop ≡ Refused Memory };

    fn from(_error: AllocError) -> NodesStop {
        NodesStop::Refused(PartStop::Memory)
    }
}

// Whether a word is this one.
fn is_word(word: &Name, expected: &[u8]) -> bool
    ensures { result ≡ bytes_eq word.now expected.now }
{
    word.bytes() == expected
}

// Who chooses at a set with this owner.
fn kind_of(owner: Option<u32>) -> Kind
    ensures { result ≡ kind_of_owner owner }
{
    match owner {
        Some(player) => Kind::Move { player },
        None => Kind::Chance,
    }
}

// The sets with one of this owner, that set as the node uses it, and the tokens after it.
#[tactic(auto, using(file_parts::proofs::ParseLemmas::refused_first), unfolding(tree_grammar::specs::TreeParsing::parse_set_choice))]
fn use_set<'a>(
    alloc: Global,
    sets: Sets,
    owner: Option<u32>,
    number: u32,
    tokens: &'a [Spanned],
) -> Result<(Sets, UsedSet, &'a [Spanned]), PartStop<EfgKind>>
    requires few { length sets < 4294967295 }
    requires short { AllByRecursion IsShortToken (bare tokens.now) }
    ensures { Parses (λ x. ((x.0, (x.1.kind, x.1.set)), bare x.2.now)) result
        (parse_set_choice number sets owner (bare tokens.now)) }
{
    let (sets, set, rest) = read_set(alloc, sets, owner, number, tokens)?;
    let used = UsedSet {
        kind: kind_of(owner),
        set: Some(set),
    };
    Ok((sets, used, rest))
}

// The sets with one of the player whose number comes, that set as the node uses it, and the tokens
// after it.
#[tactic(auto, using(file_parts::proofs::ParseLemmas::stops, tree_faults::proofs::ShortRestLemmas::player_leaves), unfolding(tree_grammar::specs::TreeParsing::parse_own_choice))]
fn use_own_set<'a>(
    alloc: Global,
    sets: Sets,
    players: u32,
    number: u32,
    tokens: &'a [Spanned],
) -> Result<(Sets, UsedSet, &'a [Spanned]), PartStop<EfgKind>>
    requires few { length sets < 4294967295 }
    requires short { AllByRecursion IsShortToken (bare tokens.now) }
    ensures { Parses (λ x. ((x.0, (x.1.kind, x.1.set)), bare x.2.now)) result
        (parse_own_choice players number sets (bare tokens.now)) }
{
    let (player, following) = player(tokens, players)?;
    use_set(alloc, sets, Some(player), number, following)
}

// A node with this number up to its outcome: the sets with the one that it uses, that set, and the
// tokens after it.
#[tactic(auto, using(tree_faults::proofs::ShortRestLemmas::short_after), unfolding(tree_grammar::specs::TreeParsing::parse_choice))]
fn node_front<'a>(
    alloc: Global,
    sets: Sets,
    players: u32,
    number: u32,
    tokens: &'a [Spanned],
) -> Result<(Sets, UsedSet, &'a [Spanned]), PartStop<EfgKind>>
    requires few { length sets < 4294967295 }
    requires short { AllByRecursion IsShortToken (bare tokens.now) }
    ensures { Parses (λ x. ((x.0, (x.1.kind, x.1.set)), bare x.2.now)) result
        (parse_choice players number sets (bare tokens.now)) }
{
    let Some((word, name_on)) = word(tokens) else {
        return Err(unexpected(EfgKind::Node, tokens));
    };
    let Some((_, following)) = text(name_on) else {
        return Err(unexpected(EfgKind::Node, name_on));
    };
    if is_word(word, b"c") {
        use_set(alloc, sets, None, number, following)
    } else if is_word(word, b"p") {
        use_own_set(alloc, sets, players, number, following)
    } else if is_word(word, b"t") {
        let used = UsedSet {
            kind: Kind::End,
            set: None,
        };
        Ok((sets, used, following))
    } else {
        Err(unexpected(EfgKind::Node, tokens))
    }
}

// The tree with a further node, which passes no limit, and the tokens after it.
fn next<'a>(
    alloc: Global,
    builder: Builder,
    players: u32,
    tokens: &'a [Spanned],
) -> Result<(Builder, &'a [Spanned]), NodesStop>
    requires begins { begins_node (bare tokens.now) ≡ true }
    requires room { passed builder ≡ None }
    requires free { builder.branchings ≢ [] }
    requires short { AllByRecursion IsShortToken (bare tokens.now) }
    ensures { ParsesNodes (λ x. (x.0, bare x.1.now)) result
        (parse_at players builder builder.branchings (bare tokens.now)) }
{
    let Builder {
        nodes,
        sets,
        outcomes,
    } = builder;
    let number = nodes.list.len() as u32;
    let (sets, used, following) = node_front(alloc, sets, players, number, tokens)?;
    let (outcomes, outcome, rest) = read_outcome(alloc, outcomes, players as usize, following)?;
    let nodes = nodes.add(&sets, used, outcome)?;
    Ok((
        Builder {
            nodes,
            sets,
            outcomes,
        },
        rest,
    ))
}

// The tree with a further node, and the tokens after it.
#[tactic(auto, using(crate::proofs::NextStepLemmas::no_word, crate::proofs::NextStepLemmas::beyond))]
fn one_more<'a>(
    alloc: Global,
    builder: Builder,
    players: u32,
    tokens: &'a [Spanned],
) -> Result<(Builder, &'a [Spanned]), NodesStop>
    requires free { builder.branchings ≢ [] }
    requires short { AllByRecursion IsShortToken (bare tokens.now) }
    ensures { ParsesNodes (λ x. (x.0, bare x.1.now)) result
        (parse_at players builder builder.branchings (bare tokens.now)) }
{
    if !begins_node(tokens) {
        return Err(NodesStop::Refused(unexpected(EfgKind::Node, tokens)));
    }
    if let Some(what) = builder.passed() {
        return Err(NodesStop::Passed(what));
    }
    next(alloc, builder, players, tokens)
}

/// The tree of all nodes of a file, after which it ends.
pub(crate) fn read_nodes(
    alloc: Global,
    players: u32,
    tokens: &[Spanned],
) -> Result<Builder, NodesStop>
    requires short { AllByRecursion IsShortToken (bare tokens.now) }
    ensures { ParsesNodes (λ builder. builder) result (parse_all_nodes players (bare tokens.now)) }
{
    let mut builder = Builder::new(alloc)?;
    let mut rest = tokens;
    while !builder.is_whole() {
        (builder, rest) = one_more(alloc, builder, players, rest)?;
    }
    if ends(rest) {
        Ok(builder)
    } else {
        Err(NodesStop::Refused(unexpected(EfgKind::Trailing, rest)))
    }
}
