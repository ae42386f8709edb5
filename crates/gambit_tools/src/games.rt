// The game that bytes stand for, and that an input holds.
ghost use Rattle.std.specs.Prelude.{option_map, string_bytes, ◌<◌, ◌≤◌, ◌≡◌, ◌^◌, ◌↔◌, length, codes, IsTrue};
ghost use Rattle.answers.specs.Answers.{Gives};
ghost use Rattle.game_core.specs.TokenList.{bare};
ghost use Rattle.game_core.specs.declared.token.Token.TheVariants as token_kind;
ghost use Rattle.gambit_tools.specs.Input.{most_bytes};
ghost use Rattle.gambit_tools.specs.Games.{BeginsAsTree, tree_game, table_game, game_of_tokens, game_in};
ghost use Rattle.gambit_tools.specs.Reading.{ReadsGame};

use crate::input::read_input;
use game_core::{Game, Token, Tokens};
use game_text::read_tokens;
use outside::Inputs;
use refusals::Refusal;
use std::alloc::Global;

// Whether a token is the word with which a file of a tree begins.
fn is_tree_word(token: &Token) -> bool
    ensures { IsTrue result ↔ (token.now ≡ token_kind.Word (codes "EFG")) }
{
    match token {
        Token::Word(word) => word.bytes() == b"EFG".as_slice(),
        _ => false,
    }
}

// Whether the tokens begin as those of a file of a tree. There are no more tokens than bytes.
fn begins_as_tree(tokens: &Tokens) -> bool
    ensures begins { IsTrue result ↔ BeginsAsTree (bare tokens.now.list) }
    ensures few { length tokens.now.list ≤ tokens.now.length }
{
    match tokens.list().split_first() {
        Some((spanned, _)) => is_tree_word(&spanned.token),
        None => false,
    }
}

// The game in extensive form that the tokens stand for.
fn tree_game(alloc: Global, tokens: &Tokens) -> Result<Game, Refusal>
    requires few { length tokens.now.list < 2 ^ 32 }
    ensures { Gives Refusal.Memory (tree_game tokens.now) result }
{
    let tree = efg_reader::read(alloc, tokens)?;
    Ok(Game::Extensive(tree))
}

// The game in strategic form that the tokens stand for.
fn table_game(alloc: Global, tokens: &Tokens) -> Result<Game, Refusal>
    ensures { Gives Refusal.Memory (table_game tokens.now) result }
{
    let table = nfg_reader::read(alloc, tokens)?;
    Ok(Game::Strategic(table))
}

// The game that the tokens stand for.
fn game_of_tokens(alloc: Global, tokens: &Tokens) -> Result<Game, Refusal>
    requires few { tokens.now.length < 2 ^ 32 }
    ensures { Gives Refusal.Memory (game_of_tokens tokens.now) result }
{
    if begins_as_tree(tokens) {
        tree_game(alloc, tokens)
    } else {
        table_game(alloc, tokens)
    }
}

/// The game that the bytes stand for.
pub(crate) fn game_in(alloc: Global, bytes: &[u8]) -> Result<Game, Refusal>
    requires few { length bytes.now ≤ most_bytes }
    ensures { Gives Refusal.Memory (game_in bytes.now) result }
{
    let tokens = read_tokens(alloc, bytes)?;
    game_of_tokens(alloc, &tokens)
}

/// Reads the game in a file, or on standard input where no file is named.
pub(crate) fn read_game<I: Inputs>(
    alloc: Global,
    inputs: &mut I,
    file: Option<String>,
) -> Result<Game, Refusal>
    ensures { ReadsGame (option_map string_bytes file)
        (I.seen inputs.old) (I.seen inputs.new) result }
{
    let bytes = read_input(alloc, inputs, file)?;
    game_in(alloc, &bytes)
}
