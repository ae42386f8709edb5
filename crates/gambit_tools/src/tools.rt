// The top call.
ghost use Rattle.std.specs.Prelude.{◌≡◌, ℕ, ◌<◌, List, None, Ok, Some, map, string_bytes};
ghost use Rattle.std.specs.Result.{result_err};
ghost use Rattle.answers.specs.Answers.{map_ok, IsSingle};
ghost use Rattle.answers.specs.Answered.{IsAnswered};
ghost use Rattle.outside.specs.Inputs.{InputName};
ghost use Rattle.words.specs.Words.{Command, command_of, command_from, IsWithinRanges};
ghost use Rattle.gambit_tools.specs.Seen.{outside, seen};
ghost use Rattle.gambit_tools.specs.Input.{CountsDetermine};
ghost use Rattle.refusals.specs.Refusals.{status_of, IsToldAs, HasFormedLine};
ghost use Rattle.gambit_tools.specs.Commands.{answer_of};
ghost use Rattle.gambit_tools.specs.Laws.{RangesDoNotFit, TextsHoldForTheGame};
ghost use Rattle.gambit_tools.specs.Outcome.{RunAnswer, IsTold, TakesLine, IsComputed, IsRunOf, IsToldRun, IsComplete};
ghost use Rattle.refusals.specs.declared.refusal.Refusal.{Refusal};

use crate::check::check;
use crate::convert::convert;
use crate::crew::Crew;
use crate::lcp::lcp;
use crate::lp::lp;
use crate::make::make;
use crate::mixed::{enummixed, enummixed_texts_are_extreme};
use crate::output::write_text;
use crate::pure::enumpure;
use enummixed::pairs_are_as_many_as_extreme_equilibria;
use game_core::trees_are_game_trees;
use ne_checker::{
    table_checks_are_answered, table_checks_are_single, table_checks_tell_equilibria,
    tree_checks_are_answered, tree_checks_are_single, tree_checks_tell_equilibria,
};
use outside::{Gate, Inputs, Sink};
use perfect_recall::{recalls_are_answered, recalls_are_single};
use reduced_form::forms_are_answered;
use refusals::Refusal;
use std::alloc::Global;
use std::marker::Sync;
use std::thread::Threads;
use two_player_tools::{
    lcp_texts_are_equilibria, lp_texts_are_solutions, solutions_are_answered, solutions_are_single,
    strategic_tables_are_answered,
};
use words::{Settings, read_settings};

// Reads the inputs that the settings name, and computes the text. Each tool has an arm.
#[tactic(auto, using(crate::proofs::MakeLaws::make_computed))]
fn compute<R: Threads + Sync, I: Inputs, G: Gate>(
    rt: &R,
    alloc: Global,
    settings: Settings,
    inputs: &mut I,
    gate: &G,
) -> Result<Vec<u8>, Refusal>
    requires ranges { IsWithinRanges (command_of settings) }
    ensures { IsComputed (command_of settings)
        (I.seen inputs.old)
        (I.seen inputs.new)
        (map_ok result (λ text. text.items)) }
{
    match settings {
        Settings::Enumpure {
            strategic,
            agents,
            perfect,
            file,
        } => enumpure(alloc, strategic, agents, perfect, file, inputs),
        Settings::Enummixed { all, workers, file } => {
            let crew = Crew { rt, workers, gate };
            enummixed(&crew, alloc, all, file, inputs)
        }
        Settings::Lcp {
            strategic,
            perfect,
            file,
        } => lcp(alloc, strategic, perfect, file, inputs),
        Settings::Lp {
            strategic,
            prices,
            perfect,
            file,
        } => lp(alloc, strategic, prices, perfect, file, inputs),
        Settings::Make {
            number,
            rows,
            columns,
            workers,
        } => {
            let crew = Crew { rt, workers, gate };
            make(&crew, alloc, number, rows, columns)
        }
        Settings::Convert {
            layout,
            row,
            column,
            file,
        } => convert(alloc, layout, row, column, file, inputs),
        Settings::Check {
            strategic,
            game,
            lines,
        } => check(alloc, strategic, game, lines, inputs),
    }
}

// Reads the words and the inputs, computes the whole text, and only then writes it.
fn answer<R: Threads + Sync, I: Inputs, K: Sink, G: Gate>(
    rt: &R,
    alloc: Global,
    words: &[String],
    inputs: &mut I,
    out: &mut K,
    gate: &G,
) -> Result<Vec<u8>, Refusal>
    ensures run { IsRunOf (command_from (map string_bytes words.now))
        (outside (I.seen inputs.old) (K.seen out.old))
        (outside (I.seen inputs.new) (K.seen out.new))
        (map_ok result (λ text. text.items)) }
    ensures counts { CountsDetermine
        (I.seen inputs.old)
        (I.seen inputs.new) (result_err result) }
    ensures output_faults { (K.seen out.old).faults < (K.seen out.new).faults
        → result_err result ≡ Some Refusal.WriteFault }
    ensures held { (n : InputName) → (I.seen inputs.new).held n ≡ (I.seen inputs.old).held n }
{
    let settings = read_settings(alloc, words)?;
    let text = compute(rt, alloc, settings, inputs, gate)?;
    write_text(out, &text)?;
    Ok(text)
}

// Writes a line. A fault of the sink ends the writing. Takes no memory.
fn write_line<E: Sink>(err: &mut E, line: &str)
    ensures { TakesLine (E.seen err.old) (E.seen err.new) line.now }
{
    let _ = write_text(err, line.as_bytes());
}

// Writes the line of a refusal that is formed, or that of want of memory where it cannot be.
fn refuse_formed<E: Sink>(alloc: Global, err: &mut E, refusal: Refusal) -> u8
    requires { HasFormedLine refusal }
    ensures { (told : Refusal) × IsToldAs refusal told × (result ≡ status_of told)
        × IsTold (E.seen err.old) (E.seen err.new) (Some told) }
{
    match refusal.line(alloc) {
        Ok(line) => {
            write_line(err, line.as_str());
            refusal.status()
        }
        Err(_) => {
            write_line(err, "gambit: out of memory\n");
            Refusal::Memory.status()
        }
    }
}

/// Writes the line of a refusal and flushes the sink, and answers the refusal's status. Where the
/// line tells more than the refusal's kind and there is no memory to form it, want of memory is
/// told in its place. A fault of the sink ends the writing and changes no status.
pub fn refuse<E: Sink>(alloc: Global, err: &mut E, refusal: Refusal) -> u8
    ensures { (told : Refusal) × IsToldAs refusal told × (result ≡ status_of told)
        × IsTold (E.seen err.old) (E.seen err.new) (Some told) }
{
    match refusal.fixed_line() {
        Some(line) => {
            write_line(err, line);
            refusal.status()
        }
        None => refuse_formed(alloc, err, refusal),
    }
}

/// Does all that the program does, and answers the status with which it ends.
///
/// `words` are the words after the program's own name. The inputs that they name are selected one
/// after another, and each is read to its end, or to byte 16,777,217; the whole text is computed;
/// only then it is written to `out` and flushed. A refusal ends this where it comes: before the
/// writing nothing goes to `out`, and each refusal writes one line to `err`. A fault of `err` ends
/// the writing to `err` and changes no status.
pub fn run<R: Threads + Sync, I: Inputs, K: Sink, E: Sink, G: Gate>(
    rt: &R,
    alloc: Global,
    words: &[String],
    inputs: &mut I,
    out: &mut K,
    err: &mut E,
    gate: &G,
) -> u8
    // What is answered, read, written and told, and why; and that the contents decide it.
    ensures outcome { (answer : RunAnswer) × IsToldRun (map string_bytes words.now)
        (seen (I.seen inputs.old) (K.seen out.old) (E.seen err.old))
        (seen (I.seen inputs.new) (K.seen out.new) (E.seen err.new))
        result answer }

    // Where the words are accepted, the inputs are not refused and no fault was counted, the text
    // is written whole, unless memory runs out.
    ensures complete { IsComplete (map string_bytes words.now)
        (outside (I.seen inputs.old) (K.seen out.old))
        (outside (I.seen inputs.new) (K.seen out.new))
        result }
{
    answers_are_single();
    match answer(rt, alloc, words, inputs, out, gate).err() {
        None => 0,
        Some(refusal) => refuse(alloc, err, refusal),
    }
}

/// The contents of a command's inputs have at most one answer.
pub fn answers_are_single()
    ensures { (command : Command) (contents : List (List ℕ))
        → IsSingle (answer_of command contents) }
{
    solutions_are_single();
    recalls_are_single();
    table_checks_are_single();
    tree_checks_are_single();
}

/// Whatever the contents of its inputs are, a command that words give has an answer: it cannot be
/// that it has none.
pub fn contents_are_answered()
    ensures { (words : List (List ℕ)) (command : Command) (contents : List (List ℕ))
        → command_from words ≡ Ok command → IsAnswered (answer_of command contents) }
{
    trees_are_game_trees();
    recalls_are_answered();
    forms_are_answered();
    strategic_tables_are_answered();
    solutions_are_answered();
    table_checks_are_answered();
    tree_checks_are_answered();
}

/// The step that a refusal names does not fit 128 bits.
pub fn ranges_do_not_fit()
    ensures { RangesDoNotFit }
{}

/// Each text of `enumpure`, `enummixed`, `lcp`, `lp`, `convert` and `check` says what is so of the
/// game that the bytes of the input stand for, and that of `make` what is so of the table that is
/// made.
pub fn texts_hold_for_the_game()
    ensures { TextsHoldForTheGame }
{
    enummixed_texts_are_extreme();
    lcp_texts_are_equilibria();
    lp_texts_are_solutions();
    table_checks_tell_equilibria();
    tree_checks_tell_equilibria();
    pairs_are_as_many_as_extreme_equilibria();
}
