// Reads an input to its end.
ghost use Rattle.std.specs.Prelude.{◌≡◌, ◌≢◌, ◌+◌, ◌<◌, ◌≤◌, Option, List, ℕ, Ok, false, true, length, vec_len, option_map, string_bytes, IsSome, IfOk, IfErr, OnOk, MatchResult};
ghost use Rattle.std.specs.Result.{result_err};
ghost use Rattle.std.specs.Io.KnownBytes.{Consumes, IsAtEnd};
ghost use Rattle.outside.specs.Counts.{next_count};
ghost use Rattle.outside.specs.Inputs.{InputName};
ghost use Rattle.gambit_tools.specs.Input.{most_bytes, AreBytesOf, IsInputRefusal, IsReadToEnd, CountsDetermine};
ghost use Rattle.gambit_tools.specs.Pieces.{IsPieceRefusal, IsReadingRefusal};

use outside::Inputs;
use refusals::Refusal;
use std::alloc::{AllocError, Global};

// The most bytes that an input may have.
const MOST_BYTES: usize = 16_777_216;

// How many bytes are asked for at once.
const PIECE: usize = 65_536;

// Room for one piece.
fn new_buffer(alloc: Global) -> Result<Vec<u8>, AllocError>
    ensures { IfOk result (λ buffer. 0 < vec_len buffer) }
{
    let mut buffer = Vec::new(alloc);
    buffer.resize(PIECE, 0)?;
    Ok(buffer)
}

// Reads the next piece of the selected input to the end of `bytes`, and answers how long it is. No
// byte is read beyond the first above the limit. The length 0 comes exactly at the end of the
// input.
fn read_piece<I: Inputs>(
    inputs: &mut I,
    buffer: &mut [u8],
    bytes: &mut Vec<u8>,
) -> Result<usize, Refusal>
    requires room { 0 < length buffer.old }
    requires few { vec_len bytes.old ≤ most_bytes }
    requires is_selected { IsSome (I.seen inputs.old).selected }
    requires before_end { (I.seen inputs.old).at_end ≡ false }

    ensures few { vec_len bytes.new ≤ most_bytes + 1 }
    ensures longer { IfOk result (λ count. vec_len bytes.new ≡ vec_len bytes.old + count) }

    // What was read so far and what is left are the input's bytes.
    ensures so_far { OnOk result
        ((start : Option (List ℕ)) → Consumes start (I.seen inputs.old).left bytes.old.items
        → Consumes start (I.seen inputs.new).left bytes.new.items) }
    ensures at_end { result ≡ Ok 0 → (start : Option (List ℕ))
        → Consumes start (I.seen inputs.old).left bytes.old.items
        → AreBytesOf start bytes.new.items }
    ensures nothing_left { result ≡ Ok 0 → IsAtEnd (I.seen inputs.new).left }

    ensures end_met { result ≡ Ok 0 → ((I.seen inputs.new).at_end ≡ true)
        × ((I.seen inputs.new).ends ≡ next_count (I.seen inputs.old).ends) }
    ensures no_end { result ≢ Ok 0 → ((I.seen inputs.new).at_end ≡ false)
        × ((I.seen inputs.new).ends ≡ (I.seen inputs.old).ends) }

    ensures selected { OnOk result ((I.seen inputs.new).selected ≡ (I.seen inputs.old).selected) }
    ensures no_fault { OnOk result
        ((I.seen inputs.new).read_faults ≡ (I.seen inputs.old).read_faults) }
    ensures refused { IfErr result (IsPieceRefusal
        (I.seen inputs.old)
        (I.seen inputs.new)) }
    ensures open_faults { (I.seen inputs.new).open_faults ≡ (I.seen inputs.old).open_faults }
    ensures selections { (I.seen inputs.new).selections ≡ (I.seen inputs.old).selections }
    ensures held { (n : InputName) → (I.seen inputs.new).held n ≡ (I.seen inputs.old).held n }
    ensures absent { (n : InputName) → (I.seen inputs.new).absent n ≡ (I.seen inputs.old).absent n }
{
    let room = buffer.len().min(MOST_BYTES + 1 - bytes.len());
    let count = inputs.read(&mut buffer[..room])?;
    bytes.extend_from_slice(&buffer[..count])?;
    Ok(count)
}

// Reads the selected input to its end, or to the first byte above the limit.
fn read_selected<I: Inputs>(alloc: Global, inputs: &mut I) -> Result<Vec<u8>, Refusal>
    requires is_selected { IsSome (I.seen inputs.old).selected }
    requires before_end { (I.seen inputs.old).at_end ≡ false }
    ensures bytes { IfOk result (λ bytes. AreBytesOf (I.seen inputs.old).left bytes.items) }
    ensures within_limit { IfOk result (λ bytes. vec_len bytes ≤ most_bytes) }
    ensures read { OnOk result
        (((I.seen inputs.new).selected ≡ (I.seen inputs.old).selected)
        × ((I.seen inputs.new).at_end ≡ true)
        × IsAtEnd (I.seen inputs.new).left) }
    ensures ends { MatchResult result
        (λ _. (I.seen inputs.new).ends ≡ next_count (I.seen inputs.old).ends)
        (λ _. (I.seen inputs.new).ends ≡ (I.seen inputs.old).ends) }
    ensures refused { IfErr result (IsReadingRefusal (I.seen inputs.old).left
        (I.seen inputs.old)
        (I.seen inputs.new)) }
    ensures no_fault { OnOk result
        ((I.seen inputs.new).read_faults ≡ (I.seen inputs.old).read_faults) }
    ensures open_faults { (I.seen inputs.new).open_faults ≡ (I.seen inputs.old).open_faults }
    ensures selections { (I.seen inputs.new).selections ≡ (I.seen inputs.old).selections }
    ensures held { (n : InputName) → (I.seen inputs.new).held n ≡ (I.seen inputs.old).held n }
    ensures absent { (n : InputName) → (I.seen inputs.new).absent n ≡ (I.seen inputs.old).absent n }
{
    let mut buffer = new_buffer(alloc)?;
    let mut bytes = Vec::new(alloc);
    while bytes.len() <= MOST_BYTES {
        let count = read_piece(inputs, &mut buffer, &mut bytes)?;
        if count == 0 {
            return Ok(bytes);
        }
    }
    Err(Refusal::TooLong)
}

/// Selects an input and reads it to its end, or to the first byte above the limit.
pub(crate) fn read_input<I: Inputs>(
    alloc: Global,
    inputs: &mut I,
    name: Option<String>,
) -> Result<Vec<u8>, Refusal>
    ensures bytes { IfOk result
        (λ bytes. AreBytesOf
        ((I.seen inputs.old).held (option_map string_bytes name)) bytes.items) }
    ensures is_there { OnOk result
        ((I.seen inputs.old).absent (option_map string_bytes name) ≡ false) }
    ensures within_limit { IfOk result (λ bytes. length bytes.items ≤ most_bytes) }
    ensures read { OnOk result (IsReadToEnd (option_map string_bytes name) (I.seen inputs.new)) }
    ensures ends { MatchResult result
        (λ _. (I.seen inputs.new).ends ≡ next_count (I.seen inputs.old).ends)
        (λ _. (I.seen inputs.new).ends ≡ (I.seen inputs.old).ends) }
    ensures refused { IfErr result (IsInputRefusal (option_map string_bytes name)
        (I.seen inputs.old)
        (I.seen inputs.new)) }
    ensures counts { CountsDetermine (I.seen inputs.old) (I.seen inputs.new) (result_err result) }
    ensures open_faults { OnOk result
        ((I.seen inputs.new).open_faults ≡ (I.seen inputs.old).open_faults) }
    ensures read_faults { OnOk result
        ((I.seen inputs.new).read_faults ≡ (I.seen inputs.old).read_faults) }
    ensures selections { (I.seen inputs.new).selections
        ≡ next_count (I.seen inputs.old).selections }
    ensures held { (n : InputName) → (I.seen inputs.new).held n ≡ (I.seen inputs.old).held n }
    ensures absent { (n : InputName) → (I.seen inputs.new).absent n ≡ (I.seen inputs.old).absent n }
{
    inputs.select(name)?;
    read_selected(alloc, inputs)
}
