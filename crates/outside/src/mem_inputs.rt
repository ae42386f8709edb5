// Inputs in memory.
ghost use Rattle.std.specs.Prelude.{◌≡◌, ◌↔◌, ◌⊎◌, ◌+◌, ◌<◌, ◌^◌, ◌||◌, false, [], length, map, min, take, drop, ◌++◌, Some, None, Ok, IsTrue, IsErr, IsSome, IfOk, OnOk, OnErr, Contains, is_none, option_map, string_bytes};
ghost use Rattle.std.specs.Option.{option_copied};
ghost use Rattle.std.specs.Io.{ReadsAtMost};
ghost use Rattle.std.specs.Io.KnownBytes.{ReadConsumes};
ghost use Rattle.outside.specs.Counts.{Counts, next_count};
ghost use Rattle.outside.specs.Inputs.{InputName, ends_after, meets_end};
ghost use Rattle.outside.specs.MemInputs.{first_named, bytes_held, bytes_left, bytes_left-idle};

use crate::inputs::{Inputs, OpenFailed, ReadFailed};
use crate::selection::Selection;
use std::marker::Model;

/// Inputs that are held in memory and told: the bytes under no name, and names with their bytes.
/// Calls of `select` and `read` are numbered together from 1; the number stops at 2^64 - 1. The
/// calls whose numbers are given fail.
#[derive(Drop)]
pub struct MemInputs {
    plain: Vec<u8>,
    named: Vec<(String, Vec<u8>)>,
    failing: Vec<u64>,
    calls: u64,
    position: usize,
    selection: Selection,
}

impl Model for MemInputs {
    ghost use Rattle.std.specs.Prelude.{map, option_map, string_bytes};
    ghost use Rattle.outside.specs.MemInputs.{InputsState};

    ghost Value = { InputsState };

    ghost view = { λ s. record {
      plain = s.plain.items;
      named = map (λ p. (string_bytes p.0, p.1.items)) s.named.items;
      failing = s.failing.items;
      calls = s.calls;
      selected = option_map (option_map string_bytes) s.selection.selected;
      failed = option_map (option_map string_bytes) s.selection.failed;
      position = s.position;
      at_end = s.selection.at_end;
      selections = s.selection.selections;
      ends = s.selection.ends;
      open_faults = s.selection.open_faults;
      read_faults = s.selection.read_faults;
    } };
}

impl MemInputs {
    /// Inputs with these bytes under no name, these names with bytes, of which the first counts
    /// where names are equal, and these numbers of the calls that fail. Takes no memory.
    pub fn new(plain: Vec<u8>, named: Vec<(String, Vec<u8>)>, failing: Vec<u64>) -> MemInputs
        ensures state { result
            ≡ record {
              plain = plain.items;
              named = map (λ p. (string_bytes p.0, p.1.items)) named.items;
              failing = failing.items;
              calls = 0;
              selected = None;
              failed = None;
              position = 0;
              at_end = false;
              selections = 0;
              ends = 0;
              open_faults = 0;
              read_faults = 0;
            } }
        ensures held { (n : InputName)
            → (⟦<MemInputs as Inputs>⟧.seen result).held n
            ≡ bytes_held plain.items (map (λ p. (string_bytes p.0, p.1.items)) named.items) n }
        ensures absent { (n : InputName)
            → (⟦<MemInputs as Inputs>⟧.seen result).absent n
            ≡ is_none
            (bytes_held plain.items (map (λ p. (string_bytes p.0, p.1.items)) named.items) n) }
        ensures left { (⟦<MemInputs as Inputs>⟧.seen result).left ≡ Some [] }
        ensures selected { (⟦<MemInputs as Inputs>⟧.seen result).selected ≡ None }
        ensures failed { (⟦<MemInputs as Inputs>⟧.seen result).failed ≡ None }
        ensures not_at_end { (⟦<MemInputs as Inputs>⟧.seen result).at_end ≡ false }
        ensures selections { (⟦<MemInputs as Inputs>⟧.seen result).selections ≡ 0 }
        ensures ends { (⟦<MemInputs as Inputs>⟧.seen result).ends ≡ 0 }
        ensures open_faults { (⟦<MemInputs as Inputs>⟧.seen result).open_faults ≡ 0 }
        ensures read_faults { (⟦<MemInputs as Inputs>⟧.seen result).read_faults ≡ 0 }
    {
        MemInputs {
            plain,
            named,
            failing,
            calls: 0,
            position: 0,
            selection: Selection::new(),
        }
    }

    // Counts a call, and answers whether it is one that fails.
    fn counts_failing(&mut self) -> bool
        ensures counts { self.new ≡ record self.old { calls = next_count self.old.calls } }
        ensures fails { IsTrue result ↔ Contains self.old.failing (next_count self.old.calls) }
    {
        self.calls = self.calls.saturating_add(1);
        self.failing.contains(&self.calls)
    }

    // The bytes of an input, where there is one of that name.
    fn bytes_of(&self, name: &Option<String>) -> Option<&[u8]>
        ensures { option_copied result
            ≡ bytes_held self.now.plain self.now.named (option_map string_bytes name.now) }
    {
        match name {
            None => Some(self.plain.as_slice()),
            Some(name) => first_named(self.named.as_slice(), name.as_str()),
        }
    }

    // The bytes that are left of the selected input.
    fn rest(&self) -> &[u8]
        ensures rest { result.now ≡ bytes_left self.now }
        ensures fits { self.now.position + length result.now < 2 ^ 64 }
    {
        let bytes = match &self.selection.selected {
            None => &[],
            Some(name) => self.bytes_of(name).unwrap_or(&[]),
        };
        after(bytes, self.position)
    }
}

impl Inputs for MemInputs {
    ghost seen = { λ s. record {
      held = bytes_held s.plain s.named;
      absent = λ n. is_none (bytes_held s.plain s.named n);
      left = Some (bytes_left s);
      selected = s.selected;
      failed = s.failed;
      at_end = s.at_end;
      selections = s.selections;
      ends = s.ends;
      open_faults = s.open_faults;
      read_faults = s.read_faults;
    } };

    /// Fails exactly where the call's number is one that fails or there is no input of that name.
    fn select(&mut self, name: Option<String>) -> Result<(), OpenFailed>
        ensures selects { OnOk result (self.new.selected ≡ Some (option_map string_bytes name)) }
        ensures all_left { OnOk result (Some (bytes_left self.new)
            ≡ bytes_held self.old.plain self.old.named (option_map string_bytes name)) }
        ensures is_there { OnOk result
            (is_none (bytes_held self.old.plain self.old.named (option_map string_bytes name))
            ≡ false) }
        ensures failed_stays { OnOk result (self.new.failed ≡ self.old.failed) }
        ensures fails { OnErr result (self.new.failed ≡ Some (option_map string_bytes name)) }
        ensures selects_nothing { OnErr result (self.new.selected ≡ None) }
        ensures held { (n : InputName)
            → bytes_held self.new.plain self.new.named n
            ≡ bytes_held self.old.plain self.old.named n }
        ensures absent { (n : InputName)
            → is_none (bytes_held self.new.plain self.new.named n)
            ≡ is_none (bytes_held self.old.plain self.old.named n) }
        ensures not_at_end { self.new.at_end ≡ false }
        ensures selections { self.new.selections ≡ next_count self.old.selections }
        ensures ends { self.new.ends ≡ self.old.ends }
        ensures counts { Counts self.old.open_faults self.new.open_faults result }
        ensures other_count { self.new.read_faults ≡ self.old.read_faults }

        ensures when { IsErr result
            ↔ (Contains self.old.failing (next_count self.old.calls)
            ⊎ (bytes_held self.old.plain self.old.named (option_map string_bytes name)
            ≡ None)) }
        ensures selected { OnOk result
            (self.new ≡ record self.old {
              calls = next_count self.old.calls;
              selected = Some (option_map string_bytes name);
              position = 0;
              at_end = false;
              selections = next_count self.old.selections;
            }) }
        ensures refused { OnErr result
            (self.new ≡ record self.old {
              calls = next_count self.old.calls;
              selected = None;
              failed = Some (option_map string_bytes name);
              position = 0;
              at_end = false;
              selections = next_count self.old.selections;
              open_faults = next_count self.old.open_faults;
            }) }
    {
        let fails = self.counts_failing();
        let absent = self.bytes_of(&name).is_none();
        self.position = 0;
        self.selection.begin();
        if fails || absent {
            self.selection.refuse(name);
            return Err(OpenFailed);
        }
        self.selection.selected = Some(name);
        Ok(())
    }

    /// Fails exactly where an input is selected and the call's number is one that fails. Else it
    /// takes as many bytes as the buffer has room for and are left.
    fn read(&mut self, buf: &mut [u8]) -> Result<usize, ReadFailed>
        ensures bound { ReadsAtMost result buf.new }
        ensures bytes { OnOk result
            (ReadConsumes (Some (bytes_left self.old))
            (Some (bytes_left self.new)) result buf.new) }
        ensures selected_stays { OnOk result (self.new.selected ≡ self.old.selected) }
        ensures failed_stays { OnOk result (self.new.failed ≡ self.old.failed) }
        ensures idle { self.old.selected ≡ None → result ≡ Ok 0 }
        ensures fails { OnErr result (self.new.failed ≡ self.old.selected) }
        ensures selects_nothing { OnErr result (self.new.selected ≡ None) }
        ensures held { (n : InputName)
            → bytes_held self.new.plain self.new.named n
            ≡ bytes_held self.old.plain self.old.named n }
        ensures absent { (n : InputName)
            → is_none (bytes_held self.new.plain self.new.named n)
            ≡ is_none (bytes_held self.old.plain self.old.named n) }
        ensures at_end { IfOk result (λ count. self.new.at_end
            ≡ (self.old.at_end || meets_end self.old.selected (length buf.old) count)) }
        ensures not_at_end { OnErr result (self.new.at_end ≡ false) }
        ensures selections { self.new.selections ≡ self.old.selections }
        ensures ends { self.new.ends
            ≡ ends_after self.old.at_end self.new.at_end self.old.ends }
        ensures counts { Counts self.old.read_faults self.new.read_faults result }
        ensures other_count { self.new.open_faults ≡ self.old.open_faults }

        ensures when { IsErr result
            ↔ (IsSome self.old.selected × Contains self.old.failing (next_count self.old.calls)) }
        ensures count { IfOk result (λ n. n ≡ min (length (bytes_left self.old)) (length buf.old)) }
        ensures fills { IfOk result (λ n. buf.new
            ≡ take n (bytes_left self.old) ++ drop n buf.old) }
        ensures reads { IfOk result
            (λ n. self.new ≡ record self.old {
              calls = next_count self.old.calls;
              position = self.old.position + n;
              at_end = self.new.at_end;
              ends = self.new.ends;
            }) }
        ensures refused { OnErr result
            (self.new ≡ record self.old {
              calls = next_count self.old.calls;
              selected = None;
              failed = self.old.selected;
              at_end = false;
              read_faults = next_count self.old.read_faults;
            }) }
        ensures unfilled { OnErr result (buf.new ≡ buf.old) }
    {
        let fails = self.counts_failing();
        if self.selection.selected.is_none() {
            return Ok(0);
        }
        if fails {
            self.selection.fail();
            return Err(ReadFailed);
        }
        let count = copy_front(self.rest(), buf);
        self.position += count;
        self.selection.count_end(buf.len(), count);
        Ok(count)
    }

    ghost nothing_left = { bytes_left-idle };
}

// The bytes of the first pair with a name.
fn first_named<'a>(named: &'a [(String, Vec<u8>)], name: &str) -> Option<&'a [u8]>
    ensures { option_copied result
        ≡ first_named (map (λ p. (string_bytes p.0, p.1.items)) named.now) name.now }
{
    for (key, bytes) in named {
        if key.as_str() == name {
            return Some(bytes.as_slice());
        }
    }
    None
}

// The bytes that follow the first `count`.
fn after(bytes: &[u8], count: usize) -> &[u8]
    ensures rest { result.now ≡ drop count bytes.now }
    ensures fits { count + length result.now < 2 ^ 64 }
{
    if count <= bytes.len() {
        &bytes[count..]
    } else {
        &[]
    }
}

// Copies as many bytes as there are and the buffer has room for, and answers how many.
fn copy_front(bytes: &[u8], buf: &mut [u8]) -> usize
    ensures count { result ≡ min (length bytes.now) (length buf.old) }
    ensures bytes { buf.new ≡ take result bytes.now ++ drop result buf.old }
{
    let count = bytes.len().min(buf.len());
    buf[..count].copy_from_slice(&bytes[..count]);
    count
}
