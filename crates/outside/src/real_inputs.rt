// Inputs over files and standard input.
ghost use Rattle.std.specs.Prelude.{◌≡◌, ◌||◌, false, length, true, Some, None, Ok, IsSome, IsNone, IfOk, OnOk, OnErr, is_some, option_map, string_bytes};
ghost use Rattle.std.specs.Io.{ReadsAtMost};
ghost use Rattle.std.specs.Io.KnownBytes.{ReadConsumes};
ghost use Rattle.outside.specs.Counts.{Counts, next_count};
ghost use Rattle.outside.specs.Inputs.{ends_after, meets_end};
ghost use Rattle.outside.specs.RealInputs.{source_left, is_named};

use crate::inputs::{Inputs, OpenFailed, ReadFailed};
use crate::selection::Selection;
use crate::tries::MOST_TRIES;
use std::fs;
use std::io::{ErrorKind, Read};
use std::marker::Model;
use std::rt::Files;

/// Inputs of a runtime: standard input under no name, and files under their names. It does not tell
/// bytes. A folder opens too, and its first read fails. A call of std that was interrupted is
/// repeated, at most 1,000 times in one call of the inputs; after that the call fails.
#[derive(Drop)]
pub struct RealInputs<'a, R: Files + Input + Drop> {
    rt: &'a R,
    reader: R::Reader,
    file: Option<R::File>,
    selection: Selection,
}

impl<'a, R: Files + Input + Drop> Model for RealInputs<'a, R> {
    ghost use Rattle.std.specs.Prelude.{◌≡◌, is_some, option_map, string_bytes};
    ghost use Rattle.outside.specs.RealInputs.{OpenState, is_named};

    ghost Value = { OpenState };

    ghost view = { λ s. record {
      standard = R.Reader.remaining s.reader;
      file = option_map R.File.Read.remaining s.file;
      selected = option_map (option_map string_bytes) s.selection.selected;
      failed = option_map (option_map string_bytes) s.selection.failed;
      at_end = s.selection.at_end;
      selections = s.selection.selections;
      ends = s.selection.ends;
      open_faults = s.selection.open_faults;
      read_faults = s.selection.read_faults;
    } };

    ghost invariant = { λ s. is_some s.file ≡ is_named s.selection.selected };
}

impl<'a, R: Files + Input + Drop> RealInputs<'a, R> {
    /// The inputs of a runtime, none of which is selected.
    pub fn new(rt: &'a R) -> RealInputs<'a, R>
        ensures selected { (⟦<RealInputs<'a, R> as Inputs>⟧.seen result).selected ≡ None }
        ensures failed { (⟦<RealInputs<'a, R> as Inputs>⟧.seen result).failed ≡ None }
        ensures not_at_end { (⟦<RealInputs<'a, R> as Inputs>⟧.seen result).at_end ≡ false }
        ensures selections { (⟦<RealInputs<'a, R> as Inputs>⟧.seen result).selections ≡ 0 }
        ensures ends { (⟦<RealInputs<'a, R> as Inputs>⟧.seen result).ends ≡ 0 }
        ensures open_faults { (⟦<RealInputs<'a, R> as Inputs>⟧.seen result).open_faults ≡ 0 }
        ensures read_faults { (⟦<RealInputs<'a, R> as Inputs>⟧.seen result).read_faults ≡ 0 }
        ensures no_file { result.file ≡ None }
    {
        RealInputs {
            rt,
            reader: rt.reader(),
            file: None,
            selection: Selection::new(),
        }
    }
}

impl<'a, R: Files + Input + Drop> Inputs for RealInputs<'a, R> {
    ghost seen = { λ s. record {
      held = λ _. None;
      absent = λ _. false;
      left = None;
      selected = s.selected;
      failed = s.failed;
      at_end = s.at_end;
      selections = s.selections;
      ends = s.ends;
      open_faults = s.open_faults;
      read_faults = s.read_faults;
    } };

    fn select(&mut self, name: Option<String>) -> Result<(), OpenFailed>
        ensures selects { OnOk result (self.new.selected ≡ Some (option_map string_bytes name)) }
        ensures failed_stays { OnOk result (self.new.failed ≡ self.old.failed) }
        ensures fails { OnErr result (self.new.failed ≡ Some (option_map string_bytes name)) }
        ensures selects_nothing { OnErr result (self.new.selected ≡ None) }
        ensures not_at_end { self.new.at_end ≡ false }
        ensures selections { self.new.selections ≡ next_count self.old.selections }
        ensures ends { self.new.ends ≡ self.old.ends }
        ensures counts { Counts self.old.open_faults self.new.open_faults result }
        ensures other_count { self.new.read_faults ≡ self.old.read_faults }

        ensures opens { OnOk result (is_some self.new.file ≡ is_some name) }
        ensures standard { OnOk result (IsNone name → source_left self.new ≡ self.old.standard) }
        ensures selected { OnOk result
            (self.new ≡ record self.old {
              file = self.new.file;
              selected = Some (option_map string_bytes name);
              at_end = false;
              selections = next_count self.old.selections;
            }) }
        ensures refused { OnErr result
            (self.new ≡ record self.old {
              file = None;
              selected = None;
              failed = Some (option_map string_bytes name);
              at_end = false;
              selections = next_count self.old.selections;
              open_faults = next_count self.old.open_faults;
            }) }
    {
        self.selection.begin();
        match open_named(self.rt, &name) {
            Ok(file) => {
                self.file = file;
                self.selection.selected = Some(name);
                Ok(())
            }
            Err(failure) => {
                self.file = None;
                self.selection.refuse(name);
                Err(failure)
            }
        }
    }

    fn read(&mut self, buf: &mut [u8]) -> Result<usize, ReadFailed>
        ensures bound { ReadsAtMost result buf.new }
        ensures selected_stays { OnOk result (self.new.selected ≡ self.old.selected) }
        ensures failed_stays { OnOk result (self.new.failed ≡ self.old.failed) }
        ensures idle { self.old.selected ≡ None → result ≡ Ok 0 }
        ensures fails { OnErr result (self.new.failed ≡ self.old.selected) }
        ensures selects_nothing { OnErr result (self.new.selected ≡ None) }
        ensures at_end { IfOk result (λ count. self.new.at_end
            ≡ (self.old.at_end || meets_end self.old.selected (length buf.old) count)) }
        ensures not_at_end { OnErr result (self.new.at_end ≡ false) }
        ensures selections { self.new.selections ≡ self.old.selections }
        ensures ends { self.new.ends
            ≡ ends_after self.old.at_end self.new.at_end self.old.ends }
        ensures counts { Counts self.old.read_faults self.new.read_faults result }
        ensures other_count { self.new.open_faults ≡ self.old.open_faults }

        ensures source { OnOk result (IsSome self.old.selected
            → ReadConsumes (source_left self.old) (source_left self.new) result buf.new) }
        ensures same_file { OnOk result (is_some self.new.file ≡ is_some self.old.file) }
        ensures standard { is_named self.old.selected ≡ true
            → self.new.standard ≡ self.old.standard }
        ensures nothing { self.old.selected ≡ None → self.new ≡ self.old }
        ensures refused { OnErr result
            (self.new ≡ record self.old {
              standard = self.new.standard;
              file = None;
              selected = None;
              failed = self.old.selected;
              at_end = false;
              read_faults = next_count self.old.read_faults;
            }) }
    {
        if self.selection.selected.is_none() {
            return Ok(0);
        }
        let count = match &mut self.file {
            Some(file) => read_some(file, buf),
            None => read_some(&mut self.reader, buf),
        };
        match count {
            Ok(count) => self.selection.count_end(buf.len(), count),
            Err(_) => {
                self.file = None;
                self.selection.fail();
            }
        }
        count
    }

    ghost nothing_left = { λ _ _. tt };
}

// Opens the file of a name, and nothing for no name.
fn open_named<R: Files>(rt: &R, name: &Option<String>) -> Result<Option<R::File>, OpenFailed>
    ensures { IfOk result (λ file. is_some file ≡ is_some name.now) }
{
    let Some(path) = name else {
        return Ok(None);
    };
    for _ in 0..MOST_TRIES {
        match fs::open(rt, path.as_str()) {
            Ok(file) => return Ok(Some(file)),
            Err(error) if error.kind() == ErrorKind::Interrupted => {}
            Err(_) => return Err(OpenFailed),
        }
    }
    Err(OpenFailed)
}

/// Reads to the front of a buffer, and answers how many bytes: one call of the source, which is
/// repeated where it was interrupted, at most 1,000 times.
///
/// # Errors
///
/// The source answered another error, or was interrupted each time.
pub fn read_some<S: Read>(source: &mut S, buf: &mut [u8]) -> Result<usize, ReadFailed>
    ensures bound { ReadsAtMost result buf.new }
    ensures bytes { ReadConsumes (S.remaining source.old) (S.remaining source.new) result buf.new }
{
    for _ in 0..MOST_TRIES {
        match source.read(buf) {
            Ok(count) => return Ok(count),
            Err(error) if error.kind() == ErrorKind::Interrupted => {}
            Err(_) => return Err(ReadFailed),
        }
    }
    Err(ReadFailed)
}
