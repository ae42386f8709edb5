// Named inputs, one of which is selected and read.
ghost use Rattle.std.specs.Prelude.{◌≡◌, ◌||◌, false, length, Some, None, Ok, IfOk, OnOk, OnErr, option_map, string_bytes};
ghost use Rattle.std.specs.Io.{ReadsAtMost};
ghost use Rattle.std.specs.Io.KnownBytes.{ReadConsumes, IsAtEnd};
ghost use Rattle.outside.specs.Counts.{Counts, next_count};
ghost use Rattle.outside.specs.Inputs.{InputName, InputsSeen, ends_after, meets_end};

/// An input could not be opened.
#[derive(Clone, Copy, Debug, PartialEq, Eq)]
pub struct OpenFailed;

/// The selected input could not be read.
#[derive(Clone, Copy, Debug, PartialEq, Eq)]
pub struct ReadFailed;

/// Inputs by name, and one without a name. At most one of them is selected, and only that one is
/// read.
pub trait Inputs {
    /// What can be seen of them: bytes where they are known, names that are known to be those of no
    /// input, the selected and the failed input, whether the end of the selected one was met, and
    /// the counts of selections, of those in which the end was met, and of failed calls. A count
    /// stands still at 2^64 - 1.
    ghost seen: { Self → InputsSeen };

    /// Selects an input, of which all bytes are then left, and whose end was not met yet. A name is
    /// kept and not copied. A name that is known to be that of no input is refused. `OpenFailed`
    /// counts one more in `open_faults`; then the input is the failed one, and nothing is selected.
    fn select(&mut self, name: Option<String>) -> Result<(), OpenFailed>
        ensures selects { OnOk result ((seen self.new).selected
            ≡ Some (option_map string_bytes name)) }
        ensures all_left { OnOk result ((seen self.new).left
            ≡ (seen self.old).held (option_map string_bytes name)) }
        ensures is_there { OnOk result
            ((seen self.old).absent (option_map string_bytes name) ≡ false) }
        ensures failed_stays { OnOk result ((seen self.new).failed ≡ (seen self.old).failed) }
        ensures fails { OnErr result ((seen self.new).failed
            ≡ Some (option_map string_bytes name)) }
        ensures selects_nothing { OnErr result ((seen self.new).selected ≡ None) }
        ensures held { (n : InputName) → (seen self.new).held n ≡ (seen self.old).held n }
        ensures absent { (n : InputName) → (seen self.new).absent n ≡ (seen self.old).absent n }
        ensures not_at_end { (seen self.new).at_end ≡ false }
        ensures selections { (seen self.new).selections ≡ next_count (seen self.old).selections }
        ensures ends { (seen self.new).ends ≡ (seen self.old).ends }
        ensures counts { Counts (seen self.old).open_faults (seen self.new).open_faults result }
        ensures other_count { (seen self.new).read_faults ≡ (seen self.old).read_faults };

    /// Reads the next bytes of the selected input to the front of `buf`, and answers how many. 0
    /// comes for a buffer that is not empty only at the end of the input, which is thereby met, and
    /// which is counted once in each selection. With nothing selected it answers 0. `ReadFailed`
    /// comes only where an input was selected, and counts one more in `read_faults`; that input is
    /// then the failed one, and nothing is selected.
    fn read(&mut self, buf: &mut [u8]) -> Result<usize, ReadFailed>
        ensures bound { ReadsAtMost result buf.new }
        ensures bytes { OnOk result
            (ReadConsumes (seen self.old).left (seen self.new).left result buf.new) }
        ensures selected_stays { OnOk result ((seen self.new).selected ≡ (seen self.old).selected) }
        ensures failed_stays { OnOk result ((seen self.new).failed ≡ (seen self.old).failed) }
        ensures idle { (seen self.old).selected ≡ None → result ≡ Ok 0 }
        ensures fails { OnErr result ((seen self.new).failed ≡ (seen self.old).selected) }
        ensures selects_nothing { OnErr result ((seen self.new).selected ≡ None) }
        ensures held { (n : InputName) → (seen self.new).held n ≡ (seen self.old).held n }
        ensures absent { (n : InputName) → (seen self.new).absent n ≡ (seen self.old).absent n }
        ensures at_end { IfOk result (λ count. (seen self.new).at_end
            ≡ ((seen self.old).at_end
            || meets_end (seen self.old).selected (length buf.old) count)) }
        ensures not_at_end { OnErr result ((seen self.new).at_end ≡ false) }
        ensures selections { (seen self.new).selections ≡ (seen self.old).selections }
        ensures ends { (seen self.new).ends
            ≡ ends_after (seen self.old).at_end (seen self.new).at_end (seen self.old).ends }
        ensures counts { Counts (seen self.old).read_faults (seen self.new).read_faults result }
        ensures other_count { (seen self.new).open_faults ≡ (seen self.old).open_faults };

    /// Where nothing is selected, no bytes are left.
    ghost nothing_left: { (s : Self) → (seen s).selected ≡ None → IsAtEnd (seen s).left };
}
