// Which input is selected, and counts of what was done with inputs.
ghost use Rattle.std.specs.Prelude.{◌≡◌, ◌≤◌, ◌||◌, false, Some, None, IsSome, option_map, string_bytes};
ghost use Rattle.outside.specs.Counts.{next_count};
ghost use Rattle.outside.specs.Inputs.{ends_after, meets_end};

// The selected input, the one whose call failed last, whether the end of the selected one was met,
// how many selections there were, in how many of them the end was met, and how many calls of each
// kind have failed. A count stands still at 2^64 - 1.
#[derive(Drop)]
pub(crate) struct Selection {
    pub selected: Option<Option<String>>,
    pub failed: Option<Option<String>>,
    pub at_end: bool,
    pub selections: u64,
    pub ends: u64,
    pub open_faults: u64,
    pub read_faults: u64,
}

impl Selection {
    // Nothing is selected, and nothing has failed.
    pub(crate) fn new() -> Selection
        ensures { result
            ≡ record {
              selected = None;
              failed = None;
              at_end = false;
              selections = 0;
              ends = 0;
              open_faults = 0;
              read_faults = 0;
            } }
    {
        Selection {
            selected: None,
            failed: None,
            at_end: false,
            selections: 0,
            ends: 0,
            open_faults: 0,
            read_faults: 0,
        }
    }

    // Begins a selection, whose end was not met yet.
    pub(crate) fn begin(&mut self)
        ensures { self.new
            ≡ record self.old { at_end = false; selections = next_count self.old.selections } }
    {
        self.selections = self.selections.saturating_add(1);
        self.at_end = false;
    }

    // Selects nothing, since this input could not be opened.
    pub(crate) fn refuse(&mut self, name: Option<String>)
        ensures state { self.new
            ≡ record self.old {
              selected = None;
              failed = Some name;
              open_faults = next_count self.old.open_faults;
            } }
        ensures never_falls { self.old.open_faults ≤ self.new.open_faults }
    {
        self.selected = None;
        self.failed = Some(name);
        self.open_faults = self.open_faults.saturating_add(1);
    }

    // Selects nothing, since the selected input could not be read.
    pub(crate) fn fail(&mut self)
        ensures state { self.new
            ≡ record self.old {
              selected = None;
              failed = self.old.selected;
              at_end = false;
              read_faults = next_count self.old.read_faults;
            } }
        ensures never_falls { self.old.read_faults ≤ self.new.read_faults }
    {
        self.failed = self.selected.take();
        self.at_end = false;
        self.read_faults = self.read_faults.saturating_add(1);
    }

    // Counts the end of the selected input, where a read with this room that answered `count` met
    // it first.
    pub(crate) fn count_end(&mut self, room: usize, count: usize)
        requires selected { IsSome self.old.selected }
        ensures at_end { self.new.at_end
            ≡ (self.old.at_end
            || meets_end (option_map (option_map string_bytes) self.old.selected) room count) }
        ensures ends { self.new.ends
            ≡ ends_after self.old.at_end self.new.at_end self.old.ends }
        ensures others { self.new
            ≡ record self.old { at_end = self.new.at_end; ends = self.new.ends } }
    {
        if count == 0 && room > 0 && !self.at_end {
            self.at_end = true;
            self.ends = self.ends.saturating_add(1);
        }
    }
}
