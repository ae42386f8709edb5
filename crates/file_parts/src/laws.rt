// What the reading functions read: exactly what the productions derive.
ghost use Rattle.file_parts.specs.Laws.{WholeNumbersAreRead, NamesAreRead, PayoffsAreRead, TitlesAreRead};

/// A whole number is read exactly where one stands.
pub fn whole_numbers_are_read()
    ensures { WholeNumbersAreRead }
{}

/// Names are read exactly where one or more texts stand in braces.
pub fn names_are_read<K>()
    ensures { NamesAreRead K }
{}

/// So many payoffs are read exactly where so many numbers stand.
pub fn payoffs_are_read<K>()
    ensures { PayoffsAreRead K }
{}

/// A title is read exactly where one stands after the header of its format.
pub fn titles_are_read<K>()
    ensures { TitlesAreRead K }
{}
