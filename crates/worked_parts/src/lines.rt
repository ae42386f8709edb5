// Lines of profiles: how they are written, and which are read.
use crate::fractions::parsed;
use answers::Memory;
use frac128::Frac;
use ne_printer::{LineStop, first_line, fraction, line, push_numbers, read_line};
use std::alloc::Global;

// Entries with the line that they are written as and read from; the first line has none.
const LINES: &str = " | NE,
1/1 0/1 | NE,1,0
2/3 1/3 | NE,2/3,1/3
170141183460469231731687303715884105727/1 | NE,170141183460469231731687303715884105727";

// Lines that are no profiles, the first of them empty.
const BAD: &str = "
NE
ne,1
NE,1,
NE,,1
NE, 1
NE,1/0
NE,1/2/3
NE,/2
NE,1/
NE,-1
NE,0.5
NE,170141183460469231731687303715884105728
NE,0000000000000000000000000000000000000001";

// The fractions among words.
fn fractions(alloc: Global, words: &str) -> Result<Vec<Frac>, Memory> {
    let mut fractions = Vec::new(alloc);
    for word in words.split(' ') {
        if let Some(value) = parsed(word) {
            fractions.push(value)?;
        }
    }
    Ok(fractions)
}

// Whether these entries are written as a line.
fn is_written(alloc: Global, entries: &str, text: &str) -> Result<bool, Memory> {
    let entries = fractions(alloc, entries)?;
    let line = line(alloc, &entries)?;
    let text = format!(in alloc; "{text}\n")?;
    Ok(line.as_slice() == text.as_bytes())
}

// Whether these entries are read from a line.
fn is_read(alloc: Global, entries: &str, text: &str) -> Result<bool, LineStop> {
    let entries = fractions(alloc, entries).map_err(|_| LineStop::Memory)?;
    let read = read_line(alloc, text.as_bytes())?;
    Ok(read.as_slice() == entries.as_slice())
}

// Whether a line is none of a profile.
fn is_bad(alloc: Global, text: &str) -> bool {
    matches!(read_line(alloc, text.as_bytes()), Err(LineStop::Bad))
}

// The line of a name and two numbers.
fn numbers(alloc: Global) -> Result<Vec<u8>, Memory> {
    let numbers = fractions(alloc, "0/1 -5/3")?;
    let mut line = Vec::new(alloc);
    push_numbers(alloc, &mut line, b"raw", &numbers)?;
    Ok(line)
}

#[test]
fn lines_are_written(rt: HostRuntime) -> Result<(), Memory> {
    let alloc = rt.alloc();
    for row in LINES.split('\n') {
        let (entries, text) = row.split_once(" | ").unwrap_or((row, ""));
        assert!(rt; is_written(alloc, entries, text)?, "{row}");
    }
    assert!(rt; is_written(alloc, "-1/2 10/1 9/1", "NE,-1/2,10,9")?);
    assert!(rt; numbers(alloc)?.as_slice() == b"raw,0,-5/3\n".as_slice());
    for row in ["-7/1 -7", "22/7 22/7", "0/1 0"] {
        let (word, text) = row.split_once(' ').unwrap_or((row, ""));
        let value = parsed(word).unwrap_or(Frac::one());
        assert!(rt;
            fraction(alloc, value)?.as_slice() == text.as_bytes(),
            "{row}"
        );
    }
    Ok(())
}

#[test]
fn lines_are_read(rt: HostRuntime) -> Result<(), LineStop> {
    let alloc = rt.alloc();
    for row in LINES.split('\n') {
        let (entries, text) = row.split_once(" | ").unwrap_or((row, ""));
        assert!(rt; is_read(alloc, entries, text)?, "{row}");
    }
    assert!(rt; is_read(alloc, "1/2 7/1", "NE,2/4,007")?);
    for text in BAD.split('\n') {
        assert!(rt; is_bad(alloc, text), "{text}");
    }
    assert!(rt; is_bad(alloc, "NE,1\n"));
    Ok(())
}

// Whether the first line of a text is this one, and this stands after it.
fn is_cut(text: &str, line: &str, rest: &str) -> bool {
    match first_line(text.as_bytes()) {
        Some((first, following)) => first == line.as_bytes() && following == rest.as_bytes(),
        None => false,
    }
}

/// A text is cut at its first line feed; without one it is a single line, and an empty one has
/// none.
#[test]
fn first_lines_are_cut(rt: HostRuntime) {
    assert!(rt; is_cut("NE,1\n\nNE,0\n", "NE,1", "\nNE,0\n"));
    assert!(rt; is_cut("\nNE,0\n", "", "NE,0\n"));
    assert!(rt; is_cut("NE,0", "NE,0", ""));
    assert!(rt; first_line(b"").is_none());
}
