// How far an input is read.
use crate::case::Case;
use answers::Memory;
use std::alloc::Global;

// So many spaces.
fn spaces(alloc: Global, count: usize) -> Result<Vec<u8>, Memory> {
    let mut bytes = Vec::new(alloc);
    for _ in 0..count {
        bytes.push(b' ')?;
    }
    Ok(bytes)
}

/// An input is read to the first byte above the limit on bytes and no further: after its selection
/// and 257 reads of 65,536 bytes at most, the next call would fail.
#[test]
fn a_long_input_is_not_read_to_its_end(rt: HostRuntime) -> Result<(), Memory> {
    let input = spaces(rt.alloc(), 16_777_218)?;
    let case = Case {
        failing: &[259],
        status: 1,
        err: "gambit: file longer than 16777216 bytes\n",
        ..Case::of("enumpure", input.as_slice())
    };
    assert!(rt; case.holds(&rt, rt.alloc())?);
    Ok(())
}

/// Where the game of `check` is too long, the lines are not opened: the next call would fail.
#[test]
fn after_a_long_input_no_other_is_opened(rt: HostRuntime) -> Result<(), Memory> {
    let input = spaces(rt.alloc(), 16_777_218)?;
    let case = Case {
        game: str::from_utf8(input.as_slice()).unwrap_or(""),
        failing: &[259],
        status: 1,
        err: "gambit: file longer than 16777216 bytes\n",
        ..Case::of("check game", b"")
    };
    assert!(rt; case.holds(&rt, rt.alloc())?);
    Ok(())
}
