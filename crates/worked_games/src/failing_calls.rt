// Calls of the inputs and of the output that fail.
use crate::case::Case;
use answers::Memory;
use std::alloc::Global;
use std::thread::Threads;

const DILEMMA: &str = "NFG 1 R \"PD\" { \"A\" \"B\" } { 2 2 } 3 3 5 0 0 5 1 1";

const BATTLE: &str = "NFG 1 R \"\" { \"A\" \"B\" } { 2 2 } 2 1 0 0 0 0 1 2";

const PENNIES: &str = "NFG 1 R \"\" { \"A\" \"B\" } { 2 2 } 1 -1 -1 1 -1 1 1 -1";

const ENTRY: &str =
    "EFG 2 R \"Entry\" { \"E\" \"I\" } p \"\" 1 1 \"\" { \"Out\" \"In\" } 0 t \"\" 1 \"Out\" { 0, 2 } \
p \"\" 2 1 \"\" { \"Fight\" \"Accommodate\" } 0 t \"\" 2 \"Fight\" { -1, -1 } t \"\" 3 \"Share\" { 1, 1 }";

// Whether the run with each of these lists of failing calls of the inputs writes nothing, and ends
// with the line that stands beside it and status 3.
fn failing_inputs_are_told<R: Threads + Sync>(
    rt: &R,
    alloc: Global,
    whole: Case,
    rows: &[(&[u64], &str)],
) -> Result<bool, Memory> {
    for (failing, err) in rows {
        let case = Case {
            failing,
            status: 3,
            out: &[],
            err,
            ..whole
        };
        if !case.holds(rt, alloc)? {
            return Ok(false);
        }
    }
    Ok(true)
}

// Whether the write that fails is told after each number of bytes.
fn failing_writes_are_told<R: Threads + Sync>(
    rt: &R,
    alloc: Global,
    whole: Case,
) -> Result<bool, Memory> {
    let text = whole.out;
    for room in 0..text.len() {
        let case = Case {
            room,
            status: 4,
            out: &text[..room],
            err: "gambit: write failed\n",
            ..whole
        };
        if !case.holds(rt, alloc)? {
            return Ok(false);
        }
    }
    Ok(true)
}

// Whether the flush that fails is told.
fn a_failing_flush_is_told<R: Threads + Sync>(
    rt: &R,
    alloc: Global,
    whole: Case,
) -> Result<bool, Memory> {
    let case = Case {
        flush_fails: true,
        status: 4,
        err: "gambit: write failed\n",
        ..whole
    };
    case.holds(rt, alloc)
}

/// Each selection, read, write and flush that fails, in turn, on tables and on a tree: the
/// selection, the first read, the read that would find the end; no other call of the inputs is
/// made. Where the text is empty, nothing is written, but a flush still has to succeed.
#[test]
fn each_failing_call_is_told(rt: HostRuntime) -> Result<(), Memory> {
    let calls: [(&[u64], &str); 4] = [
        (&[1], "gambit: cannot open\n"),
        (&[2], "gambit: read failed\n"),
        (&[3], "gambit: read failed\n"),
        (&[1, 2, 3], "gambit: cannot open\n"),
    ];
    let rows = [
        ("enumpure", DILEMMA, "NE,0,1,0,1\n"),
        ("enumpure", ENTRY, "NE,1,0,1,0\nNE,0,1,0,1\n"),
        (
            "enummixed",
            BATTLE,
            "NE,1,0,1,0\nNE,2/3,1/3,1/3,2/3\nNE,0,1,0,1\n",
        ),
    ];
    for (words, input, out) in rows {
        let whole = Case {
            out: out.as_bytes(),
            ..Case::of(words, input.as_bytes())
        };
        assert!(rt; failing_inputs_are_told(&rt, rt.alloc(), whole, &calls)?);
        let unread = Case {
            failing: &[0, 4],
            ..whole
        };
        assert!(rt; unread.holds(&rt, rt.alloc())?);
        for out_most in [1, 7, 1000] {
            let slow = Case { out_most, ..whole };
            assert!(rt; failing_writes_are_told(&rt, rt.alloc(), slow)?);
            assert!(rt; slow.holds(&rt, rt.alloc())?);
        }
        assert!(rt; a_failing_flush_is_told(&rt, rt.alloc(), whole)?);
    }
    let empty = Case {
        room: 0,
        ..Case::of("enumpure", PENNIES.as_bytes())
    };
    assert!(rt; empty.holds(&rt, rt.alloc())?);
    assert!(rt; a_failing_flush_is_told(&rt, rt.alloc(), empty)?);
    Ok(())
}

/// Each selection and each read of both inputs of `check` fails in turn: the game is selected and
/// read in two calls, and then the lines. Nothing is written. No other call is made.
#[test]
fn failing_inputs_of_check(rt: HostRuntime) -> Result<(), Memory> {
    let calls: [(&[u64], &str); 6] = [
        (&[1], "gambit: cannot open\n"),
        (&[2], "gambit: read failed\n"),
        (&[3], "gambit: read failed\n"),
        (&[4], "gambit: cannot open\n"),
        (&[5], "gambit: read failed\n"),
        (&[6], "gambit: read failed\n"),
    ];
    let whole = Case {
        game: BATTLE,
        failing: &[7],
        out: b"equilibrium\n",
        ..Case::of("check game", b"NE,1,0,1,0\n")
    };
    assert!(rt; failing_inputs_are_told(&rt, rt.alloc(), whole, &calls)?);
    assert!(rt; whole.holds(&rt, rt.alloc())?);
    Ok(())
}

/// The output takes fewer bytes than the text has, each number of them in turn.
#[test]
fn failing_outputs(rt: HostRuntime) -> Result<(), Memory> {
    let rows = [
        (
            "check game",
            BATTLE,
            "NE,1,0,1,0\nNE,1/2,1/2,1,0\n",
            "equilibrium\nbetter,1,1,2,1\n",
        ),
        (
            "convert -O sgame game",
            DILEMMA,
            "",
            "\\begin{game}{2}{2}[A][B]\n& 1 & 2 \\\\\n1 & $3,3$ & $0,5$ \\\\\n2 & $5,0$ & $1,1$\n\\end{game}\n",
        ),
        ("lcp game", DILEMMA, "", "NE,0,1,0,1\n"),
        ("lp game", PENNIES, "", "NE,1/2,1/2,1/2,1/2\n"),
        (
            "make 1 2 2",
            "",
            "",
            "bases 4 3\nvertices 3 2\nequilibria 1\n",
        ),
    ];
    for (words, game, input, out) in rows {
        let whole = Case {
            game,
            out: out.as_bytes(),
            ..Case::of(words, input.as_bytes())
        };
        assert!(rt; failing_writes_are_told(&rt, rt.alloc(), whole)?);
    }
    Ok(())
}
