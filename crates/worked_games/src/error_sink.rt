// Faults of standard error.
use crate::case::Case;
use answers::Memory;

/// A fault of standard error changes no status, and leaves a front of the line: the words, the
/// input, the bytes that standard error takes, the status, and what it took.
#[test]
fn faults_of_the_error_sink_change_nothing(rt: HostRuntime) -> Result<(), Memory> {
    let large = "NFG 1 R \"\" { \"A\" } { 1048577 }";
    let rows = [
        ("", "", 0, 2, ""),
        ("", "", 3, 2, "gam"),
        ("", "", 16, 2, "gambit: no tool\n"),
        ("enumpure", "", 0, 1, ""),
        ("enumpure", "", 7, 1, "gambit:"),
        ("enumpure", "", 31, 1, "gambit: nfg fault at 0: header\n"),
        ("enumpure", large, 0, 1, ""),
        ("enumpure", large, 19, 1, "gambit: too large: "),
    ];
    for (words, input, err_room, status, err) in rows {
        let case = Case {
            err_room,
            status,
            err,
            ..Case::of(words, input.as_bytes())
        };
        assert!(rt; case.holds(&rt, rt.alloc())?, "{err_room} {err}");
    }
    Ok(())
}
