// The readers of a table, on a table that is written by hand.
use answers::Memory;
use game_core::{Table, profile_count};
use game_text::read_tokens;
use ne_printer::fraction;
use nfg_reader::read;
use std::alloc::Global;

// Three players with two, three and one strategies. The payoffs are 0, 1, 2 and so on, so that
// profile k pays player i the number 3 k + i.
const THREE: &[u8] = br#"NFG 1 R "" { "A" "B" "C" } { 2 3 1 }
0 1 2  3 4 5  6 7 8  9 10 11  12 13 14  15 16 17"#;

// The table that a text stands for; nothing where it is none.
fn table_of(alloc: Global, text: &[u8]) -> Option<Table> {
    let Ok(tokens) = read_tokens(alloc, text) else {
        return None;
    };
    read(alloc, &tokens).ok()
}

// For each player the number of strategies, the stride, and the payoffs profile by profile.
fn readings(alloc: Global, table: &Table) -> Result<Vec<u8>, Memory> {
    let counts = table.strategy_counts(alloc)?;
    let profiles = profile_count(&counts);
    let mut text = Vec::new(alloc);
    for player in 0..table.players().len() {
        let strategies = table.strategy_count(player);
        let stride = table.stride(player);
        text.extend_from_slice(format!(in alloc; "{strategies} {stride}:")?.as_bytes())?;
        for profile in 0..profiles {
            text.push(b' ')?;
            text.extend_from_slice(&fraction(alloc, table.payoff_at(profile, player))?)?;
        }
        text.push(b';')?;
    }
    Ok(text)
}

/// The next strategy of the first player is the next profile, of the second 2 profiles further, and
/// of the third 2 * 3.
#[test]
fn tables_are_read(rt: HostRuntime) -> Result<(), Memory> {
    let table = table_of(rt.alloc(), THREE).expect(&rt, "a table");
    let read = readings(rt.alloc(), &table)?;
    let wanted = "2 1: 0 3 6 9 12 15;3 2: 1 4 7 10 13 16;1 6: 2 5 8 11 14 17;";
    assert!(rt; read.as_slice() == wanted.as_bytes());
    Ok(())
}
