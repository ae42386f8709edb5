// Counts and their limits.
use game_core::{TooLarge, What};

/// A count that is the limit is within it, and the next one is not.
#[test]
fn counts_are_held_against_limits(rt: HostRuntime) {
    let above = TooLarge {
        what: What::Rows,
        count: 513,
        limit: 512,
    };
    assert!(rt; TooLarge::within(What::Rows, 512, 512) == Ok(()));
    assert!(rt; TooLarge::within(What::Rows, 512, 513) == Err(above));
    assert!(rt; TooLarge::first_above(What::Rows, 512) == above);
}
