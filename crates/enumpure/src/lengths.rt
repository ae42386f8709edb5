// How many bytes the lines have, counted before they are written.
ghost use Rattle.std.specs.Prelude.{◌≡◌, ◌*◌, ◌<◌, ◌≤◌, ◌^◌, ℕ, List, All, length};
ghost use Rattle.game_theory.specs.Profiles.{profile_count};
ghost use Rattle.game_theory.specs.Mixed.{pure};
ghost use Rattle.game_theory.specs.Lines.{entries, line_text, lines_text};
ghost use Rattle.game_core.specs.Table.{most_payoffs};
ghost use Rattle.enumpure.specs.Ranks.{lines_below};

// How many bytes the line of each pure profile has: besides `NE` and the line feed a comma and a
// digit for each strategy, or a comma alone.
fn line_length(counts: &[usize]) -> usize
    requires some { All (λ n. 0 < n) counts.now }
    requires players { length counts.now < 2 ^ 40 }
    requires few { profile_count counts.now ≤ most_payoffs }
    ensures each { (profile : List ℕ)
        → length (line_text (entries counts.now (pure profile))) ≡ result }
    ensures fits { profile_count counts.now * result < 2 ^ 64 }
{
    let mut strategies = 0;
    for count in counts {
        strategies += *count;
    }
    if strategies == 0 {
        4
    } else {
        3 + 2 * strategies
    }
}

/// How many bytes the lines of the profiles that pass have, where the players have so many
/// strategies.
pub(crate) fn text_length(counts: &[usize], passes: &[bool]) -> usize
    requires some { All (λ n. 0 < n) counts.now }
    requires players { length counts.now < 2 ^ 40 }
    requires few { length passes.now ≤ most_payoffs }
    requires each { length passes.now ≡ profile_count counts.now }
    ensures { result ≡ length (lines_text (lines_below counts.now passes.now
        (length passes.now))) }
{
    passes.iter().filter(|passes| **passes).count() * line_length(counts)
}
