// Blanks and bare runs.
ghost use Rattle.std.specs.Prelude.{◌≡◌, drop};
ghost use Rattle.std.specs.List.{prefix_len};
ghost use Rattle.game_text.specs.Reading.{is_blank, is_letter, is_bare};

fn is_blank(byte: u8) -> bool
    ensures { result ≡ is_blank byte }
{
    matches!(byte, b' ' | b'\t'..=b'\r')
}

/// Whether the byte is an ASCII letter.
pub(crate) fn is_letter(byte: u8) -> bool
    ensures { result ≡ is_letter byte }
{
    matches!(byte, b'A'..=b'Z' | b'a'..=b'z')
}

fn is_bare(byte: u8) -> bool
    ensures { result ≡ is_bare byte }
{
    is_letter(byte) || matches!(byte, b'0'..=b'9' | b'+' | b'-' | b'.' | b'/')
}

fn blank_length(bytes: &[u8]) -> usize
    ensures { result ≡ prefix_len is_blank bytes.now }
{
    bytes.iter().take_while(|byte| is_blank(**byte)).count()
}

/// The bytes from the first that is no blank.
#[tactic(auto, using(crate::proofs::PrefixLemmas::prefix_lengths))]
pub(crate) fn without_blanks(bytes: &[u8]) -> &[u8]
    ensures { result.now ≡ drop (prefix_len is_blank bytes.now) bytes.now }
{
    let (_, rest) = bytes.split_at(blank_length(bytes));
    rest
}

/// How many bare bytes come before anything else.
pub(crate) fn bare_length(bytes: &[u8]) -> usize
    ensures { result ≡ prefix_len is_bare bytes.now }
{
    bytes.iter().take_while(|byte| is_bare(**byte)).count()
}
