// The parts of a number's text.
ghost use Rattle.std.specs.Prelude.{◌≡◌};
ghost use Rattle.std.specs.Char.{IsAsciiDigit, is_ascii_digit};
ghost use Rattle.std.specs.List.{All, list_all, prefix_len, take_while};
ghost use Rattle.std.specs.Option.{option_map};
ghost use Rattle.game_text.specs.NumberReading.{are_digits, following, after_sign, is_minus, power_of};

// Whether the text begins with a minus, and what comes after its sign, if it has one.
pub(crate) fn split_sign(text: &[u8]) -> (bool, &[u8])
    ensures negative { result.0 ≡ is_minus text.now }
    ensures rest { result.1.now ≡ after_sign text.now }
{
    match text {
        [b'+', rest @ ..] => (false, rest),
        [b'-', rest @ ..] => (true, rest),
        _ => (false, text),
    }
}

// How many digits come first.
fn digits_count(text: &[u8]) -> usize
    ensures { result ≡ prefix_len is_ascii_digit text.now }
{
    text.iter().take_while(|b| b.is_ascii_digit()).count()
}

// The digits at the front, and what comes after them.
#[tactic(auto, using(crate::proofs::PrefixLemmas::prefix_lengths))]
pub(crate) fn split_digits(text: &[u8]) -> (&[u8], &[u8])
    ensures front { result.0.now ≡ take_while is_ascii_digit text.now }
    ensures digits { All IsAsciiDigit result.0.now }
    ensures rest { result.1.now ≡ following is_ascii_digit text.now }
{
    text.split_at(digits_count(text))
}

fn all_digits(text: &[u8]) -> bool
    ensures { result ≡ list_all is_ascii_digit text.now }
{
    text.iter().all(|b| b.is_ascii_digit())
}

// Whether the text is one or more digits.
#[tactic(auto, unfolding(crate::specs::NumberReading::are_digits))]
pub(crate) fn are_digits(text: &[u8]) -> bool
    ensures { result ≡ are_digits text.now }
{
    all_digits(text) && !text.is_empty()
}

// The digits of an exponent, and whether a minus comes before them. No text is the exponent 0,
// which has no digits.
#[tactic(auto, unfolding(crate::specs::NumberReading::power_of))]
pub(crate) fn split_power(text: &[u8]) -> Option<(bool, &[u8])>
    ensures { option_map (λ power. (power.0, power.1.now)) result ≡ power_of text.now }
{
    match text {
        [] => Some((false, text)),
        [b'e' | b'E', power @ ..] => {
            let (negative, digits) = split_sign(power);
            if are_digits(digits) {
                Some((negative, digits))
            } else {
                None
            }
        }
        _ => None,
    }
}
