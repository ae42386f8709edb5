// The texts that were collected from the words, each tested by hand.

ghost use Rattle.std.specs.Prelude.{◌≡◌, Some, option_map, string_bytes, IfOk, IfErr};
ghost use Rattle.words.specs.Commands.{collected};
ghost use Rattle.words.specs.Words.{at_most_one, is_one_or_none, layout_of, number_from, number_in_range, IsNotUnderstood, IsRefused};

use crate::{Layout, SettingsStop, Usage};
use std::alloc::Global;

/// The text, where there is at most one.
pub(crate) fn at_most_one<'a>(texts: Option<&[&'a str]>) -> Result<Option<&'a str>, Usage>
    ensures one { IfOk result (λ t. at_most_one (collected texts.entry)
        ≡ Some (option_map (λ s. s.now) t)) }
    ensures refused { IfErr result (IsNotUnderstood (at_most_one (collected texts.entry))) }
{
    match texts {
        None | Some([]) => Ok(None),
        Some([text]) => Ok(Some(*text)),
        Some(_) => Err(Usage::Words),
    }
}

// A copy of the text.
fn owned(alloc: Global, text: Option<&str>) -> Result<Option<String>, SettingsStop>
    ensures copy { IfOk result
        (λ t. option_map string_bytes t ≡ option_map (λ s. s.now) text.entry) }
    ensures memory { IfErr result (λ e. e ≡ SettingsStop.Memory) }
{
    let Some(text) = text else {
        return Ok(None);
    };
    Ok(Some(String::from_str(alloc, text)?))
}

/// The name of a file, where there is at most one.
pub(crate) fn file_from(
    alloc: Global,
    texts: Option<&[&str]>,
) -> Result<Option<String>, SettingsStop>
    ensures one { IfOk result (λ f. at_most_one (collected texts.entry)
        ≡ Some (option_map string_bytes f)) }
    ensures refused { IfErr result (IsRefused (at_most_one (collected texts.entry))) }
{
    let text = at_most_one(texts)?;
    owned(alloc, text)
}

/// A number of one to ten digits, in its range.
pub(crate) fn number_in_range(text: &str, least: u32, most: u32) -> Option<u32>
    ensures { result ≡ number_in_range least most text.now }
{
    if text.starts_with('+') || text.len() > 10 {
        return None;
    }
    match text.parse::<u32>() {
        Ok(number) if least <= number && number <= most => Some(number),
        _ => None,
    }
}

/// The number that an option gives, or its default.
pub(crate) fn number_from(
    texts: Option<&[&str]>,
    default: u32,
    least: u32,
    most: u32,
) -> Result<u32, Usage>
    ensures number { IfOk result (λ n. number_from default least most (collected texts.entry)
        ≡ Some n) }
    ensures refused { IfErr result
        (IsNotUnderstood (number_from default least most (collected texts.entry))) }
{
    let Some(text) = at_most_one(texts)? else {
        return Ok(default);
    };
    number_in_range(text, least, most).ok_or(Usage::Words)
}

/// Whether `-e` is left out, or is `1`.
pub(crate) fn is_one_or_none(text: Option<&str>) -> bool
    ensures { result ≡ is_one_or_none (option_map (λ s. s.now) text.entry) }
{
    match text {
        Some(text) => text == "1",
        None => true,
    }
}

/// The layout with this name.
pub(crate) fn layout_of(text: Option<&str>) -> Option<Layout>
    ensures { result ≡ layout_of (option_map (λ s. s.now) text.entry) }
{
    match text? {
        "html" => Some(Layout::Html),
        "sgame" => Some(Layout::Sgame),
        _ => None,
    }
}
