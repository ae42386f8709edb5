// Names, with the bytes that mean something else in a layout written otherwise.
ghost use Rattle.std.specs.Prelude.{◌≡◌, ◌++◌, OnOk, option_map};
ghost use Rattle.convert_tables.specs.Names.{found, html_escapes, sgame_escapes, escapes, written, name_text, marked_text};

use crate::marks::{Mark, Style, mark_text};
use answers::Memory;

// What stands for a byte in HTML, where it is not the byte itself.
fn html_escape(byte: u8) -> Option<&'static [u8]>
    ensures { option_map (λ text. text.now) result ≡ found html_escapes byte }
{
    match byte {
        b'\n' | b'\r' => Some(b" "),
        b'&' => Some(b"&amp;"),
        b'<' => Some(b"&lt;"),
        b'>' => Some(b"&gt;"),
        b'"' => Some(b"&quot;"),
        _ => None,
    }
}

// What stands for a byte in LaTeX, where it is not the byte itself.
fn sgame_escape(byte: u8) -> Option<&'static [u8]>
    ensures { option_map (λ text. text.now) result ≡ found sgame_escapes byte }
{
    match byte {
        b'\n' | b'\r' => Some(b" "),
        b'#' => Some(b"\\#"),
        b'$' => Some(b"\\$"),
        b'%' => Some(b"\\%"),
        b'&' => Some(b"\\&"),
        b'_' => Some(b"\\_"),
        b'{' => Some(b"\\{"),
        b'}' => Some(b"\\}"),
        b'[' => Some(b"{[}"),
        b']' => Some(b"{]}"),
        b'\\' => Some(b"\\textbackslash{}"),
        b'~' => Some(b"\\textasciitilde{}"),
        b'^' => Some(b"\\textasciicircum{}"),
        _ => None,
    }
}

// What stands for a byte, where it is not the byte itself.
fn escape(style: Style, byte: u8) -> Option<&'static [u8]>
    ensures { option_map (λ text. text.now) result ≡ found (escapes style) byte }
{
    match style {
        Style::Html => html_escape(byte),
        Style::Sgame => sgame_escape(byte),
    }
}

// Adds a byte of a name.
fn push_byte(text: &mut Vec<u8>, style: Style, byte: u8) -> Result<(), Memory>
    ensures { OnOk result (text.new.items ≡ text.old.items ++ written style byte) }
{
    match escape(style, byte) {
        Some(escaped) => text.extend_from_slice(escaped)?,
        None => text.push(byte)?,
    }
    Ok(())
}

/// Adds a name.
pub(crate) fn push_name(text: &mut Vec<u8>, style: Style, name: &[u8]) -> Result<(), Memory>
    ensures { OnOk result (text.new.items ≡ text.old.items ++ name_text style name.now) }
{
    for byte in name {
        push_byte(text, style, *byte)?;
    }
    Ok(())
}

/// Adds a name between two marks.
pub(crate) fn push_marked(
    text: &mut Vec<u8>,
    style: Style,
    start: Mark,
    name: &[u8],
    end: Mark,
) -> Result<(), Memory>
    ensures { OnOk result (text.new.items
        ≡ text.old.items ++ marked_text style start name.now end) }
{
    text.extend_from_slice(mark_text(style, start))?;
    push_name(text, style, name)?;
    text.extend_from_slice(mark_text(style, end))?;
    Ok(())
}
