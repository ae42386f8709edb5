// The marks around the parts of a layout.
ghost use Rattle.std.specs.Prelude.{◌≡◌};
ghost use Rattle.convert_tables.specs.Marks.{mark_text, html_mark, sgame_mark};

/// How a table is laid out.
#[derive(Clone, Copy, Debug, PartialEq, Eq)]
pub enum Style {
    /// As a table of a web page.
    Html,
    /// As a game of the LaTeX package sgame.
    Sgame,
}

/// What stands around a part of a layout.
#[derive(Clone, Copy, Debug, PartialEq, Eq)]
pub enum Mark {
    /// Before the heading with the other players' strategies.
    HeadingStart,
    /// After the heading.
    HeadingEnd,
    /// Before the name of a column.
    ColumnStart,
    /// After it.
    ColumnEnd,
    /// After the columns' names.
    ColumnsEnd,
    /// Before the name of a row.
    RowStart,
    /// After it.
    RowNameEnd,
    /// Before the payoffs of a cell.
    CellStart,
    /// After them.
    CellEnd,
    /// After a row that another follows.
    RowEnd,
    /// After the last row.
    LastRowEnd,
    /// After the rows.
    TableEnd,
}

/// The bytes of a mark.
pub(crate) fn mark_text(style: Style, mark: Mark) -> &'static [u8]
    ensures { result.now ≡ mark_text style mark }
{
    match style {
        Style::Html => html_mark(mark),
        Style::Sgame => sgame_mark(mark),
    }
}

fn html_mark(mark: Mark) -> &'static [u8]
    ensures { result.now ≡ html_mark mark }
{
    match mark {
        Mark::HeadingStart => b"<h2>",
        Mark::HeadingEnd => b"</h2>\n",
        Mark::ColumnStart => b"<th>",
        Mark::ColumnEnd => b"</th>",
        Mark::ColumnsEnd => b"</tr>\n",
        Mark::RowStart => b"<tr><th>",
        Mark::RowNameEnd => b"</th>",
        Mark::CellStart => b"<td>",
        Mark::CellEnd => b"</td>",
        Mark::RowEnd => b"</tr>\n",
        Mark::LastRowEnd => b"</tr>\n",
        Mark::TableEnd => b"</table>\n",
    }
}

fn sgame_mark(mark: Mark) -> &'static [u8]
    ensures { result.now ≡ sgame_mark mark }
{
    match mark {
        Mark::HeadingStart => b"",
        Mark::HeadingEnd => b"\n",
        Mark::ColumnStart => b"& ",
        Mark::ColumnEnd => b" ",
        Mark::ColumnsEnd => b"\\\\\n",
        Mark::RowStart => b"",
        Mark::RowNameEnd => b"",
        Mark::CellStart => b" & $",
        Mark::CellEnd => b"$",
        Mark::RowEnd => b" \\\\\n",
        Mark::LastRowEnd => b"\n",
        Mark::TableEnd => b"\\end{game}\n",
    }
}
