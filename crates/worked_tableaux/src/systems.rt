// Systems whose starts, pivots and lexicographic rows were worked by hand.
ghost use Rattle.std.specs.Prelude.{◌≡◌, ◌+◌, ◌*◌, ◌<◌, ◌≤◌, length, IfOk};

use answers::Memory;
use frac128::{Frac, Op, Unfit};
use lex_tableau::{PivotCount, StartStop, System, Tableau, Work, numbered};
use std::alloc::Global;
use std::marker::Brand;
use std::sync::ledger::{Blank, Ledger};

#[derive(Clone, Copy)]
enum Act {
    Pivot(usize, usize),
    Ratio(usize),
}

// What an act gives: a pivot, the step that does not fit, or the row of a column.
#[derive(Clone, Copy)]
enum Outcome<'a> {
    Pivoted,
    Unfit(&'a str),
    Row(Option<usize>),
}

// The tableau at the end: one that is not looked at; its rows; or none, since a step of a row of
// the start does not fit.
#[derive(Clone, Copy)]
enum End<'a> {
    Any,
    Rows(&'a str),
    NoStart(u32, &'a str),
}

// A system, the acts on its tableau with their outcomes, and the end. The cells stand row by row
// with the right side last. The variables of the rows are numbered 0, 1, .., and those of the
// columns from there on.
struct Case<'a> {
    rows: u16,
    width: u16,
    rated: u16,
    cells: &'a str,
    turns: &'a [(Act, Outcome<'a>)],
    end: End<'a>,
}

// In the comments Q is 2^62 and W is 2^126.
const CASES: [Case<'static>; 11] = [
    // Denominators: over 6 the row is 3 -4 5.
    Case {
        rows: 1,
        width: 2,
        rated: 1,
        cells: "1/2 -2/3 5/6",
        turns: &[],
        end: End::Rows("0: 1/2 -2/3 5/6"),
    },
    // A start that does not fit: 1, (Q + 1) / Q, (Q + 2) / (Q + 1), Q / (Q - 1) and 1.
    Case {
        rows: 1,
        width: 4,
        rated: 1,
        cells: "1/1 4611686018427387905/4611686018427387904 4611686018427387906/4611686018427387905 4611686018427387904/4611686018427387903 1/1",
        turns: &[],
        end: End::NoStart(
            0,
            "Mul 21267647932558653971072598982912901120/1 4611686018427387903/1",
        ),
    },
    // The least quotient is 1 / Q, in the second row. Its pivot takes 17 times Q squared.
    Case {
        rows: 2,
        width: 2,
        rated: 2,
        cells: "1/1 18/17 1/1 4611686018427387904/1 4611686018427387905/4611686018427387904 1/1",
        turns: &[
            (Act::Ratio(0), Outcome::Row(Some(1))),
            (
                Act::Pivot(1, 0),
                Outcome::Unfit("Mul 17/1 21267647932558653966460912964485513216/1"),
            ),
        ],
        end: End::Any,
    },
    // A row with 0 in the column stays.
    Case {
        rows: 2,
        width: 2,
        rated: 2,
        cells: "2/1 1/1 1/1 0/1 3/1 1/1",
        turns: &[(Act::Pivot(0, 0), Outcome::Pivoted)],
        end: End::Rows("2: 1/2 1/2 1/2, 1: 0/1 3/1 1/1"),
    },
    // A negative entry.
    Case {
        rows: 2,
        width: 2,
        rated: 2,
        cells: "-2/1 1/1 1/1 4/1 3/1 1/1",
        turns: &[(Act::Pivot(0, 0), Outcome::Pivoted)],
        end: End::Rows("2: -1/2 -1/2 -1/2, 1: 2/1 5/1 3/1"),
    },
    // The second row becomes 2 -2 2 W 0, and then its half. So the next pivot multiplies by half of
    // W, which 4 does not bear.
    Case {
        rows: 2,
        width: 3,
        rated: 2,
        cells: "1/2 2/1 1/2 1/2 1/2 3/1 85070591730234615865843651857942052865/2 1/2",
        turns: &[
            (Act::Pivot(0, 0), Outcome::Pivoted),
            (
                Act::Pivot(1, 2),
                Outcome::Unfit("Mul 4/1 42535295865117307932921825928971026432/1"),
            ),
        ],
        end: End::Rows(
            "2: 2/1 4/1 1/1 1/1, 1: -1/1 1/1 42535295865117307932921825928971026432/1 0/1",
        ),
    },
    // Two products, W and -W, whose difference does not fit, in the middle of a row. Nothing has
    // changed then.
    Case {
        rows: 2,
        width: 2,
        rated: 2,
        cells: "1/1 -85070591730234615865843651857942052864/1 1/1 1/1 85070591730234615865843651857942052864/1 1/1",
        turns: &[(
            Act::Pivot(0, 0),
            Outcome::Unfit(
                "Sub 85070591730234615865843651857942052864/1 -85070591730234615865843651857942052864/1",
            ),
        )],
        end: End::Rows(
            "0: 1/1 -85070591730234615865843651857942052864/1 1/1, 1: 1/1 85070591730234615865843651857942052864/1 1/1",
        ),
    },
    // A tie that the second key breaks: the first row has 1 of its own variable.
    Case {
        rows: 2,
        width: 1,
        rated: 2,
        cells: "1/1 1/1 1/1 1/1",
        turns: &[(Act::Ratio(0), Outcome::Row(Some(1)))],
        end: End::Any,
    },
    // A tie that the last key breaks: both rows have 1 of variable 0, and the second has 0 of
    // variable 1.
    Case {
        rows: 2,
        width: 3,
        rated: 2,
        cells: "1/1 0/1 1/1 1/1 -1/1 1/1 0/1 0/1",
        turns: &[
            (Act::Pivot(1, 0), Outcome::Pivoted),
            (Act::Pivot(0, 1), Outcome::Pivoted),
            (Act::Ratio(2), Outcome::Row(Some(1))),
        ],
        end: End::Rows("3: 1/1 1/1 1/1 1/1, 2: 0/1 1/1 1/1 1/1"),
    },
    // A row that is not rated has the least quotient.
    Case {
        rows: 2,
        width: 1,
        rated: 1,
        cells: "1/1 2/1 1/1 1/1",
        turns: &[(Act::Ratio(0), Outcome::Row(Some(0)))],
        end: End::Any,
    },
    // No positive entry.
    Case {
        rows: 2,
        width: 2,
        rated: 2,
        cells: "-1/1 0/1 1/1 0/1 0/1 1/1",
        turns: &[
            (Act::Ratio(0), Outcome::Row(None)),
            (Act::Ratio(1), Outcome::Row(None)),
        ],
        end: End::Any,
    },
];

// The fraction that a word is.
fn fraction(word: &str) -> Option<Frac> {
    let (num, den) = word.split_once('/')?;
    Frac::new(num.parse::<i128>().ok()?, den.parse::<i128>().ok()?)
}

// The fractions among words.
fn fractions(alloc: Global, words: &str) -> Result<Vec<Frac>, Memory> {
    let mut list = Vec::new(alloc);
    for word in words.split(' ') {
        if let Some(value) = fraction(word) {
            list.push(value)?;
        }
    }
    Ok(list)
}

// The system with these cells.
fn system(
    alloc: Global,
    rows: u16,
    width: u16,
    rated: u16,
    cells: Vec<Frac>,
) -> Result<System, Memory>
    requires rated { rated ≤ rows }
    requires cells { length cells.items ≡ rows * (width + 1) }
    ensures { IfOk result (λ s. s.rated ≡ rated) }
{
    let basics = numbered(alloc, 0, rows as u32)?;
    let nonbasics = numbered(alloc, rows as u32, width as u32)?;
    Ok(System::new(basics, nonbasics, cells, rated as usize))
}

// The step that words name: its operation and both operands.
fn step(words: &str) -> Option<Unfit> {
    let (op, operands) = words.split_once(' ')?;
    let (left, right) = operands.split_once(' ')?;
    let op = match op {
        "Sub" => Op::Sub,
        "Mul" => Op::Mul,
        _ => return None,
    };
    Some(Unfit {
        op,
        left: fraction(left)?,
        right: fraction(right)?,
    })
}

// Whether these are the entries of a row and its right side.
fn is_row(tableau: &Tableau, row: usize, words: &str) -> bool
    requires { row < length tableau.now.basics }
{
    let mut numbers = words.split(' ');
    for col in 0..tableau.nonbasics().len() {
        match numbers.next() {
            Some(word) if fraction(word) == Some(tableau.entry(row, col)) => {}
            _ => return false,
        }
    }
    match numbers.next() {
        Some(word) => fraction(word) == Some(tableau.right(row)) && numbers.next().is_none(),
        None => false,
    }
}

// Whether these are the rows of a tableau, each after its basic variable.
fn is_tableau(tableau: &Tableau, words: &str) -> bool {
    let mut rows = words.split(", ");
    for row in 0..tableau.basics().len() {
        match rows.next().and_then(|line| line.split_once(": ")) {
            Some((basic, numbers))
                if basic.parse::<u32>() == Ok(tableau.basic(row))
                    && is_row(tableau, row, numbers) => {}
            _ => return false,
        }
    }
    rows.next().is_none()
}

impl<'a> Outcome<'a> {
    // Whether a pivot ends so.
    fn is_pivot(self, end: Result<(), Unfit>) -> bool {
        match (self, end) {
            (Outcome::Pivoted, Ok(())) => true,
            (Outcome::Unfit(wanted), Err(unfit)) => step(wanted) == Some(unfit),
            _ => false,
        }
    }

    // Whether this is the row of a column.
    fn is_row(self, row: Option<usize>) -> bool {
        matches!(self, Outcome::Row(wanted) if wanted == row)
    }
}

// A tableau whose number of rated rows is known.
#[derive(Drop)]
struct Rated {
    work: Work,
    rated: usize,
    ghost counted: { work.rated ≡ rated },
}

impl Rated {
    // Whether an act ends so.
    fn ends<L: Ledger>(&mut self, act: Act, outcome: Outcome, pivots: &mut PivotCount<L>) -> bool {
        let rows = self.work.now().basics().len();
        let width = self.work.now().nonbasics().len();
        match act {
            Act::Ratio(col) if col < width => outcome.is_row(self.work.now().ratio_row(col)),
            Act::Pivot(row, col) if row < rows && row < self.rated && col < width => {
                if self.work.now().entry(row, col).is_zero() {
                    return false;
                }
                outcome.is_pivot(self.work.pivot(row, col, pivots))
            }
            _ => false,
        }
    }
}

impl<'a> Case<'a> {
    // Whether everything ends as it is wanted.
    fn holds<L: Ledger>(&self, alloc: Global, blank: Blank) -> Result<bool, Memory>
        requires { (L.parts ≡ blank.parts) × (L.name ≡ blank.name) × (0 < blank.parts) }
    {
        let cells = fractions(alloc, self.cells)?;
        if self.rated > self.rows || cells.len() != self.rows as usize * (self.width as usize + 1) {
            return Ok(false);
        }
        let system = system(alloc, self.rows, self.width, self.rated, cells)?;
        match Work::new(alloc, &system) {
            Ok(work) => {
                let rated = self.rated as usize;
                Ok(self.turns_hold(Rated { work, rated }, PivotCount::<L>::new(blank)))
            }
            Err(StartStop::Unfit { row, unfit }) => Ok(self.has_no_start(row, unfit)),
            Err(StartStop::Memory) => Err(Memory),
        }
    }

    // Whether there is to be no start, for this step of this row.
    fn has_no_start(&self, row: u32, unfit: Unfit) -> bool {
        match self.end {
            End::NoStart(number, wanted) => number == row && step(wanted) == Some(unfit),
            _ => false,
        }
    }

    // Whether the acts and the rows at the end are those that are wanted.
    fn turns_hold<L: Ledger>(&self, mut tableau: Rated, mut pivots: PivotCount<L>) -> bool {
        for (act, outcome) in self.turns {
            if !tableau.ends(*act, *outcome, &mut pivots) {
                return false;
            }
        }
        match self.end {
            End::Any => true,
            End::Rows(words) => is_tableau(tableau.work.now(), words),
            End::NoStart(_, _) => false,
        }
    }
}

#[test]
fn worked_systems(rt: HostRuntime) -> Result<(), Memory> {
    for (number, case) in CASES.iter().enumerate() {
        assert!(rt;
            case.holds::<Brand>(rt.alloc(), Blank::new(1))?,
            "case {number}"
        );
    }
    Ok(())
}
