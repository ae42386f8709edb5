// Systems of linear equations over fractions.
ghost use Rattle.std.specs.Prelude.{◌≡◌, ◌+◌, ◌<◌, ◌^◌, IfOk};
ghost use Rattle.lex_tableau.specs.Entries.{AreNumbered};
ghost use Rattle.lex_tableau.specs.Starts.{IsSystem, linear_system};

use answers::Memory;
use frac128::Frac;
use std::alloc::Global;
use std::marker::Model;

/// A system of linear equations. Row i says that its basic variable plus the sum of its cells times
/// the nonbasic variables is its right side. The first `rated` rows take part in ratio tests.
///
/// No variable stands twice, each row has a cell for each column and a right side, and `rated` is
/// at most the number of rows. The variables and the number of rows are below 2^32. Rows and
/// columns are counted from 0.
#[derive(Debug, Drop)]
pub struct System {
    /// The basic variables, row by row.
    pub(crate) basics: Vec<u32>,
    /// The nonbasic variables, column by column.
    pub(crate) nonbasics: Vec<u32>,
    /// The cells, row by row, with the right side last in each row.
    pub(crate) cells: Vec<Frac>,
    /// How many of the first rows take part in ratio tests.
    pub(crate) rated: usize,
}

impl Model for System {
    ghost use Rattle.lex_tableau.specs.Starts.{LinearSystem, linear_system, code_of_parts, IsSystem};

    ghost Value = { LinearSystem };

    ghost coded = { code_of_parts };

    ghost view = { λ s. linear_system s.basics.items s.nonbasics.items s.cells.items s.rated };

    ghost invariant = { λ s. IsSystem
        (linear_system s.basics.items s.nonbasics.items s.cells.items s.rated) };
}

impl System {
    /// The system with these variables and cells. The cells stand row by row, with the right side
    /// last in each row. Takes no memory.
    pub fn new(basics: Vec<u32>, nonbasics: Vec<u32>, cells: Vec<Frac>, rated: usize) -> System
        requires { IsSystem (linear_system basics.items nonbasics.items cells.items rated) }
        ensures value { result ≡ linear_system basics.items nonbasics.items cells.items rated }
        ensures valid { IsSystem result }
    {
        System {
            basics,
            nonbasics,
            cells,
            rated,
        }
    }

    /// The basic variables, row by row.
    pub fn basics(&self) -> &[u32]
        ensures value { result.now ≡ self.now.basics }
        ensures valid { IsSystem self.now }
    {
        self.basics.as_slice()
    }

    /// The nonbasic variables, column by column.
    pub fn nonbasics(&self) -> &[u32]
        ensures value { result.now ≡ self.now.nonbasics }
        ensures valid { IsSystem self.now }
    {
        self.nonbasics.as_slice()
    }
}

/// The variables `first`, `first + 1` and so on, `count` of them.
///
/// # Errors
///
/// Memory ran out.
pub fn numbered(alloc: Global, first: u32, count: u32) -> Result<Vec<u32>, Memory>
    requires { first + count < 2 ^ 32 }
    ensures { IfOk result (λ numbers. AreNumbered first count numbers.items) }
{
    Ok((first..first + count).collect(alloc)?)
}
