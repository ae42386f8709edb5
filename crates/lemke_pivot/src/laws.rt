// The laws of the path, of the problem and of the answers. The functions do nothing: the contract
// of each is a law, so that a check proves it.
ghost use Rattle.lemke_pivot.specs.AnsweredLaws.{EndsAreAnswered, ProblemsAreAnswered};
ghost use Rattle.lemke_pivot.specs.Ends.{EndsAreSingle};
ghost use Rattle.lemke_pivot.specs.FormProblems.{ProblemsAreOfForms, ProblemsAreSingle};
ghost use Rattle.lemke_pivot.specs.ProblemLaws.{NoBasisOccursTwice, PathsAreShort, PathsAreUnique, PathsEndSolved, PathsEndInRays, FirstRowsExist, NoRay, AlwaysALeavingRow, LeastIsNegative, SolutionsHavePlans};
ghost use Rattle.lemke_pivot.specs.SolutionLaws.{SolutionsSolveTables, SolutionsSolveTheForm, SolutionsSolveTrees};

/// No basis of the path occurs twice.
pub fn no_basis_occurs_twice()
    ensures { NoBasisOccursTwice }
{}

/// A path of a problem with n rows has at most 2^(2n + 2) pivots.
pub fn paths_are_short()
    ensures { PathsAreShort }
{}

/// The path has at most one course.
pub fn paths_are_unique()
    ensures { PathsAreUnique }
{}

/// Where the value of z0 is 0, the problem is solved.
pub fn paths_end_solved()
    ensures { PathsEndSolved }
{}

/// Where the value of z0 is not 0 and no row leaves, there is a ray.
pub fn paths_end_in_rays()
    ensures { PathsEndInRays }
{}

/// z0 has a row to enter at, where a right side is negative.
pub fn first_rows_exist()
    ensures { FirstRowsExist }
{}

/// The problem of two sides with plans has no ray where the sums of both players' costs are not
/// negative.
pub fn there_is_no_ray()
    ensures { NoRay }
{}

/// On the path of such a problem each variable that enters has a leaving row.
pub fn always_a_leaving_row()
    ensures { AlwaysALeavingRow }
{}

/// The least right side of two sides is negative.
pub fn least_is_negative()
    ensures { LeastIsNegative }
{}

/// A solution of two sides has plans and prices.
pub fn solutions_have_plans()
    ensures { SolutionsHavePlans }
{}

/// The problem of a form is that of its plans and costs.
pub fn problems_are_of_forms()
    ensures { ProblemsAreOfForms }
{}

/// A form has at most one answer: its problem, or the reason why it has none.
pub fn problems_are_single()
    ensures { ProblemsAreSingle }
{}

/// A form has an answer: its problem, or the reason why it has none.
pub fn problems_are_answered()
    ensures { ProblemsAreAnswered }
{}

/// The plans and prices of a solution solve the form's complementarity problem.
pub fn solutions_solve_the_form()
    ensures { SolutionsSolveTheForm }
{}

/// On a tree the plans are an equilibrium.
pub fn solutions_solve_trees()
    ensures { SolutionsSolveTrees }
{}

/// On a table the plans are an equilibrium.
pub fn solutions_solve_tables()
    ensures { SolutionsSolveTables }
{}

/// A problem's path has at most one end: the solution, or the first step that does not fit.
pub fn ends_are_single()
    ensures { EndsAreSingle }
{}

/// A problem's path has an end: the solution, or the first step that does not fit.
pub fn ends_are_answered()
    ensures { EndsAreAnswered }
{}
