// The laws of the path, of the program and of the answers. The functions do nothing: the contract
// of each is a law, so that a check proves it.
ghost use Rattle.zero_sum_lp.specs.AnsweredLaws.{EndsAreAnswered, PlansAreAnswered, ProgramsAreAnswered};
ghost use Rattle.zero_sum_lp.specs.Ends.{EndsAreSingle};
ghost use Rattle.zero_sum_lp.specs.FormPrograms.{ProgramsAreSingle};
ghost use Rattle.zero_sum_lp.specs.PathLaws.{TheObjectiveRowGrows, PathsEnd, PathsGoOn, PathsAreDetermined};
ghost use Rattle.zero_sum_lp.specs.PlanStops.{PlansAreSingle};
ghost use Rattle.zero_sum_lp.specs.ProgramLaws.{ProgramsAreFeasibleAndBounded, OptimaProveTheValue};
ghost use Rattle.zero_sum_lp.specs.ValueLaws.{OptimalPlansProveTheValue, OptimalPlansSolveTrees, OptimalPlansSolveTables, ProgramsAreOfForms};

/// Each step makes the objective row greater.
pub fn the_objective_row_grows()
    ensures { TheObjectiveRowGrows }
{}

/// The path ends.
pub fn paths_end()
    ensures { PathsEnd }
{}

/// A tableau that is not optimal has an entering column, which has a lexicographic row.
pub fn paths_go_on()
    ensures { PathsGoOn }
{}

/// After each number of steps there is at most one tableau, and none after an optimal one.
pub fn paths_are_determined()
    ensures { PathsAreDetermined }
{}

/// The program of two players' plans is a linear program with a feasible start and a bounded
/// objective.
pub fn programs_are_feasible_and_bounded()
    ensures { ProgramsAreFeasibleAndBounded }
{}

/// The optimum's prices prove the value of the plans made of its raw weights.
pub fn optima_prove_the_value()
    ensures { OptimaProveTheValue }
{}

/// The plans and prices at the optimum prove the value.
pub fn optimal_plans_prove_the_value()
    ensures { OptimalPlansProveTheValue }
{}

/// On a tree they are an equilibrium, with its value and both guarantees.
pub fn optimal_plans_solve_trees()
    ensures { OptimalPlansSolveTrees }
{}

/// On a table they are an equilibrium, with its value and both guarantees.
pub fn optimal_plans_solve_tables()
    ensures { OptimalPlansSolveTables }
{}

/// The program of a form is that of its plans and gains.
pub fn programs_are_of_forms()
    ensures { ProgramsAreOfForms }
{}

/// A form has at most one answer: its program, or the reason why it has none.
pub fn programs_are_single()
    ensures { ProgramsAreSingle }
{}

/// A form has an answer: its program, or the reason why it has none.
pub fn programs_are_answered()
    ensures { ProgramsAreAnswered }
{}

/// A program's path has at most one end: the optimum, or the first step that does not fit.
pub fn ends_are_single()
    ensures { EndsAreSingle }
{}

/// A program's path has an end: the optimum, or the first step that does not fit.
pub fn ends_are_answered()
    ensures { EndsAreAnswered }
{}

/// An optimum has at most one answer: both plans, or the first step that does not fit.
pub fn plans_are_single()
    ensures { PlansAreSingle }
{}

/// An optimum has an answer: both plans, or the first step that does not fit.
pub fn plans_are_answered()
    ensures { PlansAreAnswered }
{}
