// Theorems about plans, routes and jumps: each is the contract of a function, so that the check asks for its proof.
ghost use Rattle.std.specs.Prelude.{List};
ghost use Rattle.floor.specs.declared.Heading.{Heading as Course};
ghost use Rattle.floor.specs.Plane.{Point};
ghost use Rattle.floor.specs.Plans.{legal};
ghost use Rattle.floor.specs.Routes.{Laying, Fair};
ghost use Rattle.floor.specs.Runs.{Stretch, Turning};
ghost use Rattle.floor.specs.Facts.{RoutesKeep, SixteenThousand, ByRuns, FromRuns, MarksOneCell};
ghost use Rattle.floor.specs.JumpFacts.{EveryJumpHasOneAnswer, ClosedCellsStay, JumpsTakeLegalSteps, JumpsAreShort};

// Legal steps can be taken back and stay legal when cells are opened; and wherever steps are so, routes join,
// turn round, stay, and can be cut down to distinct cells, of which no plan has more than 16,384.
pub fn routes_keep()
    ensures legal { Fair legal }
    ensures keep { (may : Laying) → Fair may → RoutesKeep may }
    ensures few { SixteenThousand }
{}

// The corners and the counts of a route are those of its runs, and runs that turn are a route with just these.
pub fn routes_bend_at_runs()
    ensures gathered { (x : Point) (hs : List Course) → ByRuns x hs }
    ensures laid { (x : Point) (rs : List Stretch) → Turning rs → FromRuns x rs }
{}

// Setting a cell of a plan sets just that cell.
pub fn marks_one_cell()
    ensures { MarksOneCell }
{}

// From each cell of each plan there is exactly one jump with each heading.
pub fn every_jump_has_one_answer()
    ensures answered { EveryJumpHasOneAnswer }
    ensures closed { ClosedCellsStay }
    ensures allowed { JumpsTakeLegalSteps }
    ensures short { JumpsAreShort }
{}
