// The pruning theorems: each is the contract of a function, so that the check asks for its proof.
ghost use Rattle.std.specs.Prelude.{◌≡◌, true};
ghost use Rattle.floor.specs.declared.Cell.{Cell as Spot};
ghost use Rattle.floor.specs.Plans.{Plan, is_open};
ghost use Rattle.pruning.specs.Claims.{NoCheaperRunIsLost, EveryChainIsARoute, SameReach, SuccessorsAreLeaps, ChainsStandOnOpenCells};
ghost use Rattle.pruning.specs.Cheapest.{RoutesHaveShortChains, CheapestChainIsCheapest};

// Every legal route, on every plan, is dominated by a chain of successors. So a route exists exactly if a chain does.
pub fn no_cheaper_run_is_lost()
    ensures dominated { NoCheaperRunIsLost }
    ensures reach { (p : Plan) (s : Spot) (t : Spot) → is_open p s ≡ true → SameReach p s t }
{}

// Under every lawful rate a chain than which no chain is cheaper is one than which no legal route is cheaper; and it is enough
// to compare it with chains that have fewer steps than the plan has cells.
pub fn the_cheapest_chain_is_a_cheapest_route()
    ensures short { RoutesHaveShortChains }
    ensures cheapest { CheapestChainIsCheapest }
{}

// Every chain is a legal route with the same counts. Each of its leaps is a run of legal steps, at least one and
// fewer than 128, and ends on an open cell inside the plan.
pub fn every_chain_is_a_route()
    ensures route { EveryChainIsARoute }
    ensures leaps { SuccessorsAreLeaps }
    ensures stands { ChainsStandOnOpenCells }
{}
