// Theorems on what units do together: each function's contract is one, proved of the definitions in specs/.
ghost use Rattle.semantics.specs.Budgets.{BudgetsExact};
ghost use Rattle.semantics.specs.Company.{CompanyDoesNotMatter};
ghost use Rattle.semantics.specs.Ends.{Ends, DepthBoundsNothing};

// Programs of units that fit together end in one of three ways, and how deep the definition lets calls stand in one another has no part in it.
pub fn programs_end()
    ensures ends { Ends }
    ensures depth { DepthBoundsNothing }
{}

// Neither the order of the units behind the first nor units that nobody calls change what a program does.
pub fn company_does_not_matter()
    ensures { CompanyDoesNotMatter }
{}

// More room or more calls change nothing but how far a run gets, and each has a least amount that is enough.
pub fn budgets_are_exact()
    ensures { BudgetsExact }
{}
