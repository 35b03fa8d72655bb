// The printed cases.
ghost use Rattle.worked.specs.Cases.{PrintedCases};

// All of them, in one proof.
pub fn printed_cases_hold()
    ensures { PrintedCases }
{}
