// The theorems on these definitions, each named by the contract of a function; the bound says "for every cost kind".
ghost use Rattle.costs.specs.Kind.{Laws};
ghost use Rattle.model.specs.Allowance.{CheapestIsCheapest, GreatestTimesAreQuoted};
ghost use Rattle.model.specs.Assignment.{AssignmentsAreAll};
ghost use Rattle.model.specs.Bargain.{EnoughMemoryIsAnswered, EqualFrontsMeanSameBargains};
ghost use Rattle.model.specs.Bargain.{SomeMemorySuffices};
ghost use Rattle.model.specs.Better.{BetterBargainsAreShown};
ghost use Rattle.model.specs.Cell.{CellsStandAtTheirPlaces, LeastCostsShareOutMinutes};
ghost use Rattle.model.specs.Equations.{LimitsAreSharedOut};
ghost use Rattle.model.specs.Front.{FrontListsUnbeatenPairs, FrontsWithoutStagesOrQuotes};
ghost use Rattle.model.specs.FrontAnswers.{FrontsAnswerLimits};
ghost use Rattle.model.specs.Limit.{LimitsGiveBestPairs};
ghost use Rattle.model.specs.Plan.{PlansGoByTheFirstList, StagesJoinAllCosts};
ghost use Rattle.model.specs.Question.{QuestionsKeepMemory, RefusedQuestionsAlterNothing};
ghost use Rattle.model.specs.Scan.{FrontIsWhereCostsDrop};

use costs::Cost;

// The laws of a cost kind, gathered.
fn laws_hold<C: Cost>()
    ensures { Laws C.Cost.kind }
{}

// The list of all assignments holds these and no others.
pub fn assignments_are_all<C: Cost>()
    ensures { AssignmentsAreAll C }
{}

// The order in which quoted costs are joined does not matter: stage by stage, or by task number.
pub fn stages_join_all_costs<C: Cost>()
    ensures { StagesJoinAllCosts C.Cost.kind }
{
    laws_hold::<C>();
}

// One list is the front in words, and the definition computes it.
pub fn front_lists_unbeaten_pairs<C: Cost>()
    ensures { FrontListsUnbeatenPairs C.Cost.kind }
{
    laws_hold::<C>();
}

// Without stages the front is 0 minutes at the neutral cost; it is empty exactly where a standing task has no quote, and
// exactly where there is no assignment.
pub fn fronts_without_stages_or_quotes<C: Cost>()
    ensures { FrontsWithoutStagesOrQuotes C.Cost.kind }
{
    laws_hold::<C>();
}

// The choice within an allowance is the cheapest, the lowest machine among equals.
pub fn cheapest_is_cheapest<C: Cost>()
    ensures { CheapestIsCheapest C.Cost.kind }
{
    laws_hold::<C>();
}

// No time quoted in a stage is greater than its greatest time, which is quoted itself if any is.
pub fn greatest_times_are_quoted<C: Cost>()
    ensures { GreatestTimesAreQuoted C }
{}

// The table has as many cells as are needed, each at its place.
pub fn cells_stand_at_their_places<C: Cost>()
    ensures { CellsStandAtTheirPlaces C.Cost.kind }
{}

// The least cost over assignments comes from sharing the minutes out between a stage and those behind it.
pub fn least_costs_share_out_minutes<C: Cost>()
    ensures { LeastCostsShareOutMinutes C.Cost.kind }
{
    laws_hold::<C>();
}

// The points of the front stand where the first row of cells gets cheaper.
pub fn front_is_where_costs_drop<C: Cost>()
    ensures { FrontIsWhereCostsDrop C.Cost.kind }
{
    laws_hold::<C>();
}

// Budgets and deadlines, and their refusals, mean what the words say.
pub fn limits_give_best_pairs<C: Cost>()
    ensures { LimitsGiveBestPairs C.Cost.kind }
{
    laws_hold::<C>();
}

// Below every pair there is a point of the front; a budget is answered by the first point within it, a deadline by the
// last, and each is refused exactly where no point is within it.
pub fn fronts_answer_limits<C: Cost>()
    ensures { FrontsAnswerLimits C.Cost.kind }
{
    laws_hold::<C>();
}

// The plan computed goes by the first allowance list, and is an assignment of the length and cost that were answered; no
// other bytes do.
pub fn plans_go_by_the_first_list<C: Cost>()
    ensures { PlansGoByTheFirstList C.Cost.kind }
{
    laws_hold::<C>();
}

// What a limit gives is the best over all ways to share the limit out among stages and tasks: the two equations.
pub fn limits_are_shared_out<C: Cost>()
    ensures { LimitsAreSharedOut C.Cost.kind }
{
    laws_hold::<C>();
}

// What a question leaves in memory is as long as what it was lent.
pub fn questions_keep_memory<C: Cost>()
    ensures { QuestionsKeepMemory C.Cost.kind }
{}

// A refused question alters nothing, but for cells that were filled before.
pub fn refused_questions_alter_nothing<C: Cost>()
    ensures { RefusedQuestionsAlterNothing C.Cost.kind }
{}

// On every book under every tariff some memory suffices for each question, so what is said of all such memory says something.
pub fn some_memory_suffices<C: Cost>()
    ensures { SomeMemorySuffices C.Cost.kind }
{}

// In memory that suffices, a question gives what book, tariff and limit decide.
pub fn enough_memory_is_answered<C: Cost>()
    ensures { EnoughMemoryIsAnswered C.Cost.kind }
{}

// What the questions on two sheets, each under its tariff, give is what the words say; and the sheets have equal fronts
// exactly when each assignment of either is matched by the other, and exactly when every limit gets the same answer.
pub fn equal_fronts_mean_same_bargains<C: Cost>()
    ensures { EqualFrontsMeanSameBargains C.Cost.kind }
{
    laws_hold::<C>();
}

// The better bargain of two sheets means what the words say, there is none exactly when the fronts are equal, and it
// stands where the fronts first differ.
pub fn better_bargains_are_shown<C: Cost>()
    ensures { BetterBargainsAreShown C.Cost.kind }
{
    laws_hold::<C>();
}
