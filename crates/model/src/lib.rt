#![tactic(auto)]

// The book's machine, the plain book and the book of trees, and the law that ties them. Nothing here computes at run time:
// each function states a theorem, and the check asks for its proof.

ghost use Rattle.model.specs.Found.{FindsTheFirst};
ghost use Rattle.model.specs.Histories.{HistoriesGoOn};
ghost use Rattle.model.specs.Law.{Law};
ghost use Rattle.model.specs.Sample.{SampleRuns};
ghost use Rattle.model.specs.Table.{TableFacts};
ghost use Rattle.model.specs.Unchanged.{VersionsStay, CoverageStays, RefusalsChangeNothing, TossingUndoes};
ghost use Rattle.model.specs.Worked.{WorkedExamples};

use rule::Rule;

// The law of kept versions, for any summary rule: in every run of calls on a new book and new sheets, versions, refusals and
// answers are the plain book's, trees are those that the rules of trees allow, and summaries are the rule's values.
pub fn law_of_kept_versions<R: Rule>()
    ensures { Law (record { value = R.value; joined = R.joined }) }
{}

// A history that leads to the state before a call, with that call added, leads to the state after it, and a history of a book alone
// is one of that book with any sheets. So the law speaks of every program that makes the calls one by one, each of which says on its
// own contract that it is the machine's step and that the histories go on.
pub fn histories_go_on<R: Rule>()
    ensures { HistoriesGoOn (record { value = R.value; joined = R.joined }) }
{}

// A version that is kept never changes, whatever calls follow.
pub fn kept_versions_stay<R: Rule>()
    ensures { VersionsStay (record { value = R.value; joined = R.joined }) }
{}

// What a sheet covers stays covered, whatever calls follow.
pub fn coverage_stays<R: Rule>()
    ensures { CoverageStays (record { value = R.value; joined = R.joined }) }
{}

// A refused call leaves the book and the sheets as they were.
pub fn refused_calls_change_nothing<R: Rule>()
    ensures { RefusalsChangeNothing (record { value = R.value; joined = R.joined }) }
{}

// A draft that is opened, edited and tossed leaves all as it was.
pub fn tossed_drafts_leave_no_trace<R: Rule>()
    ensures { TossingUndoes (record { value = R.value; joined = R.joined }) }
{}

// The table of rows: the numbers of each call's rows go up, and the tests decide the conditions.
pub fn rows_are_decided<R: Rule>()
    ensures { TableFacts R.Value }
{}

// Find answers the first place at or after the given one where the pattern stands.
pub fn find_answers_the_first_place()
    ensures { FindsTheFirst }
{}

// The definitions give what was worked out by hand.
pub fn worked_examples()
    ensures { WorkedExamples }
{}

// Two runs of calls on the machine are answered as they were worked out by hand.
pub fn sample_runs()
    ensures { SampleRuns }
{}
