//! Laws of runs. Each is a function that does nothing: what it ensures is the law.
ghost use Rattle.std.specs.Prelude.{List};
ghost use Rattle.fb_base.specs.declared.method.MethodId.{MethodId};
ghost use Rattle.fb_base.specs.declared.value.Value.{Value};
ghost use Rattle.fb_index.specs.Entry.{Occurrence};
ghost use Rattle.fb_syntax.specs.Trees.{ServicesTree, TestTree};
ghost use Rattle.fb_tree.specs.Records.{steps_of, steps_of_run};
ghost use Rattle.fb_transport.specs.Sources.{Source};
ghost use Rattle.fb_meaning.specs.Positions.{Position};
ghost use Rattle.fb_meaning.specs.Bodies.{Frame};
ghost use Rattle.fb_meaning.specs.Meaning.{method_meaning, test_meaning};
ghost use Rattle.fb_meaning.specs.Rules.{FollowsRules};
ghost use Rattle.fb_meaning.specs.Fuel.{FollowsFuel};
ghost use Rattle.fb_meaning.specs.Lacking.{MethodsMissNothing, TestsMissNothing, PlansLackNothing};
ghost use Rattle.fb_meaning.specs.RecordLaws.{SameRepliesSameRecord, TrueRecordsAgree, TrueEntriesDiffer};
ghost use Rattle.fb_meaning.specs.Replays.{RecordsAreMadeAgain, RunsAreMadeAgain};
ghost use Rattle.fb_meaning.specs.Parting.{RunsGoAlike, VisitsPartToo, PlansOnlyFail};
ghost use Rattle.fb_meaning.specs.RunLaws.{RunsAreLawful};
ghost use Rattle.fb_meaning.specs.DecidedCalls.{MethodsAreDecided, TestsAreDecided};
ghost use Rattle.fb_meaning.specs.DecisionLaws.{SameDecisionsSameTree, SameDecisionsSameRun, JoinedIsMade, JoinedIsRun, PartsAreOfRun};
ghost use Rattle.fb_meaning.specs.Kinds.{ExpressionsKeepKinds, StatementsKeepKinds, MethodsBeginSo, TestsBeginSo, BodiesGoOnSo, MethodsKeepKinds, TestsKeepKinds, PlansGiveKinds, RecordsOfRunsAreTrue, StepsAreWithinFuel, TrueRecordsStayTrue};
ghost use Rattle.fb_meaning.specs.Spelling.{SpelledIsRun, OneIsSpelled, RunsAreOfInjections, RunsAreSpelled, CoveredIsSpelled};

use fb_base::law_of_results;
use fb_check::{acceptance_is_exact, lookups_join};

/// Each statement takes a unit of fuel and then does what its rule says, by the meaning of the statements inside it.
pub fn statements_follow_rules()
    ensures { (services : ServicesTree) (source : Source) (frame : Frame) (at : Position) → FollowsRules services source frame at }
{}

/// Where a run is done with some fuel, it is done with any other with the same tree exactly where the tree's steps fit,
/// and what is left is the difference; else it is spent.
pub fn more_fuel_same_run()
    ensures method { (services : ServicesTree) (source : Source) (m : MethodId) (args : List Value) (index : List Occurrence) →
        FollowsFuel steps_of (λ fuel. method_meaning services source fuel m args index) }
    ensures test { (services : ServicesTree) (source : Source) (test : TestTree) →
        FollowsFuel steps_of_run (test_meaning services test source) }
{}

/// An answer is missing only where the source lacks one. The source of a plan lacks none.
pub fn nothing_else_is_missing()
    ensures method { MethodsMissNothing }
    ensures test { TestsMissNothing }
    ensures plans { PlansLackNothing }
{}

/// Two evaluations of one method on the same arguments whose calls get the same replies have the same record, whatever
/// their indexes, sources and fuels.
pub fn same_replies_same_record()
    ensures { SameRepliesSameRecord }
{}

/// Records that are true of the same services agree, and no two calls of one have the same entry.
pub fn true_records_agree()
    ensures agree { TrueRecordsAgree }
    ensures entries { TrueEntriesDiffer }
{}

/// Two runs of one test, by sources that let calls be made or fail, are the same, or part ways at a first call that
/// both make alike and that was answered differently. Up to there all is the same, with replies and all below. The
/// sources of plans are such.
pub fn runs_go_alike()
    ensures calls { RunsGoAlike }
    ensures visits { VisitsPartToo }
    ensures plans { PlansOnlyFail }
{}

/// Of each run of a test: a call's fault is what the source decides at its index, no two calls have one index, and there
/// are no more calls than units of fuel.
pub fn runs_are_lawful()
    ensures { RunsAreLawful }
{}

/// What is evaluated is evaluated again by its replies alone: a method, whose calls get those of its record, makes the
/// same record with any fuel for its own steps; a test, each of whose calls gets its reply with the steps and the
/// injected callees of its part, asks the same and ends alike with any fuel for all its steps.
pub fn replies_make_it_again()
    ensures method { RecordsAreMadeAgain }
    ensures test { RunsAreMadeAgain }
{}

/// Each call of a method or of a test that is done got what the source decides at its index.
pub fn calls_are_decided()
    ensures method { MethodsAreDecided }
    ensures test { TestsAreDecided }
{}

/// A source that decides on the calls of an invocation or of a run as they were decided makes it again, an invocation at
/// any index. What is joined of true records, and of the test alone, is made by each source that decides so. The test
/// alone may be evaluated by any source that knows the parts of the run.
pub fn decisions_make_the_run()
    ensures method { SameDecisionsSameTree }
    ensures test { SameDecisionsSameRun }
    ensures made { JoinedIsMade }
    ensures joined { JoinedIsRun }
    ensures parts { PartsAreOfRun }
{}

/// What numbers spell, under a plan, into records that are true with this fuel is the run of the plan, so they spell at
/// most one. And a run is that of what it injects, and is spelled so by the places of its records, in any list that has
/// them.
pub fn spelled_is_run()
    ensures run { SpelledIsRun }
    ensures one { OneIsSpelled }
    ensures injections { RunsAreOfInjections }
    ensures spelled { RunsAreSpelled }
{}

/// Records cover a plan exactly where its run is done and numbers into them spell it under what it injects.
pub fn covered_is_spelled()
    ensures { CoveredIsSpelled }
{}

/// Over accepted services and tests, by a source whose own Ok replies have their callees' kinds, values have the kinds
/// that acceptance tells: those of expressions; those of variables, where a body begins and wherever a statement goes on;
/// arguments and replies of methods and of all calls below. The sources of plans are such.
pub fn kinds_are_kept()
    ensures expressions { ExpressionsKeepKinds }
    ensures statements { StatementsKeepKinds }
    ensures methods_begin { MethodsBeginSo }
    ensures tests_begin { TestsBeginSo }
    ensures goes_on { BodiesGoOnSo }
    ensures methods { MethodsKeepKinds }
    ensures tests { TestsKeepKinds }
    ensures plans { PlansGiveKinds }
{
    law_of_results();
    acceptance_is_exact();
    lookups_join();
}

/// Each record of a run of accepted sources is true with its fuel and with any more. No invocation takes more steps than
/// there is fuel. What is true with some fuel is true with any more.
pub fn records_of_runs_are_true()
    ensures records { RecordsOfRunsAreTrue }
    ensures steps { StepsAreWithinFuel }
    ensures stay { TrueRecordsStayTrue }
{
    law_of_results();
    acceptance_is_exact();
    lookups_join();
}
