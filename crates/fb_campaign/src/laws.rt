//! Laws of campaigns. Each is a function that does nothing: what it ensures is the law.
ghost use Rattle.std.specs.Prelude.{◌≡◌, ◌↔◌, ◌+◌, ◌<◌, ◌≤◌, ℕ, Bool, true, Some, List, [], ◌∷◌, ◌++◌, length, Contains};
ghost use Rattle.fb_index.specs.declared.fault.Fault.{Fault};
ghost use Rattle.fb_campaign.specs.Runs.{Went, Runs, Gives, Choices, AreDistinct, AreLawful, AreChoices};
ghost use Rattle.fb_campaign.specs.Plans.{IsMet, extensions, level, plans, EachEnds, HaveRecordsOf, HaveRecordsOfMet, HaveMetPlans};
ghost use Rattle.fb_tree.specs.declared.recorded.Record.{Record};
ghost use Rattle.fb_campaign.specs.Reports.{Line, plans_in, run_lines};
ghost use Rattle.fb_campaign.specs.Valid.{IsValid};
ghost use Rattle.fb_campaign.specs.Truth.{IsTrueReport};
ghost use Rattle.fb_campaign.specs.Campaign.{Settings, campaign, IsCompleted};
ghost use Rattle.fb_campaign.specs.Waiting.{WaitingPlansComeNext, ParentsAreNumbered};

/// A front of a met plan is met where its own run ends, and the next fault extends it there.
pub fn fronts_are_met()
    ensures { (gives : Gives) (runs : Runs) (choices : Choices) → AreLawful gives runs →
        (n : ℕ) (plan : List Fault) (fault : Fault) (rest : List Fault) → IsMet runs choices n (plan ++ fault ∷ rest) →
        (went : Went) → runs n plan ≡ Some went →
        IsMet runs choices n plan × Contains (extensions runs choices n plan) (plan ++ fault ∷ []) }
{}

/// What extends a met plan is met where its own run ends.
pub fn extensions_are_met()
    ensures { (gives : Gives) (runs : Runs) (choices : Choices) → AreLawful gives runs → AreChoices gives choices →
        (n : ℕ) (plan longer : List Fault) → IsMet runs choices n plan → Contains (extensions runs choices n plan) longer →
        (went : Went) → runs n longer ≡ Some went → IsMet runs choices n longer }
{}

/// A plan extends at most one plan.
pub fn extensions_have_one_plan()
    ensures { (runs : Runs) (choices : Choices) (n m : ℕ) (p q longer : List Fault) →
        Contains (extensions runs choices n p) longer → Contains (extensions runs choices m q) longer → p ≡ q }
{}

/// Where none of its plans is spent, a campaign has exactly the met plans, each once. No plan has more faults than
/// there is fuel.
pub fn each_plan_is_met_once()
    ensures met { (gives : Gives) (runs : Runs) (choices : Choices) → AreLawful gives runs → AreChoices gives choices →
        (fuel : ℕ) → EachEnds runs choices fuel →
        (plan : List Fault) → Contains (plans runs choices fuel) plan ↔ IsMet runs choices fuel plan }
    ensures once { (gives : Gives) (runs : Runs) (choices : Choices) → AreLawful gives runs → AreChoices gives choices →
        (fuel : ℕ) → AreDistinct (plans runs choices fuel) }
    ensures ends { (gives : Gives) (runs : Runs) (choices : Choices) → AreLawful gives runs → AreChoices gives choices →
        (fuel count : ℕ) → fuel < count → level runs choices fuel count ≡ [] }
{}

/// A completed campaign is valid, whether plans are pruned or not.
pub fn completed_campaigns_are_valid()
    ensures { (gives : Gives) (runs : Runs) (choices : Choices) → AreLawful gives runs → AreChoices gives choices →
        (settings : Settings) → IsCompleted (campaign settings runs (plans runs choices settings.fuel)) →
        IsValid runs choices settings.fuel settings.reduction (campaign settings runs (plans runs choices settings.fuel)) }
{}

/// A valid report is true, whoever made it.
pub fn valid_reports_are_true()
    ensures { (gives : Gives) (runs : Runs) (choices : Choices) → AreLawful gives runs → AreChoices gives choices →
        (fuel : ℕ) (reduction : Bool) (lines : List Line) → IsValid runs choices fuel reduction lines →
        IsTrueReport runs choices fuel lines }
{}

/// With reduction the run lines are at most one more than the different records: in a valid report over all met plans,
/// in any campaign, a stopped one too, over the plans that have a line.
pub fn runs_are_few()
    ensures valid { (gives : Gives) (runs : Runs) (choices : Choices) → AreLawful gives runs → AreChoices gives choices →
        (fuel : ℕ) (lines : List Line) → IsValid runs choices fuel true lines →
        (known : List Record) → HaveRecordsOfMet runs choices fuel known → length (run_lines lines) ≤ 1 + length known }
    ensures campaign { (settings : Settings) (runs : Runs) (of_plans : List (List Fault)) → settings.reduction ≡ true →
        (known : List Record) → HaveRecordsOf runs settings.fuel (plans_in (campaign settings runs of_plans)) known →
        length (run_lines (campaign settings runs of_plans)) ≤ 1 + length known }
{}

/// Where none of its plans is spent, a campaign completes with a budget of one more than the different records of all
/// met plans where plans are pruned, and with one of as many as there are met plans in any case.
pub fn budgets_suffice()
    ensures records { (gives : Gives) (runs : Runs) (choices : Choices) → AreLawful gives runs → AreChoices gives choices →
        (settings : Settings) → EachEnds runs choices settings.fuel → settings.reduction ≡ true →
        (known : List Record) → HaveRecordsOfMet runs choices settings.fuel known → 1 + length known ≤ settings.budget →
        IsCompleted (campaign settings runs (plans runs choices settings.fuel)) }
    ensures plans { (gives : Gives) (runs : Runs) (choices : Choices) → AreLawful gives runs → AreChoices gives choices →
        (settings : Settings) → EachEnds runs choices settings.fuel →
        (known : List (List Fault)) → HaveMetPlans runs choices settings.fuel known → length known ≤ settings.budget →
        IsCompleted (campaign settings runs (plans runs choices settings.fuel)) }
{}

/// The plans of a campaign may be had from a queue: what extends a plan is added when the plan has had its turn. Those that
/// wait come next, and where none waits all have had theirs. Each plan's parent is told by the number of its line.
pub fn waiting_plans_come_next()
    ensures next { WaitingPlansComeNext }
    ensures parents { ParentsAreNumbered }
{}
