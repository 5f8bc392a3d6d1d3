//! An example of a run and its campaign.
ghost use Rattle.std.specs.Prelude.{◌≡◌, ◌↔◌, List, Contains};
ghost use Rattle.fb_index.specs.declared.fault.Fault.{Fault};
ghost use Rattle.fb_campaign.specs.Runs.{AreLawful, AreChoices};
ghost use Rattle.fb_campaign.specs.Plans.{IsMet, plans};
ghost use Rattle.fb_campaign.specs.Campaign.{campaign};
ghost use Rattle.fb_campaign.specs.Example.{ints, down_or_five, example_runs, example_plans, example_settings, example_report};

/// What the laws ask of a run can be met: a run that is given for every plan and fuel, its three met plans, and the
/// report of the campaign over them, in which one is pruned.
pub fn a_campaign_is_known()
    ensures lawful { AreLawful ints example_runs }
    ensures choices { AreChoices ints down_or_five }
    ensures plans { plans example_runs down_or_five 3 ≡ example_plans }
    ensures met { (plan : List Fault) → Contains example_plans plan ↔ IsMet example_runs down_or_five 3 plan }
    ensures report { campaign example_settings example_runs (plans example_runs down_or_five 3) ≡ example_report }
{}
