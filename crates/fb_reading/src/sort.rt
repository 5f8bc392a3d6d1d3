//! The sorts of lines.
ghost use Rattle.std.specs.Prelude.{◌≡◌, codes, option_map, option_and_then};
ghost use Rattle.serde_json.specs.Find.{as_str, get};
ghost use Rattle.serde_json.specs.View.{view};
ghost use Rattle.fb_reading.specs.Refusals.{plan_sort, sort_named, sort_of};

use serde_json::Value as Json;

/// The sort of a line, by which its keys are wanted.
#[derive(Debug, Drop, Clone, Copy, PartialEq, Eq)]
pub(crate) enum Sort {
    Header,
    Inv,
    /// A plan line of version 1.
    CodePlan,
    /// A plan line of version 2.
    ReplyPlan,
    End,
}

/// The sort that an object's `kind` names. A plan line with a key `fault` has version 2.
#[tactic(auto, unfolding(crate::specs::Refusals::sort_of))]
pub(crate) fn sort_of(json: &Json) -> Option<Sort>
    ensures { result ≡ sort_of (view json.now) }
{
    match kind_of(json) {
        None => None,
        Some(word) => sort_named(json, word),
    }
}

fn kind_of(json: &Json) -> Option<&str>
    ensures { option_map (λ word. word.now) result ≡ option_and_then as_str (get (codes "kind") (view json.now)) }
{
    json.get("kind").and_then(Json::as_str)
}

fn sort_named(json: &Json, word: &str) -> Option<Sort>
    ensures { result ≡ sort_named (view json.now) word.now }
{
    if word == "header" {
        return Some(Sort::Header);
    }
    if word == "inv" {
        return Some(Sort::Inv);
    }
    if word == "plan" {
        return Some(plan_sort(json));
    }
    if word == "end" {
        return Some(Sort::End);
    }
    None
}

fn plan_sort(json: &Json) -> Sort
    ensures { result ≡ plan_sort (view json.now) }
{
    if json.get("fault").is_some() {
        Sort::ReplyPlan
    } else {
        Sort::CodePlan
    }
}
