//! Reading the texts of methods, numbers and outcomes.
ghost use Rattle.std.specs.Prelude.{◌≡◌, ◌<◌, ◌++◌, ◌∷◌, ℕ, List, MatchOption, decimal};
ghost use Rattle.fb_base.specs.Name.{IsName};
ghost use Rattle.fb_base.specs.declared.method.MethodName.{MethodName as MethodNameOf};
ghost use Rattle.fb_index.specs.Entry.{IsNumber};
ghost use Rattle.fb_index.specs.Pieces.{IsFree};
ghost use Rattle.fb_tree.specs.declared.outcome.Outcome.{Outcome as OutcomeOf};
ghost use Rattle.fb_report.specs.Ranges.{IsMethodName};
ghost use Rattle.fb_report.specs.Trees.{method_text, outcome_text};
ghost use Rattle.fb_reading.specs.Shapes.{IsOutcome};

use fb_base::{Code, MethodName, Name};
use fb_tree::Outcome;

/// The parts before and behind the first such sign.
fn halves(text: &str, sign: char) -> Option<(&str, &str)>
    requires { sign < 128 }
    ensures { MatchOption result (IsFree sign text.now)
        (λ parts. IsFree sign parts.0.now × (text.now ≡ parts.0.now ++ sign ∷ parts.1.now)) }
{
    text.split_once(sign)
}

/// The method that this names.
pub(crate) fn method_of(text: &str) -> Option<MethodName>
    ensures { MatchOption result ((name : MethodNameOf) → IsMethodName name → ¬ (text.now ≡ method_text name))
        (λ name. IsMethodName name × (text.now ≡ method_text name)) }
{
    let Some((service, method)) = halves(text, '.') else {
        return None;
    };
    let Ok(service) = Name::read(service.as_bytes()) else {
        return None;
    };
    let Ok(method) = Name::read(method.as_bytes()) else {
        return None;
    };
    Some(MethodName { service, method })
}

/// The number from 1 on that is written so, with no leading zero.
fn number_of(text: &str) -> Option<u32>
    ensures { MatchOption result ((n : ℕ) → IsNumber n → ¬ (text.now ≡ decimal n)) (λ n. IsNumber n × (text.now ≡ decimal n)) }
{
    let [first, ..] = text.as_bytes() else {
        return None;
    };
    if *first < b'1' || b'9' < *first {
        return None;
    }
    match text.parse::<u32>() {
        Ok(n) => Some(n),
        Err(_) => None,
    }
}

/// The number of a call site, and the code of an error behind a blank.
fn site_and_code(text: &str) -> Option<(u32, Code)>
    ensures { MatchOption result
        ((site : ℕ) (code : List ℕ) → IsNumber site → IsName code → ¬ (text.now ≡ decimal site ++ 32 ∷ code))
        (λ pair. IsNumber pair.0 × IsName pair.1 × (text.now ≡ decimal pair.0 ++ 32 ∷ pair.1)) }
{
    let Some((site, code)) = halves(text, ' ') else {
        return None;
    };
    let Some(site) = number_of(site) else {
        return None;
    };
    let Ok(code) = Code::read(code.as_bytes()) else {
        return None;
    };
    Some((site, code))
}

/// How a test ended, by a word and what stands behind it.
fn ending(word: &str, rest: &str) -> Option<Outcome>
    requires { IsFree 32 word.now }
    ensures { MatchOption result ((outcome : OutcomeOf) → IsOutcome outcome → ¬ (word.now ++ 32 ∷ rest.now ≡ outcome_text outcome))
        (λ outcome. IsOutcome outcome × (word.now ++ 32 ∷ rest.now ≡ outcome_text outcome)) }
{
    match word {
        "assert_failed" => Some(Outcome::AssertFailed(number_of(rest)?)),
        "call_failed" => {
            let (site, code) = site_and_code(rest)?;
            Some(Outcome::CallFailed(site, code))
        }
        "fault" => Some(Outcome::Fault(number_of(rest)?)),
        _ => None,
    }
}

/// How a test ended, as this tells it.
pub(crate) fn outcome_of(text: &str) -> Option<Outcome>
    ensures { MatchOption result ((outcome : OutcomeOf) → IsOutcome outcome → ¬ (text.now ≡ outcome_text outcome))
        (λ outcome. IsOutcome outcome × (text.now ≡ outcome_text outcome)) }
{
    match halves(text, ' ') {
        Some((word, rest)) => ending(word, rest),
        None if text == "passed" => Some(Outcome::Passed),
        None => None,
    }
}
