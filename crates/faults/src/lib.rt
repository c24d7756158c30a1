// The verdict on a rule table and a policy, and the fault listing: the promise about packets not on any list. Each call answers
// for every value: sets not in form are refused by number 14. Each contract says that the answer is what `meaning` defines over
// all packets (specs/Answers) and leaves one answer only, with every number of the lent buffer. The work is done on a
// chart of strips, arrays of 47 KB on the stack, from which `findings` has both.

#![tactic(auto)]

ghost use Rattle.faults.specs.Answers.{JudgedAs, ListedAs};

use charts::Charts;
use findings::Finding;
use sets::{Policy, Refusal, Rules};

// The verdict on the rules and the policy, None if the table conforms; or 14 if they are not in form. The chart is filled in place, here and
// in `listing`: one that a function hands back is copied, all 42 KB of it.
#[tactic(auto, using(findings::proofs::Forming::in_form_limited))]
pub fn verdict(rules: Rules, policy: Policy) -> Result<Option<Finding>, Refusal>
    ensures { JudgedAs rules policy result }
{
    form::refuse_sets(rules, policy)?; // no verdict beside a refusal
    let mut charts = Charts::EMPTY;
    charts.fill(rules, policy);
    Ok(findings::verdict(rules, policy, &charts))
}

// How many blocks the fault listing has, or 14 if the rules or the policy are not in form. The first blocks that fit are written
// to the buffer from the front, a row of numbers each: kind, rule, low and high of each field.
#[tactic(auto, using(findings::proofs::Forming::in_form_limited))]
pub fn listing(rules: Rules, policy: Policy, buffer: &mut [u32]) -> Result<u64, Refusal>
    ensures { ListedAs rules policy buffer.old buffer.new result }
{
    form::refuse_sets(rules, policy)?; // the buffer stays
    let mut charts = Charts::EMPTY;
    charts.fill(rules, policy);
    Ok(findings::listing(rules, policy, &charts, buffer))
}
