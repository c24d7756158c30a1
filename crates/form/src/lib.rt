// Whether rules, policies and packets are in form, and what is refused where they are not. Records past a count are not looked
// at. Every call answers for every value: what is not in form is refused by number 14. Each contract says that the refusal is the
// one that `meaning` defines for what the values stand for, and so leaves one answer only.

#![tactic(auto)]

ghost use Rattle.std.specs.Prelude.{cond, ◌&&◌, ◌≡◌, ◌≤◌, leb, map};
ghost use Rattle.meaning.specs.Fields.{fields};
ghost use Rattle.meaning.specs.Form.{most_directives, most_exceptions, unrefused, out_of_form, inside_of, block_in_form, rules_in_form, exceptions_in_form, policy_in_form, refuse_rules, refuse_policy, refuse_packet, refuse_sets, refuse_label};
ghost use Rattle.meaning.specs.Records.{numbered};
ghost use Rattle.blocks.specs.Vocabulary.{block_of, packet_of};
ghost use Rattle.sets.specs.Inner.{directives_of, exceptions_of};
ghost use Rattle.sets.specs.Vocabulary.{directive_of, exception_of, refused_of, rule_set_of, policy_set_of};

use blocks::Packet;
use sets::{
    Directive, Exception, MOST_DIRECTIVES, MOST_EXCEPTIONS, MOST_RULES, Policy, Reason, Refusal,
    Rules,
};

// 14 with 1 exactly if the rules are not in form.
pub fn refuse_rules(rules: Rules) -> Result<(), Refusal>
    ensures { refused_of result ≡ refuse_rules fields (rule_set_of rules) }
{
    refuse_unless(rules_in_form(rules), 1)
}

// 14 with 2 exactly if the policy is not in form.
pub fn refuse_policy(policy: Policy) -> Result<(), Refusal>
    ensures { refused_of result ≡ refuse_policy fields (policy_set_of policy) }
{
    refuse_unless(policy_in_form(policy), 2)
}

// 14 with 3 exactly if the packet is not in form.
pub fn refuse_packet(packet: Packet) -> Result<(), Refusal>
    ensures { refused_of result ≡ refuse_packet fields (packet_of packet) }
{
    refuse_unless(packet.in_form(), 3)
}

// What a call on both sets refuses: the rules first, then the policy.
pub fn refuse_sets(rules: Rules, policy: Policy) -> Result<(), Refusal>
    ensures { refused_of result ≡ refuse_sets fields (rule_set_of rules) (policy_set_of policy) }
{
    refuse_rules(rules)?;
    refuse_policy(policy)
}

// What a call on both sets and a packet refuses: the sets first, then the packet.
pub fn refuse_label(rules: Rules, policy: Policy, packet: Packet) -> Result<(), Refusal>
    ensures { refused_of result ≡ refuse_label fields (rule_set_of rules) (policy_set_of policy) (packet_of packet) }
{
    refuse_sets(rules, policy)?;
    refuse_packet(packet)
}

// No refusal if what was looked at is in form, else 14 and what it was, by the number that `out_of_form` puts in place of a line.
fn refuse_unless(in_form: bool, what: u32) -> Result<(), Refusal>
    ensures { refused_of result ≡ cond in_form unrefused (out_of_form what) }
{
    if in_form {
        Ok(())
    } else {
        Err(Refusal {
            reason: Reason::OutOfForm,
            line: what,
            field: 0,
        })
    }
}

// Whether the count is within its limit and each rule within the count in form.
fn rules_in_form(rules: Rules) -> bool
    ensures { result ≡ rules_in_form fields (rule_set_of rules) }
{
    rules.count <= MOST_RULES
        && rules.records[..rules.count]
            .iter()
            .all(|rule| rule.block.in_form())
}

// Whether both counts are within their limits and all records within them in form.
fn policy_in_form(policy: Policy) -> bool
    ensures { result ≡ policy_in_form fields (policy_set_of policy) }
{
    if MOST_DIRECTIVES < policy.directive_count || MOST_EXCEPTIONS < policy.exception_count {
        return false;
    }
    policy.directives[..policy.directive_count]
        .iter()
        .all(|directive| directive.block.in_form())
        && exceptions_in_form(policy)
}

// Whether each exception within the count is in form: it names a directive, not a lower one than the exception before it,
// lies inside it, and its block is in form.
fn exceptions_in_form(policy: Policy) -> bool
    requires { (policy.directive_count ≤ most_directives) × (policy.exception_count ≤ most_exceptions) }
    ensures { result ≡ exceptions_in_form fields (directives_of policy) 0 (exceptions_of policy) }
{
    let directives = &policy.directives[..policy.directive_count];
    let mut before = 0;
    for exception in &policy.exceptions[..policy.exception_count] {
        if !exception_in_form(exception, before, directives) {
            return false;
        }
        before = exception.directive;
    }
    true
}

// Whether an exception is in form beside the directives, where the exception before it named `before`.
fn exception_in_form(exception: &Exception, before: u32, directives: &[Directive]) -> bool
    ensures { let e = exception_of exception.now in
        result ≡ (leb before e.directive && inside_of (numbered (map directive_of directives.now) e.directive) e.block && block_in_form fields e.block) }
{
    before <= exception.directive && lies_inside(exception, directives) && exception.block.in_form()
}

// Whether an exception names one of the directives, and lies inside it.
fn lies_inside(exception: &Exception, directives: &[Directive]) -> bool
    ensures { let e = exception_of exception.now in
        result ≡ inside_of (numbered (map directive_of directives.now) e.directive) e.block }
{
    match exception.directive {
        0 => false,
        number => match directives.get(number as usize - 1) {
            Some(directive) => exception.block.inside(directive.block),
            None => false,
        },
    }
}
