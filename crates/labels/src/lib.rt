// The label of a packet, for any rules, policy and packet: its kind and rule, or refusal 14. Beside it the lowest directive
// that asks for an action at a packet, the rule that decides it, and the label without a look at form. `label` looks at
// the form of all records within the counts; then it goes over the rules up to the one that decides, over the exceptions,
// and over the directives for each action. No set is copied in a loop. Each contract says that the answer is what
// `meaning` defines for what the values stand for, and so leaves one answer only.

#![tactic(auto)]

ghost use Rattle.std.specs.Prelude.{◌≡◌};
ghost use Rattle.meaning.specs.Blocks.{holds};
ghost use Rattle.meaning.specs.Form.{table_of, policy_of};
ghost use Rattle.meaning.specs.Labels.{judged, label};
ghost use Rattle.meaning.specs.Policies.{lowest_asking};
ghost use Rattle.meaning.specs.Rules.{deciding};
ghost use Rattle.blocks.specs.Vocabulary.{block_of, packet_of};
ghost use Rattle.sets.specs.Vocabulary.{action_of, exception_of, rule_set_of, policy_set_of, label_of};
ghost use Rattle.labels.specs.Answers.{decided_of, number_told, LabelledAs};
ghost use Rattle.labels.specs.Inner.{one_asked, asked_by, Excepted, excepted_directive, number_excepted};

use blocks::Packet;
use sets::{
    Action, Directive, Exception, Label, MOST_DIRECTIVES, MOST_EXCEPTIONS, MOST_RULES, Policy,
    Refusal, Rule, Rules,
};

// The rule that decides a packet, with its number.
#[derive(Clone, Copy)]
pub struct Decided {
    pub number: u32,
    pub rule: Rule,
}

// The label of the packet, or 14 if the rules, the policy or the packet are not in form.
pub fn label(rules: Rules, policy: Policy, packet: Packet) -> Result<Label, Refusal>
    ensures { LabelledAs rules policy packet result }
{
    form::refuse_label(rules, policy, packet)?;
    Ok(label_of(rules, policy, packet))
}

// The lowest-numbered rule whose block holds the packet. It looks no further than that rule.
pub fn deciding(rules: Rules, packet: Packet) -> Option<Decided>
    ensures { decided_of result ≡ deciding (table_of (rule_set_of rules)) (packet_of packet) }
{
    let records = &rules.records[..rules.count.min(MOST_RULES)];
    let place = records.iter().position(|rule| rule.block.holds(packet))?;
    Some(Decided {
        number: place as u32 + 1,
        rule: records[place],
    })
}

// The lowest directive that asks for the action at the packet.
pub fn lowest_asking(policy: Policy, action: Action, packet: Packet) -> Option<u32>
    ensures { result ≡ number_told (lowest_asking (policy_of (policy_set_of policy)) (action_of action) (packet_of packet)) }
{
    first_asking(policy, excepted(policy, packet), action, packet)
}

// The label by the records within the counts, whether these are in form or not.
pub fn label_of(rules: Rules, policy: Policy, packet: Packet) -> Label
    ensures { label_of result ≡ label (table_of (rule_set_of rules)) (policy_of (policy_set_of policy)) (packet_of packet) }
{
    let marks = excepted(policy, packet);
    let accept = first_asking(policy, marks, Action::Accept, packet);
    let deny = first_asking(policy, marks, Action::Deny, packet);
    let decided = deciding(rules, packet);
    judge(accept.is_some(), deny.is_some(), decided)
}

// The label by whether accept and deny are asked, and by the deciding rule.
fn judge(accept: bool, deny: bool, decided: Option<Decided>) -> Label
    ensures { label_of result ≡ judged accept deny (decided_of decided) }
{
    match (accept, deny, decided) {
        (true, true, _) => Label::Conflict,
        (true, false, _) => judge_one(Action::Accept, decided),
        (false, true, _) => judge_one(Action::Deny, decided),
        (false, false, Some(by)) => Label::Unasked(by.number),
        (false, false, None) => Label::Good,
    }
}

// The label where this action is asked and the other is not.
fn judge_one(asked: Action, decided: Option<Decided>) -> Label
    ensures { label_of result ≡ one_asked (action_of asked) (decided_of decided) }
{
    match (asked, decided) {
        (_, Some(by)) => {
            if by.rule.action == asked {
                Label::Good
            } else {
                Label::Wrong(by.number)
            }
        }
        (Action::Accept, None) => Label::UnmetAccept,
        (Action::Deny, None) => Label::UnmetDeny,
    }
}

// The number of the first directive that asks for the action. The marks say of which directives an exception holds the packet.
fn first_asking(
    policy: Policy,
    marks: [bool; MOST_DIRECTIVES],
    action: Action,
    packet: Packet,
) -> Option<u32>
    requires { Excepted policy packet marks }
    ensures { result ≡ number_told (lowest_asking (policy_of (policy_set_of policy)) (action_of action) (packet_of packet)) }
{
    let directives = &policy.directives[..policy.directive_count.min(MOST_DIRECTIVES)];
    for (place, directive) in directives.iter().enumerate() {
        if asks(directive, marks[place], action, packet) {
            return Some(place as u32 + 1);
        }
    }
    None
}

// Whether a directive asks for the action, where it is told whether an exception of it holds the packet.
fn asks(directive: &Directive, excepted: bool, action: Action, packet: Packet) -> bool
    ensures { result ≡ asked_by (action_of action) (action_of directive.now.action) excepted (holds (block_of directive.now.block) (packet_of packet)) }
{
    if directive.action == action {
        !excepted && directive.block.holds(packet)
    } else {
        excepted
    }
}

// For each directive, at its place: whether an exception that names it holds the packet. The marks are made once for a packet, so
// that the exceptions are gone over once and not again for each directive. An array, as long as there can be directives: no heap.
fn excepted(policy: Policy, packet: Packet) -> [bool; MOST_DIRECTIVES]
    ensures { Excepted policy packet result }
{
    let mut marks = [false; MOST_DIRECTIVES];
    for exception in &policy.exceptions[..policy.exception_count.min(MOST_EXCEPTIONS)] {
        if let Some(place) = excepted_directive(exception, packet) {
            marks[place] = true;
        }
    }
    marks
}

// The place of the directive that the exception names, if its block holds the packet.
fn excepted_directive(exception: &Exception, packet: Packet) -> Option<usize>
    ensures { number_excepted result ≡ excepted_directive (packet_of packet) (exception_of exception.now) }
{
    let named = exception.directive as usize;
    if 1 <= named && named <= MOST_DIRECTIVES && exception.block.holds(packet) {
        Some(named - 1)
    } else {
        None
    }
}
