// Reading a rule table. `read_rules` answers for every text: the rules in the order of their lines, or the first refusal by reason,
// line and field. Its contract says that the answer is what specs/RuleTexts defines for the bytes. What was read is in form and zero
// past its count (proofs/Formed).

#![tactic(auto)]

ghost use Rattle.std.specs.Prelude.{◌≡◌, ◌<◌};
ghost use Rattle.meaning.specs.Form.{most_rules};
ghost use Rattle.rule_text.specs.Inner.{rule_added, line_said, no_rules_read, none_said};
ghost use Rattle.rule_text.specs.RuleTexts.{rule_record, rule_line, read_rules};

use records::{FieldRefusal, Record};
use sets::{MOST_RULES, Reason, Refusal, Rule, Rules};
use texts::LineByLine;

// The rules read so far; the `impl` has to be of a type of this crate.
#[derive(Clone, Copy)]
struct RulesRead {
    rules: Rules,
}

impl LineByLine for RulesRead {
    ghost said = { line_said };

    ghost none = { no_rules_read };

    ghost kept = { λ read. Unit {0} };

    fn nothing() -> RulesRead {
        RulesRead {
            rules: Rules::empty(),
        }
    }

    #[tactic(auto, using(crate::proofs::RuleReading::rule_has_room))]
    fn read_line(&mut self, line: &[u8], number: u32) -> Result<(), Refusal> {
        match rule_line(line, self.rules.count) {
            Ok(None) => {}
            Ok(Some(rule)) => add_rule(&mut self.rules, rule),
            Err(refused) => return Err(refused.at_line(number)),
        }
        Ok(())
    }

    ghost says_nothing = { none_said };
}

// What a rule text means.
#[tactic(auto, using(crate::proofs::RuleReading::rules_met))]
pub fn read_rules(text: &[u8]) -> Result<Rules, Refusal>
    ensures { result ≡ read_rules text.now }
{
    let mut read = RulesRead::nothing();
    texts::read_text(text, &mut read)?;
    Ok(read.rules)
}

// What a line says, after so many rules: nothing, or a rule.
#[tactic(auto, unfolding(crate::specs::RuleTexts::rule_line))]
fn rule_line(line: &[u8], count: usize) -> Result<Option<Rule>, FieldRefusal>
    ensures { result ≡ rule_line count line.now }
{
    if records::is_skipped(line) {
        return Ok(None);
    }
    if records::is_named(line, b"rule") {
        let rule = rule_record(line, count)?;
        return Ok(Some(rule));
    }
    Err(FieldRefusal {
        reason: Reason::UnknownWord,
        field: 1,
    })
}

// A `rule` line, after so many rules. What it has in common with an `ask` line is `read_record`; what is left is the limit and the type.
#[tactic(auto, unfolding(crate::specs::RuleTexts::rule_record))]
fn rule_record(line: &[u8], count: usize) -> Result<Rule, FieldRefusal>
    ensures { result ≡ rule_record count line.now }
{
    let full = MOST_RULES <= count;
    let Record { action, block } = records::read_record(line, full)?;
    Ok(Rule { action, block })
}

// One rule more in the set.
fn add_rule(rules: &mut Rules, rule: Rule)
    requires { rules.old.count < most_rules }
    ensures { rules.new ≡ rule_added rules.old rule }
{
    rules.records[rules.count] = rule;
    rules.count += 1;
}
