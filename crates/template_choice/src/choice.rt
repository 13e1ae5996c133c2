ghost use Rattle.std.specs.Prelude.{◌≡◌, ℕ, Bool, IfOk, Some, None, slice_get};
ghost use Rattle.std.specs.Option.{option_map};
ghost use Rattle.serna_kinds.specs.declared.cells.NodeRef.{NodeRef};
ghost use Rattle.template_choice.specs.Chosen.{is_mode, is_imported, can_answer, best_of, rule_asking, chosen};
ghost use Rattle.style_sheet.specs.declared.style.Rule.{Rule};

use crate::Matcher;
use instance_store::{Call, Request};
use serna_kinds::{NameId, NoMemory};
use style_sheet::{Choice, Rule, Style};

/// Which rules can answer: those of a mode (XSLT 1.0, section 5.7), and for `xsl:apply-imports` those of them that are imported
/// into the module of the rule that asks (section 5.6).
#[derive(Clone, Copy)]
struct Wanted<'a> {
    mode: Option<NameId>,
    asking: Option<&'a Rule>,
}

/// What a request is answered by (XSLT 1.0, sections 5.3 and 5.5): of the rules of its mode that match its node the greatest by
/// import precedence, priority and place, or the built-in rules where none matches; for a rule that is called by its name, that
/// rule; and for `xsl:apply-imports` the greatest of those that are imported into the module of the rule that asks.
///
/// The rules are asked for from the greatest on, down to the first one that matches, and of those alone that can answer. `Err`
/// comes where the matcher has no memory.
pub fn choose<M: Matcher>(
    style: &Style,
    request: &Request,
    matcher: &mut M,
) -> Result<Choice, NoMemory>
    // The matcher may be asked of the request's node and of each rule.
    requires { (number : ℕ) (rule : Rule) → slice_get style.now.rules number ≡ Some rule → M.asks (M.part matcher.old) number request.now.node }

    // The matcher keeps the part that no call changes.
    ensures part { M.part matcher.new ≡ M.part matcher.old }

    // It is the choice of every relation of rules and nodes that agrees with what the matcher has answered.
    ensures value { IfOk result (λ choice. (relation : ℕ → NodeRef → Bool) → M.agrees matcher.new relation → choice ≡ chosen style.now (λ number. relation number request.now.node) request.now) }

    // What agrees with its answers has agreed before.
    ensures before { (relation : ℕ → NodeRef → Bool) → M.agrees matcher.new relation → M.agrees matcher.old relation }
{
    match request.call {
        Call::Apply => {
            let wanted = Wanted {
                mode: request.mode,
                asking: None,
            };
            first_match(style, request, wanted, matcher)
        }
        Call::Named(number) => Ok(Choice::Rule(number)),
        Call::Imports => match rule_asking(style, request) {
            Some(rule) => {
                let wanted = Wanted {
                    mode: request.mode,
                    asking: Some(rule),
                };
                first_match(style, request, wanted, matcher)
            }
            None => Ok(Choice::BuiltIn),
        },
    }
}

/// The current rule of a request, if it has one.
fn rule_asking<'s>(style: &'s Style, request: &Request) -> Option<&'s Rule>
    ensures { option_map (λ rule. rule.now) result ≡ rule_asking style.now request.now }
{
    match request.rule {
        Some(number) => style.rules().get(number as usize),
        None => None,
    }
}

/// The first rule, from the greatest on, that can answer and matches the request's node.
fn first_match<M: Matcher>(
    style: &Style,
    request: &Request,
    wanted: Wanted<'_>,
    matcher: &mut M,
) -> Result<Choice, NoMemory>
    requires { (number : ℕ) (rule : Rule) → slice_get style.now.rules number ≡ Some rule → M.asks (M.part matcher.old) number request.now.node }
    ensures part { M.part matcher.new ≡ M.part matcher.old }
    ensures value { IfOk result (λ choice. (relation : ℕ → NodeRef → Bool) → M.agrees matcher.new relation →
        choice ≡ best_of style.now (λ number. relation number request.now.node) wanted.entry.mode (option_map (λ rule. rule.now) wanted.entry.asking)) }
    ensures before { (relation : ℕ → NodeRef → Bool) → M.agrees matcher.new relation → M.agrees matcher.old relation }
{
    let rules = style.rules();
    for number in style.greatest_first() {
        let rule = &rules[*number as usize];
        if can_answer(wanted, rule) && matcher.matches(*number, request.node)? {
            return Ok(Choice::Rule(*number));
        }
    }
    Ok(Choice::BuiltIn)
}

/// Whether a rule can answer.
fn can_answer(wanted: Wanted<'_>, rule: &Rule) -> bool
    ensures { result ≡ can_answer wanted.entry.mode (option_map (λ asking. asking.now) wanted.entry.asking) rule.now }
{
    if rule.pattern.is_none() || !is_mode(wanted.mode, rule.mode) {
        return false;
    }
    match wanted.asking {
        Some(asking) => is_imported(asking, rule),
        None => true,
    }
}

/// Whether a rule is imported into the module of another.
fn is_imported(asking: &Rule, rule: &Rule) -> bool
    ensures { result ≡ is_imported asking.now rule.now }
{
    asking.lowest <= rule.precedence && rule.precedence < asking.precedence
}

/// Whether two modes are the same.
fn is_mode(a: Option<NameId>, b: Option<NameId>) -> bool
    ensures { result ≡ is_mode a b }
{
    match (a, b) {
        (None, None) => true,
        (Some(a), Some(b)) => a.0 == b.0,
        _ => false,
    }
}
