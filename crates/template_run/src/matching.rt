//! Which rules match a node, and which one is chosen for it.
ghost use Rattle.std.specs.Prelude.{◌≡◌, Bool, Some, None, List, IfOk};
ghost use Rattle.serna_kinds.specs.declared.cells.Kind.{Kind as NodeKind};
ghost use Rattle.template_choice.specs.Chosen.{chosen};
ghost use Rattle.template_run.specs.Labels.{is_root, is_named, is_for_label, has_match, fits_label};

use instance_store::Request;
use serna_kinds::{Kind, NameId, NameTable, NoMemory, NodeRef};
use style_sheet::{Choice, Pattern, Rule, Style};
use template_choice::{Matcher, choose};

/// What a node is, with an element's name; None for an attribute.
pub(crate) type Label = Option<(Kind, Option<NameId>)>;

/// A matcher for one node, of which it is known what it is: so far no pattern asks for more (XSLT 1.0, section 5.2).
#[derive(Clone, Copy)]
struct Labelled<'a> {
    rules: &'a [Rule],
    names: &'a NameTable,
    node: NodeRef,
    label: Label,
}

impl<'a> Matcher for Labelled<'a> {
    ghost use Rattle.std.specs.Prelude.{◌≡◌, ℕ};
    ghost use Rattle.template_run.specs.Labels.{KnownNode, fits_among};

    ghost Part = { KnownNode };

    ghost part = { λ m. record { rules = m.rules.now; names = m.names.now; node = m.node; label = m.label } };

    ghost asks = { λ p number node. node ≡ p.node };

    ghost agrees = { λ m relation. (number : ℕ) → relation number m.node ≡ fits_among m.names.now m.rules.now m.label number };

    fn matches(&mut self, rule: u32, _node: NodeRef) -> Result<bool, NoMemory> {
        Ok(match self.rules.get(rule as usize) {
            Some(rule) => has_match(self.names, self.label, rule.pattern),
            None => false,
        })
    }
}

/// The choice for a request whose node is so (XSLT 1.0, sections 5.3 and 5.5).
pub(crate) fn choice_for(
    style: &Style,
    names: &NameTable,
    request: &Request,
    label: Label,
) -> Result<Choice, NoMemory>
    ensures { IfOk result (λ choice. choice ≡ chosen style.now (fits_label names.now style.now label) request.now) }
{
    let mut labelled = Labelled {
        rules: style.rules(),
        names,
        node: request.node,
        label,
    };
    choose(style, request, &mut labelled)
}

/// Whether a node that is so matches a rule's pattern, if it has one.
fn has_match(names: &NameTable, label: Label, pattern: Option<Pattern>) -> bool
    ensures { result ≡ has_match names.now label pattern }
{
    match pattern {
        Some(pattern) => is_for(names, pattern, label),
        None => false,
    }
}

/// Whether a node that is so matches a pattern.
fn is_for(names: &NameTable, pattern: Pattern, label: Label) -> bool
    ensures { result ≡ is_for_label names.now pattern label }
{
    let Some((kind, name)) = label else {
        return false;
    };
    match pattern {
        Pattern::Root => is_root(kind),
        Pattern::Named(id) => is_named(names, id, name),
    }
}

fn is_root(kind: Kind) -> bool
    ensures { result ≡ is_root kind }
{
    match kind {
        Kind::Root => true,
        Kind::Element => false,
        Kind::Text => false,
        Kind::Comment => false,
    }
}

fn is_named(names: &NameTable, id: NameId, name: Option<NameId>) -> bool
    ensures { result ≡ is_named names.now id name }
{
    match name {
        Some(name) => names.same(id, name),
        None => false,
    }
}
