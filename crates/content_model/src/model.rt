//! A content model, read from its text and asked for lists of children.

ghost use Rattle.std.specs.Prelude.{◌≡◌, ◌<◌, ◌↔◌, ◌⊎◌, ℕ, List, IsTrue, IfOk, IfErr, MatchResult, All, Contains, map};
ghost use Rattle.std.specs.List.{AllByRecursion, filter_map};
ghost use Rattle.content_model.specs.Particle.{Content, with_names, content_names};
ghost use Rattle.content_model.specs.Language.{Allows};
ghost use Rattle.content_model.specs.Symbols.{number_in, Grows};
ghost use Rattle.content_model.specs.Grammar.{IsText, IsFirstFault};
ghost use Rattle.content_model.specs.Kept.{content_of, name_at, IsKept};

use crate::matching::matches;
use crate::particle::Node;
use crate::reader::Reader;
use crate::{NoMemory, Symbols};
use std::alloc::Global;
use std::marker;

/// What an element may contain (XML 1.0, section 3.2): nothing, anything, text among the children listed, or the
/// children of a group.
#[derive(Drop)]
pub struct Model {
    rule: Rule,
}

impl marker::Model for Model {
    ghost use Rattle.std.specs.Prelude.{ℕ};
    ghost use Rattle.content_model.specs.Particle.{Content};
    ghost use Rattle.content_model.specs.Stored.{content_code};

    ghost Value = { Content ℕ };

    ghost coded = { content_code };

    ghost use Rattle.content_model.specs.Kept.{content_of, IsKept};

    ghost view = { λ m. content_of m.rule };

    ghost invariant = { λ m. IsKept m.rule };
}

/// The four kinds of model. `allows` looks at nothing else.
#[derive(Drop)]
pub enum Rule {
    Empty,
    Any,
    Mixed(Vec<u64>),
    /// The nodes of the group's tree, and whether it allows no children at all.
    Group(Vec<Node>, bool),
}

/// Why a text is no model.
#[derive(Debug, Drop)]
pub enum ModelFault {
    /// The first byte, from 0, at which no model can go on; the text's length where the text ends too early.
    Syntax(usize),
    /// No memory was left.
    NoMemory,
}

impl Model {
    /// Reads a model (XML 1.0, section 3.2; U+0020 is the one white space), and gives each of its names a number. At most 64
    /// parentheses are open at once; one more is a fault. The table of symbols gets names, also where the text has a fault.
    pub fn read(alloc: Global, text: &str, symbols: &mut Symbols) -> Result<Model, ModelFault>
        // The model is one that the text spells, with the numbers of its names.
        ensures model { IfOk result (λ m. (written : Content (List ℕ)) × IsText text.now written × (m ≡ with_names (number_in symbols.new) written)) }
        // It is the only one.
        ensures only { IfOk result (λ m. (written : Content (List ℕ)) → IsText text.now written → m ≡ with_names (number_in symbols.new) written) }
        // Each of its names has a number: 0 is none.
        ensures named { IfOk result (λ m. AllByRecursion (λ n. 0 < n) (content_names m)) }
        // A fault stands at the first place where no model can go on.
        ensures fault { IfErr result (λ e. (place : ℕ) → e ≡ ModelFault.Syntax place → IsFirstFault text.now place) }
        // A text with a fault is refused, and at no other place.
        ensures refused { (place : ℕ) → IsFirstFault text.now place → MatchResult result (λ _. ⊥) (λ e. (other : ℕ) → e ≡ ModelFault.Syntax other → other ≡ place) }
        ensures symbols { Grows symbols.old symbols.new }
    {
        match read_rule(alloc, text.as_bytes(), symbols) {
            Ok(rule) => Ok(Model { rule }),
            Err(fault) => Err(fault),
        }
    }

    /// The numbers of the names that the model has, from left to right as they are written; one that is written twice stands
    /// there twice.
    pub fn names(&self, alloc: Global) -> Result<Vec<u64>, NoMemory>
        ensures { IfOk result (λ names. names.items ≡ content_names self.now) }
    {
        match &self.rule {
            Rule::Empty => Ok(Vec::new(alloc)),
            Rule::Any => Ok(Vec::new(alloc)),
            Rule::Mixed(names) => {
                let names = Vec::from_slice(alloc, names.as_slice())?;
                Ok(names)
            }
            Rule::Group(nodes, _) => {
                let names = names_of(alloc, nodes.as_slice())?;
                Ok(names)
            }
        }
    }

    /// Whether the children of an element are allowed. A child element is the number of its name, and a text is 0.
    pub fn allows(&self, alloc: Global, word: &[u64]) -> Result<bool, NoMemory>
        ensures { IfOk result (λ allowed. IsTrue allowed ↔ Allows self.now word.now) }
    {
        match &self.rule {
            Rule::Empty => Ok(word.is_empty()),
            Rule::Any => Ok(true),
            Rule::Mixed(names) => Ok(is_mixture(names.as_slice(), word)),
            Rule::Group(nodes, nullable) => {
                let allowed = matches(alloc, nodes.as_slice(), *nullable, word)?;
                Ok(allowed)
            }
        }
    }
}

/// The number of a name's node; a node that joins or repeats parts has none.
fn name_of(node: Node) -> Option<u64>
    ensures { result ≡ name_at node }
{
    match node {
        Node::Name(symbol) => Some(symbol),
        _ => None,
    }
}

/// The numbers of the names among a group's nodes, in their order.
fn names_of(alloc: Global, nodes: &[Node]) -> Result<Vec<u64>, NoMemory>
    ensures { IfOk result (λ names. names.items ≡ filter_map name_at nodes.now) }
{
    nodes
        .iter()
        .filter_map(|node| name_of(*node))
        .collect(alloc)
}

/// Reads a model byte by byte.
fn read_rule(alloc: Global, bytes: &[u8], symbols: &mut Symbols) -> Result<Rule, ModelFault>
    ensures kept { IfOk result IsKept }
    ensures model { IfOk result (λ rule. (written : Content (List ℕ)) × IsText bytes.now written × (content_of rule ≡ with_names (number_in symbols.new) written)) }
    ensures only { IfOk result (λ rule. (written : Content (List ℕ)) → IsText bytes.now written → content_of rule ≡ with_names (number_in symbols.new) written) }
    ensures named { IfOk result (λ rule. AllByRecursion (λ n. 0 < n) (content_names (content_of rule))) }
    ensures fault { IfErr result (λ e. (place : ℕ) → e ≡ ModelFault.Syntax place → IsFirstFault bytes.now place) }
    ensures symbols { Grows symbols.old symbols.new }
{
    let mut reader = Reader::new(alloc);
    for at in 0..bytes.len() {
        match reader.byte(alloc, symbols, bytes, at) {
            Ok(true) => {}
            Ok(false) => return Err(ModelFault::Syntax(at)),
            Err(_) => return Err(ModelFault::NoMemory),
        }
    }
    match reader.finish() {
        Some(rule) => Ok(rule),
        None => Err(ModelFault::Syntax(bytes.len())),
    }
}

/// Whether each symbol is text or one of the names.
fn is_mixture(names: &[u64], word: &[u64]) -> bool
    ensures { IsTrue result ↔ All (λ symbol. (symbol ≡ 0) ⊎ Contains names.now symbol) word.now }
{
    word.iter()
        .all(|symbol| *symbol == 0 || names.contains(symbol))
}

/// The law of a model's names: those of a model whose names were numbered are the numbers of its written names, in order.
pub fn numbers_of_names()
    ensures { (number : List ℕ → ℕ) (written : Content (List ℕ)) → content_names (with_names number written) ≡ map number (content_names written) }
{}

/// A law of the grammar: a text has one first fault at most.
pub fn one_first_fault()
    ensures { (text : List ℕ) (one other : ℕ) → IsFirstFault text one → IsFirstFault text other → one ≡ other }
{}
