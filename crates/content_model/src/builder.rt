//! The part of the reader that goes by tokens: which of them a model can go on with, and the nodes that they make.

ghost use Rattle.std.specs.Prelude.{◌≡◌, ◌↔◌, ◌++◌, ◌∷◌, [], ℕ, List, None, IsTrue, IfOk, OnOk, reverse};
ghost use Rattle.content_model.specs.Particle.{Particle, Repeated};
ghost use Rattle.content_model.specs.Machine.{Frame, Slot, State, Want, is_same as is_same_separator, may_follow as may_follow_frame, slot_state, filled, after_open, after_close, after_between, after_times, after_mark, begin_word as after_first, begin_keyword as keyword_at, begin_text as text_at, finished};
ghost use Rattle.content_model.specs.Shown.{Shows, Moves, Begins, Ends, Joins, shown_frame, token_of};
ghost use Rattle.content_model.specs.Passes.{is_nullable};

use crate::NoMemory;
use crate::model::Rule;
use crate::particle::{Node, Occurrence, Separator};
use serna_kinds::begins_name;
use std::alloc::Global;

/// The most parentheses that may be open at once.
const DEPTH: usize = 64;

/// A token of one byte.
#[derive(Clone, Copy, Debug)]
pub enum Mark {
    Open,
    Close,
    Between(Separator),
    Times(Occurrence),
}

/// Where in a model the reader stands, between two tokens.
#[derive(Clone, Copy, Debug)]
pub enum Place {
    /// Before a part of the innermost group, or before the model.
    Want,
    /// Behind a part, which has its sign or not.
    Behind(bool),
    /// Behind `#PCDATA` or a name of a mixed model.
    Mixed,
    /// Behind a `|` of a mixed model.
    MixedName,
    /// Behind the `)` of a mixed model.
    MixedEnd,
    /// Behind the `*` of a mixed model.
    MixedDone,
    /// Behind `EMPTY`.
    Empty,
    /// Behind `ANY`.
    Any,
}

/// A group that is open and has a part already: how its parts are joined, and whether those so far allow no children.
#[derive(Clone, Copy, Debug)]
pub struct Joined {
    pub separator: Separator,
    pub nullable: bool,
}

/// What a byte begins that is no token by itself.
#[derive(Clone, Copy, Debug)]
pub enum Begun {
    Nothing,
    Name,
    /// A fixed word, of which this is left.
    Fixed(&'static [u8]),
}

/// What the tokens so far made.
#[derive(Drop)]
pub struct Builder {
    pub place: Place,
    /// The groups that are open, the outermost first.
    pub groups: Vec<Option<Joined>>,
    /// The nodes of all parts so far.
    pub nodes: Vec<Node>,
    /// Whether the part that was just read allows no children.
    pub nullable: bool,
    /// The names of a mixed model.
    pub names: Vec<u64>,
}

/// Whether two separators are the same.
fn is_same(left: Separator, right: Separator) -> bool
    ensures { result ≡ is_same_separator left right }
{
    match left {
        Separator::Sequence => match right {
            Separator::Sequence => true,
            Separator::Choice => false,
        },
        Separator::Choice => match right {
            Separator::Sequence => false,
            Separator::Choice => true,
        },
    }
}

/// Whether the separator may come behind a part of this group.
fn may_follow(group: Option<Joined>, separator: Separator) -> bool
    ensures { (f : Frame) → shown_frame f ≡ group → result ≡ may_follow_frame f separator }
{
    match group {
        None => true,
        Some(before) => is_same(before.separator, separator),
    }
}

/// Whether one group is open, and has no part yet.
fn is_fresh(groups: &[Option<Joined>]) -> bool
    ensures { IsTrue result ↔ (groups.now ≡ None ∷ []) }
{
    match groups {
        [group] => group.is_none(),
        _ => false,
    }
}

/// Whether there are none of these.
fn is_nil<T>(items: &[T]) -> bool
    ensures { IsTrue result ↔ (items.now ≡ []) }
{
    match items {
        [] => true,
        _ => false,
    }
}

/// Joins the part that was just read to those before it in its group. Answers whether they allow no children.
fn join(nodes: &mut Vec<Node>, nullable: bool, group: Option<Joined>) -> Result<bool, NoMemory>
    ensures { IfOk result (λ joined. Joins group nodes.old.items nodes.new.items nullable joined) }
{
    match group {
        None => Ok(nullable),
        Some(before) => match before.separator {
            Separator::Sequence => {
                nodes.push(Node::Sequence(before.nullable, nullable))?;
                Ok(before.nullable && nullable)
            }
            Separator::Choice => {
                nodes.push(Node::Choice)?;
                Ok(before.nullable || nullable)
            }
        },
    }
}

impl Builder {
    /// Before the first token.
    pub fn new(alloc: Global) -> Builder
        ensures { (number : List ℕ → ℕ) → Shows number result (Want []) }
    {
        Builder {
            place: Place::Want,
            groups: Vec::new(alloc),
            nodes: Vec::new(alloc),
            nullable: false,
            names: Vec::new(alloc),
        }
    }

    /// A token of one byte. Answers whether a model can go on with it.
    pub fn mark(&mut self, mark: Mark) -> Result<bool, NoMemory>
        ensures { IfOk result (λ ok. (number : List ℕ → ℕ) (s : State) → Shows number self.old s → Moves number ok self.new (after_mark s (token_of mark))) }
    {
        let ok = match mark {
            Mark::Open => self.begin_group()?,
            Mark::Close => self.end_group()?,
            Mark::Between(separator) => self.between(separator)?,
            Mark::Times(occurrence) => self.times(occurrence)?,
        };
        Ok(ok)
    }

    /// A `(`.
    fn begin_group(&mut self) -> Result<bool, NoMemory>
        ensures { IfOk result (λ ok. (number : List ℕ → ℕ) (s : State) → Shows number self.old s → Moves number ok self.new (after_open s)) }
    {
        match self.place {
            Place::Want => {
                if self.groups.len() < DEPTH {
                    self.groups.push(None)?;
                    Ok(true)
                } else {
                    Ok(false)
                }
            }
            _ => Ok(false),
        }
    }

    /// A `)`.
    fn end_group(&mut self) -> Result<bool, NoMemory>
        ensures { IfOk result (λ ok. (number : List ℕ → ℕ) (s : State) → Shows number self.old s → Moves number ok self.new (after_close s)) }
    {
        match self.place {
            Place::Behind(_) => match self.groups.pop() {
                Some(group) => {
                    self.nullable = join(&mut self.nodes, self.nullable, group)?;
                    self.place = Place::Behind(false);
                    Ok(true)
                }
                None => Ok(false),
            },
            Place::Mixed => {
                self.place = Place::MixedEnd;
                Ok(true)
            }
            _ => Ok(false),
        }
    }

    /// A `,` or `|`.
    fn between(&mut self, separator: Separator) -> Result<bool, NoMemory>
        ensures { IfOk result (λ ok. (number : List ℕ → ℕ) (s : State) → Shows number self.old s → Moves number ok self.new (after_between separator s)) }
    {
        match self.place {
            Place::Behind(_) => match self.groups.pop() {
                Some(group) => {
                    if may_follow(group, separator) {
                        let nullable = join(&mut self.nodes, self.nullable, group)?;
                        self.groups.push(Some(Joined {
                            separator,
                            nullable,
                        }))?;
                        self.place = Place::Want;
                        Ok(true)
                    } else {
                        Ok(false)
                    }
                }
                None => Ok(false),
            },
            Place::Mixed => match separator {
                Separator::Choice => {
                    self.place = Place::MixedName;
                    Ok(true)
                }
                Separator::Sequence => Ok(false),
            },
            _ => Ok(false),
        }
    }

    /// A `?`, `*` or `+`.
    fn times(&mut self, occurrence: Occurrence) -> Result<bool, NoMemory>
        ensures { IfOk result (λ ok. (number : List ℕ → ℕ) (s : State) → Shows number self.old s → Moves number ok self.new (after_times occurrence s)) }
    {
        match self.place {
            Place::Behind(signed) => {
                if signed {
                    Ok(false)
                } else {
                    self.nodes.push(Node::Repeated(occurrence))?;
                    self.nullable = is_nullable_times(occurrence, self.nullable);
                    self.place = Place::Behind(true);
                    Ok(true)
                }
            }
            Place::MixedEnd => match occurrence {
                Occurrence::ZeroOrMore => {
                    self.place = Place::MixedDone;
                    Ok(true)
                }
                Occurrence::Optional => Ok(false),
                Occurrence::OneOrMore => Ok(false),
            },
            _ => Ok(false),
        }
    }

    /// A whole name, where one is wanted, by its symbol.
    pub fn name(&mut self, symbol: u64) -> Result<(), NoMemory>
        ensures { OnOk result ((number : List ℕ → ℕ) (slot : Slot) (written : List ℕ) → number written ≡ symbol → Shows number self.old (slot_state slot)
            → Shows number self.new (filled slot written)) }
    {
        match self.place {
            Place::MixedName => {
                self.names.push(symbol)?;
                self.place = Place::Mixed;
                Ok(())
            }
            _ => {
                self.nodes.push(Node::Name(symbol))?;
                self.nullable = false;
                self.place = Place::Behind(false);
                Ok(())
            }
        }
    }

    /// The first byte of a name or a fixed word. Behind a fixed word the place is already the one behind all of it.
    pub fn begin_word(&mut self, byte: u8) -> Begun
        ensures { (number : List ℕ → ℕ) (s : State) → Shows number self.old s → Begins number byte result self.new (after_first s byte) }
    {
        match self.place {
            Place::Want => {
                if is_nil(self.groups.as_slice()) {
                    self.begin_keyword(byte)
                } else if begins_name(byte) {
                    Begun::Name
                } else {
                    self.begin_text(byte)
                }
            }
            Place::MixedName => {
                if begins_name(byte) {
                    Begun::Name
                } else {
                    Begun::Nothing
                }
            }
            _ => Begun::Nothing,
        }
    }

    /// The first byte of `EMPTY` or `ANY`.
    fn begin_keyword(&mut self, byte: u8) -> Begun
        ensures { (number : List ℕ → ℕ) → Shows number self.old (Want []) → Begins number byte result self.new (keyword_at byte) }
    {
        if byte == b'E' {
            self.place = Place::Empty;
            Begun::Fixed(b"MPTY")
        } else if byte == b'A' {
            self.place = Place::Any;
            Begun::Fixed(b"NY")
        } else {
            Begun::Nothing
        }
    }

    /// The first byte of `#PCDATA`, which stands only behind the outermost parenthesis.
    fn begin_text(&mut self, byte: u8) -> Begun
        ensures { (number : List ℕ → ℕ) (f : Frame) (fs : List Frame) → Shows number self.old (Want (f ∷ fs)) → Begins number byte result self.new (text_at f fs byte) }
    {
        if byte == b'#' && is_fresh(self.groups.as_slice()) {
            self.place = Place::Mixed;
            Begun::Fixed(b"PCDATA")
        } else {
            Begun::Nothing
        }
    }

    /// The model, where the text may end here.
    pub fn finish(self) -> Option<Rule>
        ensures { (number : List ℕ → ℕ) (s : State) → Shows number self s → Ends number result (finished s) }
    {
        match self.place {
            Place::Behind(_) => {
                if is_nil(self.groups.as_slice()) {
                    Some(Rule::Group(self.nodes, self.nullable))
                } else {
                    None
                }
            }
            Place::MixedEnd => {
                if is_nil(self.names.as_slice()) {
                    Some(Rule::Mixed(self.names))
                } else {
                    None
                }
            }
            Place::MixedDone => Some(Rule::Mixed(self.names)),
            Place::Empty => Some(Rule::Empty),
            Place::Any => Some(Rule::Any),
            _ => None,
        }
    }
}

/// Whether a part allows no children, so often.
fn is_nullable_times(occurrence: Occurrence, nullable: bool) -> bool
    ensures { (p : Particle (List ℕ)) → nullable ≡ is_nullable p → result ≡ is_nullable (Repeated occurrence p) }
{
    match occurrence {
        Occurrence::Optional => true,
        Occurrence::ZeroOrMore => true,
        Occurrence::OneOrMore => nullable,
    }
}
