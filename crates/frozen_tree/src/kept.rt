//! Values of cells that own what they hold, and changes of cells.

ghost use Rattle.std.specs.Prelude.{◌≡◌, ◌↔◌, IsTrue, IfOk};
ghost use Rattle.serna_kinds.specs.Content.{content_of};
ghost use Rattle.frozen_tree.specs.Maps.{kept_content};

use serna_kinds::{AttrPair, Cell, CellValue, Chars, Kind, NameId, NoMemory, NodeName};
use std::marker::Model;
use std::sync::ArcSlice;

/// A list that copies share, also among threads. Contracts see it as the list of its items.
#[derive(Debug, Drop)]
pub struct SharedItems<T> {
    items: ArcSlice<T>,
}

impl<T> Model for SharedItems<T> {
    ghost use Rattle.std.specs.Prelude.{List};
    ghost use Rattle.std.specs.Coded.{coded_list};
    ghost use Rattle.std.specs.Arc.{arc_slice_items};

    ghost Value = { List T };

    ghost coded = { coded_list T.code };

    ghost view = { λ s. arc_slice_items s.items };
}

impl<T: Drop> SharedItems<T> {
    /// The items of a list that the caller hands over. Takes memory for what is shared beside them, and none for them.
    pub fn from_vec(items: Vec<T>) -> Result<SharedItems<T>, NoMemory>
        ensures { IfOk result (λ s. s ≡ items.items) }
    {
        let items = ArcSlice::from_vec(items)?;
        Ok(SharedItems { items })
    }

    /// The items, in their order.
    pub fn as_slice(&self) -> &[T]
        ensures { result.now ≡ self.now }
    {
        self.items.as_slice()
    }

    /// The same list, which shares its memory. Takes none; `Err` comes only where 2^63 copies are there.
    pub fn copy(&self) -> Result<SharedItems<T>, NoMemory>
        ensures { IfOk result (λ s. s ≡ self.now) }
    {
        let items = self.items.clone()?;
        Ok(SharedItems { items })
    }
}

/// The value of a cell with lists and texts of its own, which copies share: what [`CellValue`] is without a source to borrow from.
#[derive(Debug, Drop)]
pub enum KeptValue {
    Label(Kind, Option<NameId>),
    Kids(SharedItems<NodeName>),
    Up(Option<NodeName>),
    Attrs(SharedItems<AttrPair>),
    Text(Chars),
}

impl KeptValue {
    /// The value, borrowed.
    pub fn as_value(&self) -> CellValue<'_>
        ensures { content_of result ≡ kept_content self.now }
    {
        match self {
            KeptValue::Label(kind, name) => CellValue::Label(*kind, *name),
            KeptValue::Kids(kids) => CellValue::Kids(kids.as_slice()),
            KeptValue::Up(parent) => CellValue::Up(*parent),
            KeptValue::Attrs(pairs) => CellValue::Attrs(pairs.as_slice()),
            KeptValue::Text(text) => CellValue::Text(text.as_text()),
        }
    }

    /// Whether the value says the same as another one. It compares what both hold, up to the first difference. Takes no memory.
    pub fn says_same(&self, other: &KeptValue) -> bool
        ensures { IsTrue result ↔ (kept_content self.now ≡ kept_content other.now) }
    {
        match self {
            KeptValue::Label(kind, name) => {
                let KeptValue::Label(other_kind, other_name) = other else {
                    return false;
                };
                kind == other_kind && name == other_name
            }
            KeptValue::Kids(kids) => {
                let KeptValue::Kids(others) = other else {
                    return false;
                };
                are_same_numbers(kids.as_slice(), others.as_slice())
            }
            KeptValue::Up(parent) => {
                let KeptValue::Up(other_parent) = other else {
                    return false;
                };
                parent == other_parent
            }
            KeptValue::Attrs(pairs) => {
                let KeptValue::Attrs(others) = other else {
                    return false;
                };
                are_same_pairs(pairs.as_slice(), others.as_slice())
            }
            KeptValue::Text(text) => {
                let KeptValue::Text(other_text) = other else {
                    return false;
                };
                is_same_text(text, other_text)
            }
        }
    }

    /// The same value, which shares its lists and texts. Takes no memory; `Err` comes only where 2^63 copies are there.
    pub fn copy(&self) -> Result<KeptValue, NoMemory>
        ensures { IfOk result (λ value. value ≡ self.now) }
    {
        match self {
            KeptValue::Label(kind, name) => Ok(KeptValue::Label(*kind, *name)),
            KeptValue::Kids(kids) => {
                let kids = kids.copy()?;
                Ok(KeptValue::Kids(kids))
            }
            KeptValue::Up(parent) => Ok(KeptValue::Up(*parent)),
            KeptValue::Attrs(pairs) => {
                let pairs = pairs.copy()?;
                Ok(KeptValue::Attrs(pairs))
            }
            KeptValue::Text(text) => {
                let text = text.copy()?;
                Ok(KeptValue::Text(text))
            }
        }
    }
}

/// Whether two lists of numbers are the same.
fn are_same_numbers(one: &[NodeName], other: &[NodeName]) -> bool
    ensures { IsTrue result ↔ (one.now ≡ other.now) }
{
    if one.len() != other.len() {
        return false;
    }
    'numbers: for (place, number) in one.iter().enumerate() {
        if number.0 != other[place].0 {
            return false;
        }
    }
    true
}

/// Whether two texts are the same.
fn is_same_text(one: &Chars, other: &Chars) -> bool
    ensures { IsTrue result ↔ (one.now ≡ other.now) }
{
    one.as_text() == other.as_text()
}

/// Whether two attributes are the same.
fn is_same_pair(one: &AttrPair, other: &AttrPair) -> bool
    ensures { IsTrue result ↔ (one.now ≡ other.now) }
{
    one.name.0 == other.name.0 && is_same_text(&one.value, &other.value)
}

/// Whether two lists of attributes are the same.
fn are_same_pairs(one: &[AttrPair], other: &[AttrPair]) -> bool
    ensures { IsTrue result ↔ (one.now ≡ other.now) }
{
    if one.len() != other.len() {
        return false;
    }
    'pairs: for (place, pair) in one.iter().enumerate() {
        if !is_same_pair(pair, &other[place]) {
            return false;
        }
    }
    true
}

/// A change of one cell: its new value, or None where the cell is taken out.
#[derive(Debug, Drop)]
pub struct CellChange {
    pub cell: Cell,
    pub value: Option<KeptValue>,
}
