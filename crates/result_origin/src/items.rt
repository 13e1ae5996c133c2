ghost use Rattle.std.specs.Prelude.{◌≡◌, [], ◌∷◌, ◌++◌, map, IfOk, OnOk, OnErr};
ghost use Rattle.result_origin.specs.Parts.{Says, Hole};
ghost use Rattle.result_origin.specs.Parts as mark;

use crate::Origin;
use serna_kinds::{Chars, NameId, NoMemory};
use std::alloc::Global;
use std::marker::Model;

/// One step through a result: a text with where its start comes from, an element's beginning with the number of its rule, an
/// attribute's beginning, its end, what stands between them being its value, the end of the innermost element, or a hole that
/// the result of a number fills.
#[derive(Debug, Drop)]
pub enum Item {
    Run(Chars, Origin),
    Begin(NameId, u32),
    Attr(NameId),
    AttrEnd,
    Finish,
    Hole(u64),
}

/// A list of items, which is a result or a piece of one. Contracts see it as what it says, part by part.
#[derive(Debug, Drop)]
pub struct Fragment {
    items: Vec<Item>,
}

impl Model for Fragment {
    ghost use Rattle.std.specs.Prelude.{ℕ, List, map};
    ghost use Rattle.result_origin.specs.Parts.{ResultPart};

    ghost Value = { List (ResultPart ℕ) };

    ghost use Rattle.result_origin.specs.Items.{part_of};

    ghost view = { λ f. map part_of f.items.items };
}

impl Fragment {
    ghost use Rattle.result_origin.specs.Items.{part_of};

    /// The fragment that says nothing. Takes no memory.
    pub fn new(alloc: Global) -> Fragment
        ensures { result ≡ [] }
    {
        Fragment {
            items: Vec::new(alloc),
        }
    }

    /// Its items, in order.
    pub fn items(&self) -> &[Item]
        ensures { map part_of result.now ≡ self.now }
    {
        self.items.as_slice()
    }

    /// Its items, in order, each moved out of it. Takes no memory.
    pub fn into_items(self) -> Vec<Item>
        ensures { map part_of result.items ≡ self }
    {
        let Fragment { items } = self;
        items
    }

    /// Adds a text and where its start comes from. After an error the fragment is as before.
    pub fn push_run(&mut self, text: Chars, origin: Origin) -> Result<(), NoMemory>
        ensures ok { OnOk result (self.new ≡ self.old ++ Says (mark.Run text origin) ∷ []) }
        ensures err { OnErr result (self.new ≡ self.old) }
    {
        self.push(Item::Run(text, origin))
    }

    /// Adds the beginning of an element that the rule of a number gives. After an error the fragment is as before.
    pub fn push_begin(&mut self, name: NameId, rule: u32) -> Result<(), NoMemory>
        ensures ok { OnOk result (self.new ≡ self.old ++ Says (mark.Begin name rule) ∷ []) }
        ensures err { OnErr result (self.new ≡ self.old) }
    {
        self.push(Item::Begin(name, rule))
    }

    /// Adds the beginning of an attribute: what is added before its end is its value. After an error the fragment is as before.
    pub fn push_attr(&mut self, name: NameId) -> Result<(), NoMemory>
        ensures ok { OnOk result (self.new ≡ self.old ++ Says (mark.Attr name) ∷ []) }
        ensures err { OnErr result (self.new ≡ self.old) }
    {
        self.push(Item::Attr(name))
    }

    /// Adds the end of the innermost attribute. After an error the fragment is as before.
    pub fn push_attr_end(&mut self) -> Result<(), NoMemory>
        ensures ok { OnOk result (self.new ≡ self.old ++ Says mark.AttrEnd ∷ []) }
        ensures err { OnErr result (self.new ≡ self.old) }
    {
        self.push(Item::AttrEnd)
    }

    /// Adds the end of the innermost element. After an error the fragment is as before.
    pub fn push_finish(&mut self) -> Result<(), NoMemory>
        ensures ok { OnOk result (self.new ≡ self.old ++ Says mark.Finish ∷ []) }
        ensures err { OnErr result (self.new ≡ self.old) }
    {
        self.push(Item::Finish)
    }

    /// Adds a hole that the result of a number fills. After an error the fragment is as before.
    pub fn push_hole(&mut self, id: u64) -> Result<(), NoMemory>
        ensures ok { OnOk result (self.new ≡ self.old ++ Hole id ∷ []) }
        ensures err { OnErr result (self.new ≡ self.old) }
    {
        self.push(Item::Hole(id))
    }

    /// Moves the items of another fragment to the end, without a copy. After an error both fragments are as before.
    pub fn append(&mut self, other: &mut Fragment) -> Result<(), NoMemory>
        ensures ok { OnOk result (self.new ≡ self.old ++ other.old) }
        ensures emptied { OnOk result (other.new ≡ []) }
        ensures err { OnErr result (self.new ≡ self.old) }
        ensures other_kept { OnErr result (other.new ≡ other.old) }
    {
        self.items.append(&mut other.items)
    }

    /// The same fragment, in memory of its own, but for the texts, which are shared.
    pub fn copy(&self, alloc: Global) -> Result<Fragment, NoMemory>
        ensures { IfOk result (λ same. same ≡ self.now) }
    {
        let mut same = Fragment::new(alloc);
        for item in self.items() {
            same.push(item.copy()?)?;
        }
        Ok(same)
    }

    /// Adds an item. After an error the fragment is as before.
    pub fn push(&mut self, item: Item) -> Result<(), NoMemory>
        ensures ok { OnOk result (self.new ≡ self.old ++ part_of item ∷ []) }
        ensures err { OnErr result (self.new ≡ self.old) }
    {
        self.items.push(item)?;
        Ok(())
    }
}

impl Item {
    /// The same item, which shares its text. Takes no memory; `Err` comes only where 2^63 copies of the text are there.
    pub fn copy(&self) -> Result<Item, NoMemory>
        ensures { IfOk result (λ same. same ≡ self.now) }
    {
        Ok(match self {
            Item::Run(text, origin) => Item::Run(text.copy()?, *origin),
            Item::Begin(name, rule) => Item::Begin(*name, *rule),
            Item::Attr(name) => Item::Attr(*name),
            Item::AttrEnd => Item::AttrEnd,
            Item::Finish => Item::Finish,
            Item::Hole(id) => Item::Hole(*id),
        })
    }
}
