//! The cells of one node.

ghost use Rattle.std.specs.Prelude.{◌≡◌, IfOk, unwrap_or};
ghost use Rattle.frozen_tree.specs.Nodes.{no_state, no_cells, state_of, with_state};

use crate::KeptValue;
use crate::shelf::Shelved;
use serna_kinds::{Facet, NoMemory};
use std::alloc::Global;

/// What is kept of one cell: its value, None where it has none, and its stamp.
#[derive(Drop)]
pub(crate) struct CellState {
    pub(crate) value: Option<KeptValue>,
    pub(crate) stamp: u64,
}

impl CellState {
    // The state of a cell that no change named.
    fn none() -> CellState
        ensures { result ≡ no_state }
    {
        CellState {
            value: None,
            stamp: 0,
        }
    }

    fn copy(&self) -> Result<CellState, NoMemory>
        ensures { IfOk result (λ state. state ≡ self.now) }
    {
        let value = copied(&self.value)?;
        Ok(CellState {
            value,
            stamp: self.stamp,
        })
    }
}

/// The same value, which shares its lists and texts.
pub(crate) fn copied(value: &Option<KeptValue>) -> Result<Option<KeptValue>, NoMemory>
    ensures { IfOk result (λ copy. copy ≡ value.now) }
{
    match value {
        Some(value) => {
            let value = value.copy()?;
            Ok(Some(value))
        }
        None => Ok(None),
    }
}

/// The five cells of a node.
#[derive(Drop)]
pub(crate) struct NodeCells {
    label: CellState,
    kids: CellState,
    up: CellState,
    attrs: CellState,
    text: CellState,
}

impl NodeCells {
    /// The state of one of the cells.
    pub(crate) fn state(&self, facet: Facet) -> &CellState
        ensures { result.now ≡ state_of self.now facet }
    {
        match facet {
            Facet::Label => &self.label,
            Facet::Kids => &self.kids,
            Facet::Up => &self.up,
            Facet::Attrs => &self.attrs,
            Facet::Text => &self.text,
        }
    }

    /// Gives one of the cells a value or none, and the revision as its stamp; without a revision its stamp stays.
    pub(crate) fn change(&mut self, facet: Facet, value: Option<KeptValue>, revision: Option<u64>)
        ensures { self.new ≡ with_state facet (record { value = value; stamp = unwrap_or revision (state_of self.old facet).stamp }) self.old }
    {
        let stamp = match revision {
            Some(revision) => revision,
            None => self.state(facet).stamp,
        };
        self.set(facet, CellState { value, stamp });
    }

    // Sets the state of one of the cells.
    fn set(&mut self, facet: Facet, state: CellState)
        ensures { self.new ≡ with_state facet state self.old }
    {
        match facet {
            Facet::Label => self.label = state,
            Facet::Kids => self.kids = state,
            Facet::Up => self.up = state,
            Facet::Attrs => self.attrs = state,
            Facet::Text => self.text = state,
        }
    }
}

impl Shelved for NodeCells {
    ghost nothing = { no_cells };

    fn empty(_alloc: Global) -> NodeCells {
        NodeCells {
            label: CellState::none(),
            kids: CellState::none(),
            up: CellState::none(),
            attrs: CellState::none(),
            text: CellState::none(),
        }
    }

    fn copy(&self, _alloc: Global) -> Result<NodeCells, NoMemory> {
        Ok(NodeCells {
            label: self.label.copy()?,
            kids: self.kids.copy()?,
            up: self.up.copy()?,
            attrs: self.attrs.copy()?,
            text: self.text.copy()?,
        })
    }
}
