ghost use Rattle.std.specs.Prelude.{◌≡◌, IfOk};
ghost use Rattle.instance_store.specs.Requests.{apply_to};

use serna_kinds::{Items, NameId, NoMemory, NodeRef};
use std::alloc::Global;
use xpath_values::Binding;

/// How a rule is asked for (XSLT 1.0, sections 5.4, 6 and 5.6): for a node, as the rule of a number, or among those that were
/// imported into the module of the rule that asks.
#[derive(Clone, Copy, Debug)]
pub enum Call {
    Apply,
    Named(u32),
    Imports,
}

/// What an instance is asked for: its node, its mode, how its rule is found, the current rule where it is asked for, and the
/// parameters that are passed.
#[derive(Debug, Drop)]
pub struct Request {
    pub node: NodeRef,
    pub mode: Option<NameId>,
    pub call: Call,
    pub rule: Option<u32>,
    pub passed: Items<Binding>,
}

/// Where an instance stands among those that were asked for together: its position, from 1, and how many they are.
#[derive(Clone, Copy, Debug)]
pub struct Place {
    pub position: usize,
    pub size: usize,
}

/// An instance that is asked for: the request, and the place at which it stands.
#[derive(Debug, Drop)]
pub struct Asked {
    pub request: Request,
    pub place: Place,
}

impl Request {
    /// Templates are to be applied to a node, in a mode or in none, without parameters (XSLT 1.0, section 5.4). Takes no memory.
    pub fn apply(alloc: Global, node: NodeRef, mode: Option<NameId>) -> Request
        ensures { result ≡ apply_to mode node }
    {
        Request {
            node,
            mode,
            call: Call::Apply,
            rule: None,
            passed: Items::new(alloc),
        }
    }

    /// The same request, in memory of its own.
    pub fn copy(&self, alloc: Global) -> Result<Request, NoMemory>
        ensures { IfOk result (λ same. same ≡ self.now) }
    {
        let mut passed = Items::new(alloc);
        for binding in self.passed.as_slice() {
            passed.push(binding.copy(alloc)?)?;
        }
        Ok(Request {
            node: self.node,
            mode: self.mode,
            call: self.call,
            rule: self.rule,
            passed,
        })
    }
}
