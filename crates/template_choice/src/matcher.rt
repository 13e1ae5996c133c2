ghost use Rattle.std.specs.Prelude.{◌≡◌, ℕ, Bool, IfOk};
ghost use Rattle.serna_kinds.specs.declared.cells.NodeRef.{NodeRef};

use serna_kinds::{NoMemory, NodeRef};

/// Something that tells which rules match which nodes (XSLT 1.0, section 5.2).
///
/// It has a part that no call changes: by it `asks` says of which rules, by their numbers, and of which nodes it may be asked.
/// `agrees` says which relations of rules and nodes agree with all that it has answered so far.
pub trait Matcher {
    ghost use Rattle.std.specs.Prelude.{ℕ, Bool};
    ghost use Rattle.serna_kinds.specs.declared.cells.NodeRef.{NodeRef};

    ghost Part: { Type 0 };

    ghost part: { Self → Part };

    ghost asks: { Part → ℕ → NodeRef → Type 0 };

    ghost agrees: { Self → (ℕ → NodeRef → Bool) → Type 0 };

    /// Whether the pattern of the rule of a number matches a node. `Err` comes where memory runs out.
    fn matches(&mut self, rule: u32, node: NodeRef) -> Result<bool, NoMemory>
        requires { asks (part self.old) rule node }
        // The part that no call changes stays.
        ensures part { part self.new ≡ part self.old }
        // The answer is that of each relation that agrees, and what agrees has agreed before.
        ensures value { IfOk result (λ found. (relation : ℕ → NodeRef → Bool) → agrees self.new relation → found ≡ relation rule node) }
        ensures before { (relation : ℕ → NodeRef → Bool) → agrees self.new relation → agrees self.old relation };
}
