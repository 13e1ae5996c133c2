//! The number of a node, or none, in four bytes.

ghost use Rattle.std.specs.Prelude.{◌≡◌, ◌+◌, ◌^◌, ◌<◌};
ghost use Rattle.std.specs.Option.{ForSome};

use std::marker::Model;

/// The number of a node, or none. Clauses see it as the `Option` that it stands for.
#[derive(Clone, Copy)]
pub struct Link {
    /// One more than the number; 0 for none.
    code: u32,
}

impl Model for Link {
    ghost use Rattle.std.specs.Prelude.{ℕ, Option};
    ghost use Rattle.linked_tree.specs.Codes.{node_of, code_of, code_of-node_of};

    ghost Value = { Option ℕ };

    ghost view = { λ l. node_of l.code };

    ghost inverse = { λ n. record { code = code_of n } };

    ghost use Rattle.std.proofs.Common.{ap};
    ghost use Rattle.linked_tree.specs.declared.link.Link.TheInside.{Inside};

    ghost inverse_ok = { λ l _. ap (λ code. record { code = code }) (code_of-node_of l.code) };
}

impl Link {
    /// The link to a node, or to none.
    pub fn to(node: Option<u32>) -> Link
        requires { ForSome node (λ number. number + 1 < 2 ^ 32) }
        ensures { result ≡ node }
    {
        match node {
            None => Link { code: 0 },
            Some(number) => Link { code: number + 1 },
        }
    }

    /// The node that it leads to, if any.
    pub fn node(self) -> Option<u32>
        ensures { result ≡ self }
    {
        self.code.checked_sub(1)
    }
}
