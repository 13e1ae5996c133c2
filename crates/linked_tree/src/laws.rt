//! Laws of forests and paths. Each function has an empty body, and its contract is the law.

ghost use Rattle.std.specs.Prelude.{◌≡◌, ◌≢◌, ℕ, ◌<◌, ◌≤◌, List, [], Some};
ghost use Rattle.index_lists.specs.Lists.{times};
ghost use Rattle.linked_tree.specs.Forest.{Node, count, parent_of, kids_of, IsApart, IsForest};
ghost use Rattle.linked_tree.specs.Paths.{IsPath};

/// A child and its parent are nodes of the arena, and the child stands once among the parent's children; and what
/// stands there is a child of it.
pub fn children_stand_once()
    ensures kid { (t : List Node) (n p : ℕ) → parent_of t n ≡ Some p → n < count t }
    ensures parent { (t : List Node) (n p : ℕ) → IsForest t → parent_of t n ≡ Some p → p < count t }
    ensures once { (t : List Node) (n p : ℕ) → IsForest t → parent_of t n ≡ Some p → times n (kids_of t p) ≡ 1 }
    ensures other { (t : List Node) (n p : ℕ) → IsForest t → 1 ≤ times n (kids_of t p) → parent_of t n ≡ Some p }
{}

/// A node without children may become a child of every other node.
pub fn a_leaf_is_apart()
    ensures { (t : List Node) (n p : ℕ) → IsForest t → kids_of t n ≡ [] → n ≢ p → IsApart t n p }
{}

/// A node has one root and one path.
pub fn a_node_has_one_path()
    ensures root { (t : List Node) (r s n : ℕ) (p q : List ℕ) → IsForest t → IsPath t r p n → IsPath t s q n → r ≡ s }
    ensures path { (t : List Node) (r s n : ℕ) (p q : List ℕ) → IsForest t → IsPath t r p n → IsPath t s q n → p ≡ q }
{}
