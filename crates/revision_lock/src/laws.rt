//! What follows from the words of the contracts.
ghost use Rattle.std.specs.Prelude.{◌≡◌, ℕ, Bool, List, []};
ghost use Rattle.std.specs.List.{filter};
ghost use Rattle.revision_lock.specs.Histories.{merged};

/// A join leaves a kind of entries as it was, where the other pass has none of that kind: what a test selects of the joined
/// pass's own entries is then what it selected before. So the entries of one thread are found again among those of others.
pub fn a_kind_in_a_join<E>()
    ensures { (kind : ℕ × E → Bool) (own other : List (ℕ × E)) → filter kind other ≡ [] → filter kind (merged own other) ≡ filter kind own }
{}
