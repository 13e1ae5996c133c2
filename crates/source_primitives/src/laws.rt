//! Laws of primitives. Each function has an empty body, and its contract is the law.
ghost use Rattle.std.specs.Prelude.{◌≡◌, ◌↔◌, ℕ, ◌-◌, ◌<◌, ◌≤◌, List, [], ◌∷◌, ◌++◌, Some, IsSome, length, reverse};
ghost use Rattle.serna_kinds.specs.declared.cells.NodeName.{NodeName};
ghost use Rattle.serna_kinds.specs.Texts.{IsPlaceIn, upto, past, inserted, removed};
ghost use Rattle.serna_kinds.specs.Names.{NameParts, Space, Grows, AreDistinct};
ghost use Rattle.source_model.specs.Source.{Source, numbers};
ghost use Rattle.source_model.specs.Cells.{Spot, spot_of};
ghost use Rattle.source_model.specs.Changes.{text_at};
ghost use Rattle.source_model.specs.Proper.{uses, IsProper};
ghost use Rattle.source_model.specs.Consistent.{IsLinked, IsConsistent};
ghost use Rattle.source_primitives.specs.declared.primitive.Primitive.{Primitive};
ghost use Rattle.source_primitives.specs.declared.primitive.Primitive.TheVariants.{InsertText, RemoveText, RemoveChild};
ghost use Rattle.source_primitives.specs.Primitives.{applied, applied_all, inverse, inverses, MayApply, MayApplyAll, MayType, KeepsProper};
ghost use Rattle.source_primitives.specs.Places.{IsPlaceOf, Lasts, carried, carried_through, settled, moved, moves_of};
ghost use Rattle.source_primitives.specs.declared.primitive.CaretPlace.{CaretPlace};
ghost use Rattle.source_primitives.specs.declared.primitive.Moves.{Moves};
ghost use Rattle.source_primitives.specs.declared.primitive.CaretPlace.TheVariants as place;
ghost use Rattle.source_primitives.specs.Neighbours.{StandsBetween, CarriesBetween, IsElsewhere};

/// What takes a prim back may be applied to what the prim leaves. It restores the tree, numbers included, and keeps the declared
/// prefixes. The count of numbers ever made does not fall.
pub fn undoing_restores()
    ensures tree { (source : Source) (prim : Primitive) → IsLinked source → MayApply prim source →
        (applied (inverse prim source) (applied prim source)).tree ≡ source.tree }
    ensures may { (source : Source) (prim : Primitive) → IsConsistent source → MayApply prim source → MayApply (inverse prim source) (applied prim source) }
    ensures spaces { (source : Source) (prim : Primitive) → (applied (inverse prim source) (applied prim source)).spaces ≡ source.spaces }
    ensures made { (source : Source) (prim : Primitive) → source.made ≤ (applied (inverse prim source) (applied prim source)).made }
{}

/// What takes prims back, the last one first, restores the tree, the declared prefixes, and may be applied. The count of numbers ever
/// made does not fall.
pub fn undoing_a_change_restores()
    ensures tree { (source : Source) (prims : List Primitive) → IsLinked source → MayApplyAll prims source →
        (applied_all (reverse (inverses prims source)) (applied_all prims source)).tree ≡ source.tree }
    ensures may { (source : Source) (prims : List Primitive) → IsConsistent source → MayApplyAll prims source →
        MayApplyAll (reverse (inverses prims source)) (applied_all prims source) }
    ensures spaces { (source : Source) (prims : List Primitive) → (applied_all (reverse (inverses prims source)) (applied_all prims source)).spaces ≡ source.spaces }
    ensures made { (source : Source) (prims : List Primitive) → source.made ≤ (applied_all (reverse (inverses prims source)) (applied_all prims source)).made }
{}

/// A prim that may be applied to a consistent source leaves one that is consistent, and so do prims one after another.
pub fn a_source_stays_consistent()
    ensures one { (source : Source) (prim : Primitive) → IsConsistent source → MayApply prim source → IsConsistent (applied prim source) }
    ensures all { (source : Source) (prims : List Primitive) → IsConsistent source → MayApplyAll prims source → IsConsistent (applied_all prims source) }
{}

/// What typing does may be applied.
pub fn typing_may_be_applied()
    ensures { (source : Source) (prim : Primitive) → IsLinked source → MayType prim source → MayApply prim source }
{}

/// What is taken out of a source comes in again as it stood there, under its numbers: characters from a place between two of
/// them on, and a child with all below it.
pub fn what_was_taken_out_comes_back()
    ensures text { (source : Source) (number : NodeName) (from to : ℕ) (text : List ℕ) → ((n : ℕ) → uses n source.tree ≤ 1) →
        text_at source number.0 ≡ Some text → IsPlaceIn text from → from ≤ to →
        (applied (inverse (RemoveText number from to) source) (applied (RemoveText number from to) source)).tree ≡ source.tree }
    ensures child { (names : List NameParts) (source : Source) (parent : NodeName) (place : ℕ) (spot : Spot) → IsProper names source →
        spot_of source parent.0 ≡ Some spot → place < length (numbers spot.kids) →
        (applied (inverse (RemoveChild parent place) source) (applied (RemoveChild parent place) source)).tree ≡ source.tree }
{}

/// How places live through a prim that may be applied. They are moved to where they stand in the source that it leaves: carried,
/// and the inside of an element that begins with a text there is the start of that text. A place of the source becomes one of
/// the new source, and one that is gone stays as it is.
pub fn places_last()
    ensures settled { (names : List NameParts) (source : Source) (prim : Primitive) (place : CaretPlace) → IsProper names source → MayType prim source → Lasts source place →
        moved (moves_of (prim ∷ []) (applied prim source)) place ≡ settled (applied prim source) (carried prim place) }
    ensures kept { (names : List NameParts) (source : Source) (prim : Primitive) (place : CaretPlace) → IsProper names source → MayType prim source → IsPlaceOf source place →
        IsPlaceOf (applied prim source) (settled (applied prim source) (carried prim place)) }
    ensures lasts { (names : List NameParts) (source : Source) (prim : Primitive) (place : CaretPlace) → IsProper names source → MayType prim source → KeepsProper names prim source →
        Lasts source place → Lasts (applied prim source) (moved (moves_of (prim ∷ []) (applied prim source)) place) }
    ensures begins { (names : List NameParts) (source : Source) (place : CaretPlace) → IsProper names source → IsPlaceOf source place → Lasts source place }
{}

/// A place of a text stands between the characters before it and those behind it, and a carried place stands between the same ones as
/// long as these are there. Characters that are put in at the place itself or behind it come to stand behind it, at their distance
/// from it, and those that are put in before it come to stand before it. So it is with characters that are taken out, and a place
/// among them stands where they were. A change elsewhere leaves both sides as they were, where no number stands twice and the text is
/// still there. A change moves a place of a text as its prims carry it, one after another.
pub fn a_carried_place_keeps_its_neighbours()
    ensures each_place { (source : Source) (number : NodeName) (at : ℕ) →
        IsPlaceOf source (place.Text number at) ↔ ((before : List ℕ) × (behind : List ℕ) × StandsBetween source (place.Text number at) before behind) }
    ensures ahead_of_insertion { (source : Source) (number : NodeName) (at from : ℕ) (before behind piece : List ℕ) →
        StandsBetween source (place.Text number at) before behind → IsPlaceIn (before ++ behind) from → at ≤ from →
        CarriesBetween (InsertText number from piece) source (place.Text number at) before (inserted (from - at) piece behind) }
    ensures past_insertion { (source : Source) (number : NodeName) (at from : ℕ) (before behind piece : List ℕ) →
        StandsBetween source (place.Text number at) before behind → IsPlaceIn (before ++ behind) from → from < at →
        CarriesBetween (InsertText number from piece) source (place.Text number at) (inserted from piece before) behind }
    ensures ahead_of_removal { (source : Source) (number : NodeName) (at from to : ℕ) (before behind : List ℕ) →
        StandsBetween source (place.Text number at) before behind → IsPlaceIn (before ++ behind) from → IsPlaceIn (before ++ behind) to → from ≤ to → at ≤ from →
        CarriesBetween (RemoveText number from to) source (place.Text number at) before (removed (from - at) (to - at) behind) }
    ensures past_removal { (source : Source) (number : NodeName) (at from to : ℕ) (before behind : List ℕ) →
        StandsBetween source (place.Text number at) before behind → IsPlaceIn (before ++ behind) from → IsPlaceIn (before ++ behind) to → from ≤ to → to ≤ at →
        CarriesBetween (RemoveText number from to) source (place.Text number at) (removed from to before) behind }
    ensures within_removal { (source : Source) (number : NodeName) (at from to : ℕ) (before behind : List ℕ) →
        StandsBetween source (place.Text number at) before behind → IsPlaceIn (before ++ behind) from → IsPlaceIn (before ++ behind) to → from ≤ at → at ≤ to →
        CarriesBetween (RemoveText number from to) source (place.Text number at) (upto from before) (past (to - at) behind) }
    ensures elsewhere { (source : Source) (prim : Primitive) (number : NodeName) (at : ℕ) (before behind : List ℕ) → IsElsewhere prim number →
        uses number.0 source.tree ≤ 1 → uses number.0 (applied prim source).tree ≤ 1 → IsSome (text_at (applied prim source) number.0) →
        StandsBetween source (place.Text number at) before behind → CarriesBetween prim source (place.Text number at) before behind }
    ensures moved { (moves : Moves) (number : NodeName) (at : ℕ) → moved moves (place.Text number at) ≡ carried_through moves.prims (place.Text number at) }
{}
