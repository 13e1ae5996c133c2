//! Laws of histories. Each function has an empty body, and its contract is the law.
ghost use Rattle.std.specs.Prelude.{◌≡◌, [], ◌∷◌, Some, slice_get, reverse, codes};
ghost use Rattle.source_model.specs.Source.{Source};
ghost use Rattle.source_model.specs.Consistent.{IsConsistent};
ghost use Rattle.source_primitives.specs.Primitives.{MayApplyAll, inverses};
ghost use Rattle.edit_undo.specs.declared.change.Change.{Change};
ghost use Rattle.edit_undo.specs.Stacks.{Stacks, no_changes, pushed, after_undo, after_redo};
ghost use Rattle.edit_undo.specs.Examples.{document_with, ed_for_ask};
ghost use Rattle.edit_undo.specs.Leads.{IsChangeOf, done_to, undone_from, led_to, IsAgain, Leads};

/// An undo moves back what the last push added. A redo after an undo leaves both stacks as they were, and so does an undo after a
/// redo. Where nothing is done an undo changes nothing, and where nothing was undone a redo changes nothing.
pub fn undo_and_redo_take_each_other_back()
    ensures undo_after_push { (stacks : Stacks) (change : Change) → after_undo (pushed change stacks) ≡ record { done = stacks.done; undone = change ∷ [] } }
    ensures redo_after_undo { (stacks : Stacks) (change : Change) → slice_get stacks.done 0 ≡ Some change → after_redo (after_undo stacks) ≡ stacks }
    ensures undo_after_redo { (stacks : Stacks) (change : Change) → slice_get stacks.undone 0 ≡ Some change → after_undo (after_redo stacks) ≡ stacks }
    ensures nothing_to_undo { (stacks : Stacks) → stacks.done ≡ [] → after_undo stacks ≡ stacks }
    ensures nothing_to_redo { (stacks : Stacks) → stacks.undone ≡ [] → after_redo stacks ≡ stacks }
{}

/// A worked example. Of the text `Ask` a change of two primitives makes `ed`, and its inverses, the last one first, make `Ask` again.
pub fn ask_becomes_ed_and_ask_again()
    ensures inverses { inverses ed_for_ask.prims (document_with (codes "Ask")) ≡ ed_for_ask.inverses }
    ensures done { done_to ed_for_ask (document_with (codes "Ask")) ≡ document_with (codes "ed") }
    ensures undone { undone_from ed_for_ask (document_with (codes "ed")) ≡ document_with (codes "Ask") }
{}

/// A change that is made of a source and then undone leaves the tree from before it, numbers included, and the declared prefixes.
/// The undo lowers and raises no count of numbers. To redo the change then gives the very source that it made.
pub fn an_undo_takes_a_change_back()
    ensures tree { (source : Source) (change : Change) → IsConsistent source → IsChangeOf change source → (undone_from change (done_to change source)).tree ≡ source.tree }
    ensures spaces { (source : Source) (change : Change) → (undone_from change (done_to change source)).spaces ≡ source.spaces }
    ensures made { (source : Source) (change : Change) → IsConsistent source → IsChangeOf change source →
        (undone_from change (done_to change source)).made ≡ (done_to change source).made }
    ensures redo { (source : Source) (change : Change) → IsConsistent source → IsChangeOf change source →
        done_to change (undone_from change (done_to change source)) ≡ done_to change source }
{}

/// A history leads to the present source at every moment. It begins with nothing done. A change that is made of the present source
/// is pushed. The last change that was done may be taken back, the last one that was undone may be made again, and the history leads
/// to what that leaves. To undo and then to redo gives the present source itself.
pub fn a_history_leads_to_the_present_source()
    ensures begins { (source : Source) → IsConsistent source → Leads source no_changes source }
    ensures push { (start source : Source) (stacks : Stacks) (change : Change) → Leads start stacks source → IsChangeOf change source →
        Leads start (pushed change stacks) (done_to change source) }
    ensures may_undo { (start source : Source) (stacks : Stacks) (change : Change) → Leads start stacks source → slice_get stacks.done 0 ≡ Some change →
        MayApplyAll (reverse change.inverses) source }
    ensures undo { (start source : Source) (stacks : Stacks) (change : Change) → Leads start stacks source → slice_get stacks.done 0 ≡ Some change →
        Leads start (after_undo stacks) (undone_from change source) }
    ensures may_redo { (start source : Source) (stacks : Stacks) (change : Change) → Leads start stacks source → slice_get stacks.undone 0 ≡ Some change →
        MayApplyAll change.prims source }
    ensures redo { (start source : Source) (stacks : Stacks) (change : Change) → Leads start stacks source → slice_get stacks.undone 0 ≡ Some change →
        Leads start (after_redo stacks) (done_to change source) }
    ensures redo_after_undo { (start source : Source) (stacks : Stacks) (change : Change) → Leads start stacks source → slice_get stacks.done 0 ≡ Some change →
        done_to change (undone_from change source) ≡ source }
{}

/// The present source is what the changes that are done make of the start, and once all of them are undone it is the start again. Only
/// the count of numbers ever made may be greater.
pub fn what_is_done_makes_the_present_source()
    ensures done { (start source : Source) (stacks : Stacks) → Leads start stacks source → IsAgain (led_to stacks.done start) source }
    ensures undone { (start source : Source) (stacks : Stacks) → Leads start stacks source → stacks.done ≡ [] → IsAgain start source }
{}
