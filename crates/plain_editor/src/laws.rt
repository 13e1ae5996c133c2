ghost use Rattle.std.specs.Prelude.{◌≡◌, ◌⊎◌, ◌+◌, ℕ, List, [], ◌∷◌, ◌++◌, map, Option, Some, None};
ghost use Rattle.std.specs.List.{AllByRecursion, Contains};
ghost use Rattle.serna_kinds.specs.Names.{NameParts, Space};
ghost use Rattle.tree_lines.specs.Written.{Written};
ghost use Rattle.tree_lines.specs.Given.{given_of};
ghost use Rattle.tree_lines.specs.Documents.{IsDocument};
ghost use Rattle.source_model.specs.PlainText.{view_text};
ghost use Rattle.source_tree.specs.Begun.{begun};
ghost use Rattle.source_tree.specs.Printing.{IsPrintable};
ghost use Rattle.style_sheet.specs.Sheet.{StyleValue, no_style};
ghost use Rattle.template_run.specs.Batch.{batch};
ghost use Rattle.plain_editor.specs.Input.{IsInput};
ghost use Rattle.plain_editor.specs.Sections.{Sections, sections_of};
ghost use Rattle.plain_editor.specs.Sheets.{Sheet, names_of, start};
ghost use Rattle.plain_editor.specs.Commands.{show_word, command_of, Show, At, Typing};
ghost use Rattle.source_model.specs.Source.{Source};
ghost use Rattle.source_model.specs.Proper.{IsProper};
ghost use Rattle.plain_editor.specs.Sound.{IsSound};
ghost use Rattle.plain_editor.specs.Views.{texts_of, view_pages};
ghost use Rattle.plain_editor.specs.Seen.{StandsThere, ShowTheirPlaces, ShowWholeTexts};
ghost use Rattle.plain_editor.specs.Stops.{Boundary, Stop, view_stops};
ghost use Rattle.plain_editor.specs.Boundaries.{StandsOnRight, boundary_of};
ghost use Rattle.plain_editor.specs.Choosing.{TakesFirst, FirstIsGone, TakesNone};
ghost use Rattle.plain_editor.specs.Carets.{IsShown, IsSeenAt, CaretBetween};
ghost use Rattle.plain_editor.specs.Editor.{Editor, Rule, NoView, Gone, Done, Refused, opened, step, replies};
ghost use Rattle.plain_editor.specs.Keystrokes.{HasOtherText, HasNewFirstText};
ghost use Rattle.serna_kinds.specs.declared.cells.NodeName.{NodeName};
ghost use Rattle.serna_kinds.specs.Texts.{inserted};
ghost use Rattle.source_model.specs.Cells.{named};
ghost use Rattle.source_model.specs.Changes.{text_at};
ghost use Rattle.source_primitives.specs.declared.primitive.CaretPlace.TheVariants as place;
ghost use Rattle.plain_editor.specs.Texts.{written_text};
ghost use Rattle.plain_editor.specs.Answers.{answers};
ghost use Rattle.plain_editor.specs.Rows.{oak, empty_document, one_text, cut_off, text_outside, another_head, empty_doc, oak_doc, plain, types_at_end, typed_at_end, types_into, typed_into, asks, told_what_it_asks, full_doc, full_document, full_script, full_answers, block_sheet, two_doc, block_input, block_script, block_answers};

/// An input says one thing at most: one table of names, one style, one source and one script. And it is written in one way at most:
/// with one stylesheet or none, and one document.
pub fn one_reading()
    ensures sections { (input : List ℕ) (a b : Sections) → IsInput input a → IsInput input b → a ≡ b }
    ensures written { (input : List ℕ) (a b : Sections) (is : IsInput input a) (other : IsInput input b) → (is.sheet ≡ other.sheet) × (is.document ≡ other.document) }
{}

/// Under which numbers a table keeps the names of a document, and which numbers its lines have, does not show in the text that the
/// built-in rules make of it.
pub fn names_do_not_show()
    ensures { (names others : List NameParts) (lines others_lines : List ℕ) (spaces : List Space) (document : Written) →
        view_text (begun spaces (given_of names lines document)) ≡ view_text (begun spaces (given_of others others_lines document)) }
{}

/// Worked examples of the definitions: four inputs with what is answered to them, scripts that type, and three that are no input.
pub fn worked_examples()
    ensures empty { IsInput empty_document (sections_of None empty_doc (show_word ∷ [])) }
    ensures empty_shown { answers (sections_of None empty_doc (show_word ∷ [])) ≡ plain [] }
    ensures text { IsInput one_text (sections_of None oak_doc (show_word ∷ [])) }
    ensures text_shown { answers (sections_of None oak_doc (show_word ∷ [])) ≡ plain oak }
    ensures at_end { answers (sections_of None oak_doc types_at_end) ≡ typed_at_end }
    ensures into { answers (sections_of None empty_doc types_into) ≡ typed_into }
    ensures told { answers (sections_of None empty_doc asks) ≡ told_what_it_asks }
    ensures full { IsInput full_document (sections_of None full_doc full_script) }
    ensures full_answered { answers (sections_of None full_doc full_script) ≡ full_answers }
    ensures block { IsInput block_input (sections_of (Some block_sheet) two_doc block_script) }
    ensures block_answered { answers (sections_of (Some block_sheet) two_doc block_script) ≡ block_answers }
    ensures cut { (sections : Sections) → IsInput cut_off sections → ⊥ }
    ensures outside { (sections : Sections) → IsInput text_outside sections → ⊥ }
    ensures head { (sections : Sections) → IsInput another_head sections → ⊥ }
{}

/// Without a stylesheet the texts of a result, one after another, are the text that the built-in template rules make of the source.
pub fn runs_say_the_text()
    ensures { (names : List NameParts) (source : Source) → texts_of (batch names no_style source) ≡ view_text source }
{}

/// Without a stylesheet what `show` prints of a document is what its text lines say, one after another.
pub fn view_is_the_written_text()
    ensures { (names : List NameParts) (document : Written) → IsDocument document → texts_of (batch names no_style (start None document)) ≡ written_text document }
{}

/// What the pages of a source show stands in the source where the pages say that it comes from. So the place that a caret takes from
/// a stop is the place of what is seen there. A part that comes from a text shows the whole text.
pub fn what_is_seen_stands_there()
    ensures places { (names : List NameParts) (style : StyleValue) (source : Source) → ShowTheirPlaces source (view_pages names style source) }
    ensures whole { (names : List NameParts) (style : StyleValue) (source : Source) → ShowWholeTexts source (view_pages names style source) }
{}

/// A stop stands in front of what its origin says. Each stop of a view is at a boundary of a part of a line of the view's pages, and
/// each such boundary is a stop's. The characters on the right of a boundary, up to the end of its part, are those that stand in the
/// source where the boundary comes from: with the origin `Text n o` those of the text `n` from `o` on, and with `Into n` none.
pub fn a_stop_shows_what_stands_there()
    ensures each_stop { (names : List NameParts) (style : StyleValue) (source : Source) →
        AllByRecursion (λ (stop : Stop). (right : List ℕ) × StandsOnRight (view_pages names style source) (boundary_of stop) right) (view_stops names style source) }
    ensures each_boundary { (names : List NameParts) (style : StyleValue) (source : Source) (here : Boundary) (right : List ℕ) →
        StandsOnRight (view_pages names style source) here right → Contains (map boundary_of (view_stops names style source)) here }
    ensures shown { (names : List NameParts) (style : StyleValue) (source : Source) (here : Boundary) (right : List ℕ) →
        StandsOnRight (view_pages names style source) here right → StandsThere source right here.origin }
{}

/// `at` takes the first stop of the last show in that column that is at a place, and puts the caret where this place is now; it is
/// refused where the place is gone. Where no stop there is at a place, the first stop there says why it is refused.
pub fn at_takes_the_first_place_there()
    ensures answered { (style : StyleValue) (editor : Editor) (said : List ℕ) (page line column : ℕ) → command_of said ≡ At page line column →
        ((step style editor said).1 ≡ Done) ⊎ ((rule : Rule) × ((step style editor said).1 ≡ Refused rule)) }
    ensures done { (style : StyleValue) (editor : Editor) (said : List ℕ) (page line column : ℕ) → command_of said ≡ At page line column →
        (step style editor said).1 ≡ Done → TakesFirst page line column editor (step style editor said).0 }
    ensures gone { (style : StyleValue) (editor : Editor) (said : List ℕ) (page line column : ℕ) → command_of said ≡ At page line column →
        (step style editor said).1 ≡ Refused Gone → FirstIsGone page line column editor }
    ensures no_view { (style : StyleValue) (editor : Editor) (said : List ℕ) (page line column : ℕ) → command_of said ≡ At page line column →
        (step style editor said).1 ≡ Refused NoView → editor.stops ≡ None }
    ensures refused { (style : StyleValue) (editor : Editor) (said : List ℕ) (page line column : ℕ) (rule : Rule) → command_of said ≡ At page line column →
        (step style editor said).1 ≡ Refused rule → (rule ≡ NoView → ⊥) → (rule ≡ Gone → ⊥) → TakesNone page line column editor rule }
{}

/// While the last show is one of the present source, `at` puts the caret where it is seen: the characters on the right of that column
/// of the pages, up to the end of their part, are those that stand in the source behind the caret's place. What is typed in a text
/// comes to stand between what was before the caret and what is behind it, and the caret behind what was typed.
pub fn a_caret_stands_where_it_is_seen()
    ensures shown { (style : StyleValue) (editor : Editor) (said : List ℕ) → command_of said ≡ Show → IsShown style (step style editor said).0 }
    ensures put { (style : StyleValue) (editor : Editor) (said : List ℕ) (page line column : ℕ) → IsShown style editor → command_of said ≡ At page line column →
        (step style editor said).1 ≡ Done → IsSeenAt (view_pages editor.names style editor.source) editor.source page line column (step style editor said).0.caret }
    ensures typed { (style : StyleValue) (editor : Editor) (said text before behind : List ℕ) (number : NodeName) → command_of said ≡ Typing text →
        CaretBetween editor number before behind → (step style editor said).1 ≡ Done → CaretBetween (step style editor said).0 number (before ++ text) behind }
{}

/// Whatever went before, `show` answers what a fresh editor of the present source answers, and keeps the same stops.
pub fn a_show_is_fresh()
    ensures answer { (style : StyleValue) (editor : Editor) (line : List ℕ) → command_of line ≡ Show →
        (step style editor line).1 ≡ (step style (opened editor.names editor.source) line).1 }
    ensures stops { (style : StyleValue) (editor : Editor) (line : List ℕ) → command_of line ≡ Show →
        (step style editor line).0.stops ≡ (step style (opened editor.names editor.source) line).0.stops }
{}

/// Whatever command line comes, the source stays proper, and the caret and each stop of the last show, carried to now, stand at a
/// place of it.
pub fn each_step_is_sound()
    ensures opened { (names : List NameParts) (source : Source) → IsProper names source → IsSound names (opened names source) }
    ensures step { (style : StyleValue) (names : List NameParts) (editor : Editor) (line : List ℕ) → IsSound names editor → IsSound names (step style editor line).0 }
{}

/// What `source` prints reads back, whatever was obeyed before: the source that an editor starts with can be printed so, and each step
/// keeps it so. By `printing_reads_back` of `source_tree` the lines are then those of a document, and the source that it begins has
/// the same document and the same declarations.
pub fn what_is_printed_stays_readable()
    ensures started { (style : Option Sheet) (document : Written) → IsDocument document → IsPrintable (names_of style document) (start style document) }
    ensures step { (style : StyleValue) (names : List NameParts) (editor : Editor) (line : List ℕ) → IsSound names editor → IsPrintable names editor.source →
        IsPrintable names (step style editor line).0.source }
{}

/// A keystroke changes the source at the caret's place alone. At a place in a text, an accepted `type` puts its text in there, and
/// the source differs in the characters of that node alone. In an element, it differs in one new first child, a text with them.
pub fn typing_changes_one_place()
    ensures text { (style : StyleValue) (editor : Editor) (line text old : List ℕ) (number : NodeName) (at occurrence : ℕ) → command_of line ≡ Typing text →
        editor.caret ≡ Some (record { place = place.Text number at; occurrence = occurrence }) → (step style editor line).1 ≡ Done → text_at editor.source number.0 ≡ Some old →
        HasOtherText number (inserted at text old) editor.source (step style editor line).0.source }
    ensures into { (style : StyleValue) (names : List NameParts) (editor : Editor) (line text : List ℕ) (number : NodeName) (occurrence : ℕ) → IsSound names editor → command_of line ≡ Typing text →
        editor.caret ≡ Some (record { place = place.Into number; occurrence = occurrence }) → (step style editor line).1 ≡ Done →
        HasNewFirstText number (named (editor.source.made + 1)) text editor.source (step style editor line).0.source }
{}

/// A refused command leaves the editor as it was: source, revision, caret, stops and the primitives since.
pub fn a_refusal_changes_nothing()
    ensures { (style : StyleValue) (editor : Editor) (line : List ℕ) (rule : Rule) → (step style editor line).1 ≡ Refused rule → (step style editor line).0 ≡ editor }
{}
