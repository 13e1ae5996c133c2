//! Laws of results. Each function has an empty body, and its contract is the law.
ghost use Rattle.std.specs.Prelude.{◌≡◌, ℕ, suc, List, Option};
ghost use Rattle.serna_kinds.specs.Names.{NameParts};
ghost use Rattle.source_model.specs.Source.{Source};
ghost use Rattle.result_origin.specs.Parts.{ResultPart};
ghost use Rattle.result_origin.specs.Assembled.{resolved};
ghost use Rattle.style_sheet.specs.Sheet.{StyleValue};
ghost use Rattle.instance_store.specs.declared.request.Asked.{Asked};
ghost use Rattle.template_run.specs.Batch.{whole, batch};
ghost use Rattle.template_run.specs.Kept.{Holds};
ghost use Rattle.template_run.specs.Worked.{worked_names, worked_style, worked_source, worked_result};

/// Where what is kept at each number fits the instance that is asked for there, putting it together gives the whole result, and
/// nothing has to be transformed anew.
pub fn kept_results_make_the_whole()
    ensures { (names : List NameParts) (style : StyleValue) (source : Source) (kept : ℕ → Option (List (ResultPart ℕ))) (left id : ℕ) (asked : Asked) →
        Holds names style source kept left id asked → resolved kept (suc left) id ≡ whole names style left asked.request asked.place source }
{}

/// A worked example of the definitions: a document of two paragraphs, of which one is empty, under a rule for `/` that sets up
/// pages and one for `p` that makes a block.
pub fn worked_example()
    ensures { batch worked_names worked_style worked_source ≡ worked_result }
{}
