//! Laws of documents and of the canonical text. Each function has an empty body, and its contract is the law.
ghost use Rattle.std.specs.Prelude.{◌≡◌, ◌≢◌, ◌++◌, ℕ, List, [], ◌∷◌, None, map, All, codes};
ghost use Rattle.serna_kinds.specs.declared.cells.NameId.{NameId};
ghost use Rattle.serna_kinds.specs.declared.cells.AttrPair.{AttrPair};
ghost use Rattle.serna_kinds.specs.Names.{NameParts, Space, Grows, AreDistinct};
ghost use Rattle.tree_lines.specs.declared.tree.Line.{Line};
ghost use Rattle.tree_lines.specs.Written.{Written, written_lines};
ghost use Rattle.tree_lines.specs.Documents.{AreParted, IsDocument};
ghost use Rattle.tree_lines.specs.Faults.{fault_of, bytes_of};
ghost use Rattle.tree_lines.specs.Given.{Given, element, without_lines, IsWhole, items_of, spaces_of, given_of, numbers_of};
ghost use Rattle.tree_lines.specs.Tokens.{items_in, names_with, AreNamed};
ghost use Rattle.tree_lines.specs.Canonical.{escaped, begin_lines, end_line, line_text, text_of_lines, canonical_lines, document_lines};
ghost use Rattle.tree_lines.specs.Writable.{IsWritable, ReadsBack, rewritten};
ghost use Rattle.tree_lines.specs.declared.rules.LineRule.TheVariants as rule;
ghost use Rattle.tree_lines.specs.Examples.{Breaks, IsFaultless, full};

/// Lines that break no rule are those of a document, and of one alone.
pub fn faultless_lines_are_a_document()
    ensures some { (lines : List (List ℕ)) → fault_of lines ≡ None → (document : Written) × IsDocument document × (lines ≡ written_lines document) }
    ensures one { (document other : Written) → IsDocument document → IsDocument other → written_lines document ≡ written_lines other → document ≡ other }
{}

/// What the lines of a document say one by one is its tree.
pub fn lines_say_the_document()
    ensures items { (names : List NameParts) (lines : List Line) (document : Written) → AreParted document → bytes_of lines ≡ written_lines document
        → items_in names (spaces_of document) lines ≡ items_of (given_of names (numbers_of lines) document) }
{}

/// Which numbers the lines of a document have shows in nothing of its tree but in these numbers.
pub fn numbers_are_of_lines_alone()
    ensures { (names : List NameParts) (numbers others : List ℕ) (document : Written)
        → without_lines (given_of names numbers document) ≡ without_lines (given_of names others document) }
{}

/// The tree of a document is one element with comments beside it, within the limits of a section.
pub fn documents_are_whole()
    ensures { (names : List NameParts) (numbers : List ℕ) (document : Written) → IsDocument document → IsWhole (given_of names numbers document) }
{}

/// The names of a document's tree are those of its lines, and the attributes of an element are apart.
pub fn documents_are_named()
    ensures { (names table : List NameParts) (numbers : List ℕ) (document : Written) → IsDocument document → Grows (names_with names (written_lines document)) table
        → AreNamed table (items_of (given_of table numbers document)) }
{}

/// The lines of an element are that of its beginning with its attributes, those of its content and that of its end, and then
/// comes what follows it: as `TreeWriter` writes them one after another.
pub fn elements_are_written_in_parts()
    ensures { (names : List NameParts) (name : NameId) (attributes : List AttrPair) (line : ℕ) (content rest : Given)
        → text_of_lines (canonical_lines names (element name attributes line content rest))
        ≡ text_of_lines (begin_lines names name attributes)
        ++ (text_of_lines (canonical_lines names content) ++ (line_text (end_line names name) ++ text_of_lines (canonical_lines names rest))) }
{}

/// Texts that differ are written differently, and none of them goes past its line.
pub fn escapes_keep_texts_apart()
    ensures apart { (one other : List ℕ) → escaped one ≡ escaped other → one ≡ other }
    ensures one_line { (text : List ℕ) → All (λ c. c ≢ 10) (escaped text) }
{}

/// What is written of a tree reads back as the same tree.
///
/// Its canonical lines are those of a document, whose tree is this one but for the numbers of the lines, with the same
/// declarations. By the clauses `only` and `given` of `read_tree` these lines are read, and what is read are this tree's items
/// with the numbers of the new lines.
pub fn writing_reads_back()
    ensures back { (names : List NameParts) (spaces : List Space) (tree : Given) → AreDistinct names → IsWritable names spaces tree → ReadsBack names spaces tree }

    // No line has an LF within it, so that the text falls into these lines again.
    ensures lines { (names : List NameParts) (spaces : List Space) (tree : Given) → IsWritable names spaces tree → All (All (λ c. c ≢ 10)) (document_lines names spaces tree) }
{}

/// A tree that was read can be written so that it reads back.
pub fn what_was_read_is_writable()
    ensures { (names table : List NameParts) (numbers : List ℕ) (document : Written) → IsDocument document → Grows (names_with names (written_lines document)) table
        → IsWritable table (spaces_of document) (given_of table numbers document) }
{}

/// What is written of a document's tree are its own lines, with neighbouring text lines made one, the empty ones left out, and
/// the declarations in front of the other attributes: of canonical lines the very same lines.
pub fn reading_writes_back()
    ensures { (names table : List NameParts) (numbers : List ℕ) (document : Written) → IsDocument document → Grows (names_with names (written_lines document)) table
        → document_lines table (spaces_of document) (given_of table numbers document) ≡ written_lines (rewritten document) }
{}

/// Worked examples of the definition of faults.
#[tactic(none)]
pub fn worked_faults()
    ensures full { IsFaultless full }
    ensures empty { Breaks [] 0 rule.NoElement }
    ensures bad_line { Breaks (codes "(a" ∷ codes "+x" ∷ codes ")a" ∷ []) 1 rule.BadLine }
    ensures text_outside { Breaks (codes "-" ∷ codes "(a" ∷ codes ")a" ∷ []) 0 rule.BadLine }
    ensures late_attribute { Breaks (codes "(a" ∷ codes "-" ∷ codes "Ab c" ∷ codes ")a" ∷ []) 2 rule.BadLine }
    ensures no_space { Breaks (codes "(a" ∷ codes "Ab" ∷ codes ")a" ∷ []) 1 rule.BadLine }
    ensures bad_name { Breaks (codes "(a" ∷ codes "A1a \\q" ∷ codes ")a" ∷ []) 1 rule.BadName }
    ensures bad_escape { Breaks (codes "(a" ∷ codes "-\\q" ∷ codes ")a" ∷ []) 1 rule.BadEscape }
    ensures unclosed { Breaks (codes "(a" ∷ codes "(b" ∷ codes ")b" ∷ codes "(c" ∷ []) 3 rule.Unclosed }
    ensures wrong_close { Breaks (codes "(a" ∷ codes ")b" ∷ []) 1 rule.WrongClose }
    ensures two_roots { Breaks (codes "(a" ∷ codes ")a" ∷ codes "(b" ∷ codes ")b" ∷ []) 2 rule.TwoRoots }
    ensures bad_second_root { Breaks (codes "(a" ∷ codes ")a" ∷ codes "(1x" ∷ []) 2 rule.BadName }
    ensures twice { Breaks (codes "(a" ∷ codes "Axmlns:p u" ∷ codes "Axmlns:q u" ∷ codes "Ap:x 1" ∷ codes "Aq:x 2" ∷ codes ")a" ∷ []) 4 rule.DuplicateAttribute }
    ensures declared_twice { Breaks (codes "(a" ∷ codes "Axmlns:p u" ∷ codes "Axmlns:p v" ∷ codes ")a" ∷ []) 2 rule.DuplicateAttribute }
    ensures unbound { Breaks (codes "(a:doc" ∷ codes "Ax" ∷ []) 0 rule.UnboundPrefix }
    ensures empty_uri { Breaks (codes "(p:a" ∷ codes "Axmlns:p " ∷ codes ")p:a" ∷ []) 1 rule.UnboundPrefix }
    ensures unbound_twice { Breaks (codes "(a" ∷ codes "Ap:x 1" ∷ codes "Ap:x 2" ∷ codes ")a" ∷ []) 1 rule.UnboundPrefix }
    ensures unbound_beside { Breaks (codes "(a" ∷ codes "Ax 1" ∷ codes "Ap:x 2" ∷ codes ")a" ∷ []) 2 rule.UnboundPrefix }
    ensures xml_alone { IsFaultless (codes "(a" ∷ codes "Axmlns:xml u" ∷ codes "Axmlns:q u" ∷ codes "Axml:x 1" ∷ codes "Aq:x 2" ∷ codes ")a" ∷ []) }
    ensures inner { Breaks (codes "(a" ∷ codes "(b" ∷ codes "Axmlns:p u" ∷ codes ")b" ∷ codes ")a" ∷ []) 2 rule.InnerNamespace }
{}
