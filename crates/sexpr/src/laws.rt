//! What holds of each text and each tree that it spells, for the readers of trees: laws, as functions without a
//! body whose contracts state them.
ghost use Rattle.std.specs.Prelude.{◌≡◌, ℕ, List, IsTrue, length};
ghost use Rattle.sexpr.specs.declared.tree.Tree.{Tree};
ghost use Rattle.sexpr.specs.Spelling.{Spells};
ghost use Rattle.sexpr.specs.Read.{IsFirstFault};
ghost use Rattle.sexpr.specs.Spans.{lists_rise, lies_in};

/// A text spells one tree at most.
pub fn spells_one_tree()
    ensures { (bytes : List ℕ) (s t : Tree) → Spells bytes s → Spells bytes t → s ≡ t }
{}

/// In a tree that a text spells each list has its start before its end.
pub fn spelled_lists_rise()
    ensures { (bytes : List ℕ) (tree : Tree) → Spells bytes tree → IsTrue (lists_rise tree) }
{}

/// A tree that a text spells lies within the text, and the items of each list within its parentheses.
pub fn spelled_tree_lies_in_text()
    ensures { (bytes : List ℕ) (tree : Tree) → Spells bytes tree → IsTrue (lies_in tree 0 (length bytes)) }
{}

/// A text has one first fault at most.
pub fn one_first_fault()
    ensures { (bytes : List ℕ) (kind place other there : ℕ) → IsFirstFault bytes kind place → IsFirstFault bytes other there
        → (kind ≡ other) × (place ≡ there) }
{}
