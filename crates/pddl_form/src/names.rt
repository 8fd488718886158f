//! Which words are names and variables, and which names a predicate or a function may have.
ghost use Rattle.std.specs.Prelude.{◌≡◌, map};
ghost use Rattle.kw_table.specs.Table.{Rises};
ghost use Rattle.pddl_form.specs.Names as names;

use kw_table::Table;

/// The words that a place takes.
#[derive(Clone, Copy)]
pub enum Sort {
    Name,
    Variable,
    /// A name or a variable.
    Term,
    /// A word that starts with `:`.
    Keyword,
}

fn is_name(text: &str) -> bool
    ensures { result ≡ names.is_name text.now }
{
    match text.as_bytes() {
        [b'a'..=b'z' | b'_', ..] => true,
        _ => false,
    }
}

fn is_variable(text: &str) -> bool
    ensures { result ≡ names.is_variable text.now }
{
    match text.as_bytes() {
        [b'?', _, ..] => true,
        _ => false,
    }
}

fn is_keyword(text: &str) -> bool
    ensures { result ≡ names.is_keyword text.now }
{
    match text.as_bytes() {
        [b':', ..] => true,
        _ => false,
    }
}

/// Whether a place of this sort takes a word.
pub fn takes(sort: Sort, text: &str) -> bool
    ensures { result ≡ names.takes sort text.now }
{
    match sort {
        Sort::Name => is_name(text),
        Sort::Variable => is_variable(text),
        Sort::Term => is_name(text) || is_variable(text),
        Sort::Keyword => is_keyword(text),
    }
}

const RESERVED: Table<13> = Table {
    words: [
        "and",
        "assign",
        "decrease",
        "exists",
        "forall",
        "imply",
        "increase",
        "not",
        "or",
        "preference",
        "scale-down",
        "scale-up",
        "when",
    ],
};

/// The words that no predicate may have for a name stand in byte order.
pub fn reserved_words_rise()
    ensures { Rises (map (λ w. w.now) RESERVED.words) }
{}

/// Whether a word has a meaning of its own in a condition or an effect.
fn is_reserved(text: &str) -> bool
    ensures { result ≡ names.is_reserved text.now }
{
    RESERVED.find(text.as_bytes()).is_some()
}

/// Whether a predicate or a function may have this name.
pub fn is_symbol(text: &str) -> bool
    ensures { result ≡ names.is_symbol text.now }
{
    is_name(text) && !is_reserved(text)
}
