//! What the word of a section is in each of the two texts. Begin with `find_kind`.
ghost use Rattle.std.specs.Prelude.{◌≡◌, map};
ghost use Rattle.kw_table.specs.Table.{Rises};
ghost use Rattle.pddl_form.specs.Names.{is_one_of};
ghost use Rattle.pddl_form.specs.Sections as sections_spec;
ghost use Rattle.pddl_form.specs.inside.Kinds as inside;

use kw_table::{Table, rows};
use sexpr::Source;

/// What the word of a section is.
#[derive(Clone, Copy)]
pub enum Kind {
    /// It may stand many times.
    Many,
    /// It may stand once.
    Once,
    /// It stands for a feature that isn't read.
    Unread,
    Unknown,
}

/// The sections of a domain.
const OF_DOMAIN: Table<6> = Table {
    words: [
        ":action",
        ":constants",
        ":functions",
        ":predicates",
        ":requirements",
        ":types",
    ],
};

/// The sections of a problem.
const OF_PROBLEM: Table<7> = Table {
    words: [
        ":domain",
        ":goal",
        ":init",
        ":length",
        ":metric",
        ":objects",
        ":requirements",
    ],
};

/// The sections that stand for features that aren't read, in either text.
const UNREAD: Table<5> = Table {
    words: [
        ":constraints",
        ":derived",
        ":durative-action",
        ":event",
        ":process",
    ],
};

/// The sections of each text, and those that aren't read, stand in byte order.
pub fn sections_of_texts_rise()
    ensures domain { Rises (map (λ w. w.now) OF_DOMAIN.words) }
    ensures problem { Rises (map (λ w. w.now) OF_PROBLEM.words) }
    ensures unread { Rises (map (λ w. w.now) UNREAD.words) }
{}

fn is_unread(text: &str) -> bool
    ensures { result ≡ is_one_of sections_spec.unread_sections text.now }
{
    UNREAD.find(text.as_bytes()).is_some()
}

/// The kind of a word that isn't that of a section of the text.
fn other_kind(text: &str) -> Kind
    ensures { result ≡ inside.other_kind text.now }
{
    if is_unread(text) {
        Kind::Unread
    } else {
        Kind::Unknown
    }
}

#[tactic(auto, using(crate::proofs::Keywords::domain_rows))]
fn find_domain_kind(text: &str) -> Kind
    ensures { result ≡ sections_spec.kind_of Source.Domain text.now }
{
    let table = &OF_DOMAIN;
    rows! {
        table, text.as_bytes();
        ":action" => Kind::Many,
        ":constants" => Kind::Once,
        ":functions" => Kind::Once,
        ":predicates" => Kind::Once,
        ":requirements" => Kind::Once,
        ":types" => Kind::Once;
        else => other_kind(text)
    }
}

#[tactic(auto, using(crate::proofs::Keywords::problem_rows))]
fn find_problem_kind(text: &str) -> Kind
    ensures { result ≡ sections_spec.kind_of Source.Problem text.now }
{
    let table = &OF_PROBLEM;
    rows! {
        table, text.as_bytes();
        ":domain" => Kind::Once,
        ":goal" => Kind::Once,
        ":init" => Kind::Once,
        ":length" => Kind::Once,
        ":metric" => Kind::Once,
        ":objects" => Kind::Once,
        ":requirements" => Kind::Once;
        else => other_kind(text)
    }
}

/// What a word is as that of a section of this text.
pub fn find_kind(file: Source, text: &str) -> Kind
    ensures { result ≡ sections_spec.kind_of file text.now }
{
    match file {
        Source::Domain => find_domain_kind(text),
        Source::Problem => find_problem_kind(text),
    }
}
