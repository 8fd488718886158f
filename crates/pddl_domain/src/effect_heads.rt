//! What the head of a list makes of an effect. Begin with `find_head`.
ghost use Rattle.std.specs.Prelude.{◌≡◌, map};
ghost use Rattle.kw_table.specs.Table.{Rises};
ghost use Rattle.pddl_form.specs.Names.{is_one_of};
ghost use Rattle.pddl_domain.specs.Effect as effect;

use kw_table::{Table, rows};
use pddl_form::is_symbol;

/// What the head of a list makes of it.
#[derive(Clone, Copy)]
pub enum EffectHead {
    And,
    Not,
    Change,
    /// A head of effects that aren't read.
    Unread,
    Predicate,
    Other,
}

/// The heads that stand for themselves.
const HEADS: Table<2> = Table {
    words: ["and", "not"],
};

const CHANGES: Table<5> = Table {
    words: ["assign", "decrease", "increase", "scale-down", "scale-up"],
};

const UNREAD: Table<2> = Table {
    words: ["forall", "when"],
};

/// The heads of effects stand in byte order.
pub fn effect_heads_rise()
    ensures heads { Rises (map (λ w. w.now) HEADS.words) }
    ensures changes { Rises (map (λ w. w.now) CHANGES.words) }
    ensures unread { Rises (map (λ w. w.now) UNREAD.words) }
{}

fn is_change(text: &str) -> bool
    ensures { result ≡ is_one_of effect.changes text.now }
{
    CHANGES.find(text.as_bytes()).is_some()
}

fn is_unread(text: &str) -> bool
    ensures { result ≡ is_one_of effect.unread_effects text.now }
{
    UNREAD.find(text.as_bytes()).is_some()
}

/// The head of a change, of an effect that isn't read, of an atom, or of no effect.
fn other_head(text: &str) -> EffectHead
    ensures { result ≡ effect.other_effect_head text.now }
{
    if is_change(text) {
        EffectHead::Change
    } else if is_unread(text) {
        EffectHead::Unread
    } else if is_symbol(text) {
        EffectHead::Predicate
    } else {
        EffectHead::Other
    }
}

#[tactic(auto, using(crate::proofs::Keywords::effect_head_rows))]
pub fn find_head(text: &str) -> EffectHead
    ensures { result ≡ effect.effect_head_of text.now }
{
    let table = &HEADS;
    rows! {
        table, text.as_bytes();
        "and" => EffectHead::And,
        "not" => EffectHead::Not;
        else => other_head(text)
    }
}
