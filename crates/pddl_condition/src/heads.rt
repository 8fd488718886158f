//! What the head of a list makes of a condition. Begin with `find_head`.
ghost use Rattle.std.specs.Prelude.{◌≡◌, map};
ghost use Rattle.kw_table.specs.Table.{Rises};
ghost use Rattle.pddl_form.specs.Names.{is_one_of};
ghost use Rattle.pddl_condition.specs.Condition as condition;

use kw_table::{Table, rows};
use pddl_form::is_symbol;

/// What the head of a list makes of it.
#[derive(Clone, Copy)]
pub enum Head {
    And,
    Not,
    Equal,
    /// `<`, `<=`, `>` and `>=`.
    Order,
    /// A head of conditions that aren't read.
    Unread,
    Predicate,
    Other,
}

/// The heads that stand for themselves.
const HEADS: Table<3> = Table {
    words: ["=", "and", "not"],
};

const ORDERS: Table<4> = Table {
    words: ["<", "<=", ">", ">="],
};

const UNREAD: Table<5> = Table {
    words: ["exists", "forall", "imply", "or", "preference"],
};

/// The heads of conditions stand in byte order.
pub fn condition_heads_rise()
    ensures heads { Rises (map (λ w. w.now) HEADS.words) }
    ensures orders { Rises (map (λ w. w.now) ORDERS.words) }
    ensures unread { Rises (map (λ w. w.now) UNREAD.words) }
{}

fn is_order(text: &str) -> bool
    ensures { result ≡ is_one_of condition.orders text.now }
{
    ORDERS.find(text.as_bytes()).is_some()
}

fn is_unread(text: &str) -> bool
    ensures { result ≡ is_one_of condition.unread text.now }
{
    UNREAD.find(text.as_bytes()).is_some()
}

/// The head of a comparison, of a condition that isn't read, of an atom, or of no condition.
fn other_head(text: &str) -> Head
    ensures { result ≡ condition.other_head text.now }
{
    if is_order(text) {
        Head::Order
    } else if is_unread(text) {
        Head::Unread
    } else if is_symbol(text) {
        Head::Predicate
    } else {
        Head::Other
    }
}

#[tactic(auto, using(crate::proofs::Keywords::head_rows))]
pub fn find_head(text: &str) -> Head
    ensures { result ≡ condition.head_of text.now }
{
    let table = &HEADS;
    rows! {
        table, text.as_bytes();
        "=" => Head::Equal,
        "and" => Head::And,
        "not" => Head::Not;
        else => other_head(text)
    }
}
