//! Actions.
use crate::condition::Cond;
use crate::effect::Effect;
use sexpr::Text;
use sqlite_items::Items;

/// An action. For each parameter `params` has the types that it allows; conditions and effects are lists of leaves in
/// text order.
#[derive(Debug, Drop)]
pub struct Action {
    pub name: Text,
    pub params: Items<Items<u32>>,
    pub conds: Items<Cond>,
    pub effs: Items<Effect>,
}
