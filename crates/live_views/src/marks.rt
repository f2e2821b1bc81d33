use lore_base::TextList;
use std::marker::Model;

/// The views that a change concerns, seen by contracts as the ascending list of their names.
#[derive(Drop)]
pub struct Marks {
    pub(crate) names: TextList,
}

impl Model for Marks {
    ghost use Rattle.std.specs.Prelude.{ℕ, List};

    ghost Value = { List (List ℕ) };

    ghost view = { λ m. m.names };
}
