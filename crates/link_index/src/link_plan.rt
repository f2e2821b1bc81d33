use crate::link::Link;
use std::marker::Model;

/// What a change of a `LinkIndex` takes away and brings, worked out by `LinkIndex::prepare` and put
/// in place by `LinkIndex::commit`.
#[derive(Drop)]
pub struct LinkPlan {
    pub(crate) gone: Vec<Link>,
    pub(crate) come: Vec<Link>,
}

impl Model for LinkPlan {
    ghost use Rattle.link_index.specs.Links.{PlannedLinks};
    ghost use Rattle.link_index.specs.inside.LinkEdges.{edges_of, AreInOrder};

    ghost Value = { PlannedLinks };

    ghost view = { λ p. record { gone = edges_of p.gone.items; come = edges_of p.come.items } };

    ghost invariant = { λ p. AreInOrder p.gone.items p.come.items };
}
