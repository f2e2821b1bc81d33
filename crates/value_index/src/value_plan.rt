use std::marker::Model;
use value_orders::EntryOrders;

/// What a change of a `ValueIndex` takes away and brings, worked out by `ValueIndex::prepare` and
/// put in place by `ValueIndex::commit`.
#[derive(Drop)]
pub struct ValuePlan {
    pub(crate) gone: EntryOrders,
    pub(crate) come: EntryOrders,
}

impl Model for ValuePlan {
    ghost use Rattle.std.specs.Prelude.{length};
    ghost use Rattle.value_index.specs.Values.{PlannedEntries};
    ghost use Rattle.value_orders.specs.Orders.{in_order};

    ghost Value = { PlannedEntries };

    ghost view = { λ p. record {
      gone = in_order p.gone;
      come = in_order p.come;
      needs = record {
        values = length p.come.values;
        wholes = length p.come.wholes;
        chars = length p.come.chars;
        flags = length p.come.flags;
        readings = length p.come.readings;
        flag_readings = length p.come.flag_readings;
      };
    } };
}
