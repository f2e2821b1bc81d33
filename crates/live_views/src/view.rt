ghost use Rattle.std.specs.Prelude.{◌≡◌, ◌↔◌, ℕ, List, Some, IsTrue, IfOk};
ghost use Rattle.std.specs.Option.{option_copied};
ghost use Rattle.lorel_trees.specs.Trees.{select_tree};
ghost use Rattle.lorel_ranges.specs.Texts.{IsShallow};
ghost use Rattle.live_views.specs.Types.{Delta as TheDelta};
ghost use Rattle.live_views.specs.Concerns.{Concerns};
ghost use Rattle.live_views.specs.inside.Touched.{TellsTouched};

use crate::looks::Looks;
use crate::touched::Touched;
use lore_base::NoMemory;
use lorel_bound::Answer;
use lorel_trees::Select;
use std::alloc::Global;
use std::marker::Model;

// A kept select, with what it looks at, and its rows where the view is fresh.
#[derive(Drop)]
pub(crate) struct View {
    select: Select,
    looks: Looks,
    rows: Option<Answer>,
}

impl Model for View {
    ghost use Rattle.std.specs.Coded.{codes};
    ghost use Rattle.lore_base.specs.contracts.paths.Path as path_contract;
    ghost use Rattle.lorel_trees.specs.contracts.conditions.Cond as cond_contract;
    ghost use Rattle.lorel_trees.specs.Trees.{select_tree};
    ghost use Rattle.live_views.specs.Views.{View as Kept};
    ghost use Rattle.live_views.specs.inside.Looks.{IsLookOf};

    ghost Value = { Kept };

    ghost coded = { Prim.hlevel (
      codes,
      path_contract.the_row.coded,
      cond_contract.the_row.coded,
    ) };

    ghost view = { λ v. record { select = v.select; rows = v.rows } };

    ghost invariant = { λ v. IsLookOf (select_tree v.select) v.looks };
}

impl View {
    // The fresh view of a select.
    pub(crate) fn new(alloc: Global, select: Select, answer: Answer) -> Result<View, NoMemory>
        requires shallow { IsShallow (select_tree select) }
        ensures { IfOk result (λ view.
            view ≡ record { select = select; rows = Some answer }) }
    {
        let looks = Looks::of(alloc, &select)?;
        Ok(View {
            select,
            looks,
            rows: Some(answer),
        })
    }

    pub(crate) fn select(&self) -> &Select
        ensures { result.now ≡ self.now.select }
    {
        &self.select
    }

    // The rows; None exactly where the view isn't fresh.
    pub(crate) fn rows(&self) -> Option<&Answer>
        ensures { option_copied result ≡ self.now.rows }
    {
        self.rows.as_ref()
    }

    pub(crate) fn set_rows(&mut self, rows: Option<Answer>)
        ensures { self.new ≡ record { select = self.old.select; rows = rows } }
    {
        self.rows = rows;
    }

    // Whether what is touched concerns the select.
    pub(crate) fn is_concerned(&self, touched: &Touched) -> bool
        ensures { (labels : List (List ℕ)) (delta : TheDelta)
            → TellsTouched labels delta touched.now
            → IsTrue result ↔ Concerns labels (select_tree self.now.select) delta }
    {
        self.looks.are_touched(touched)
    }
}
