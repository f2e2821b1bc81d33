ghost use Rattle.std.specs.Prelude.{◌≡◌, ◌↔◌, ℕ, List, [], ◌++◌, length, AllPairs};
ghost use Rattle.std.specs.Prelude.{Contains, Some, None, is_some, IsSome, IfOk, OnOk, OnErr};
ghost use Rattle.std.specs.declared.cmp.Ordering.TheVariants.{Less};
ghost use Rattle.std.specs.Option.{option_copied};
ghost use Rattle.std.specs.List.Sorted.{IsStrictlySortedBy};
ghost use Rattle.std.specs.Map.{keys_of, remove_entry};
ghost use Rattle.std.specs.BTreeMap.{insert_entry, is_at};
ghost use Rattle.lore_base.specs.Bytes.{bytes_cmp};
ghost use Rattle.lore_base.specs.Databases.{AreAscendingObjects};
ghost use Rattle.lorel_trees.specs.Trees.{select_tree};
ghost use Rattle.lorel_ranges.specs.Texts.{IsShallow};
ghost use Rattle.live_views.specs.Views.{view_of, select_in, rows_in, TurnsRows, ConcernsView};

use crate::marks::Marks;
use crate::touched::Touched;
use crate::view::View;
use lore_base::{Delta, NoMemory, OemText, TextList, TryCopy};
use lorel_bound::Answer;
use lorel_trees::Select;
use oem_labels::LabelTable;
use std::alloc::Global;
use std::collections::BTreeMap;
use std::marker::Model;

/// Views under their names, seen by contracts as the list of both, ascending by name. A view is
/// fresh as long as it has its rows.
#[derive(Drop)]
pub struct Views {
    alloc: Global,
    kept: BTreeMap<OemText, View>,
}

impl Model for Views {
    ghost use Rattle.std.specs.Prelude.{List};
    ghost use Rattle.std.specs.Coded.{codes};
    ghost use Rattle.lore_base.specs.contracts.paths.Path as path_contract;
    ghost use Rattle.lorel_trees.specs.contracts.conditions.Cond as cond_contract;
    ghost use Rattle.live_views.specs.Views.{NamedView};

    ghost Value = { List NamedView };

    ghost coded = { Prim.hlevel (
      codes,
      path_contract.the_row.coded,
      cond_contract.the_row.coded,
    ) };

    ghost view = { λ v. v.kept.entries };
}

impl Views {
    /// No view. Takes no memory.
    pub fn new(alloc: Global) -> Views
        ensures { result ≡ [] }
    {
        Views {
            alloc,
            kept: BTreeMap::new(alloc),
        }
    }

    /// The number of views.
    pub fn len(&self) -> usize
        ensures count { result ≡ length self.now }
        ensures ascend { IsStrictlySortedBy bytes_cmp (keys_of self.now) }
    {
        self.kept.len()
    }

    /// The select of the view; None exactly where there is no such view. Takes no memory.
    pub fn find(&self, name: &OemText) -> Option<&Select>
        ensures { option_copied result ≡ select_in (view_of self.now name.now) }
    {
        match self.kept.get(name) {
            Some(view) => Some(view.select()),
            None => None,
        }
    }

    /// The rows of the view; None exactly where there is no such view, or where it isn't fresh.
    /// Takes no memory.
    pub fn rows(&self, name: &OemText) -> Option<&Answer>
        ensures { option_copied result ≡ rows_in (view_of self.now name.now) }
    {
        match self.kept.get(name) {
            Some(view) => view.rows(),
            None => None,
        }
    }

    /// Keeps a fresh view, in place of an older one of this name. The select's quantifiers stand in
    /// one another no deeper than a statement nests. Where memory is refused all stays as it is.
    pub fn put(&mut self, name: OemText, select: Select, answer: Answer) -> Result<(), NoMemory>
        requires shallow { IsShallow (select_tree select) }
        ensures ok { OnOk result (self.new ≡ insert_entry bytes_cmp self.old name
            (record { select = select; rows = Some answer })) }
        ensures err { OnErr result (self.new ≡ self.old) }
    {
        let view = View::new(self.alloc, select, answer)?;
        self.kept.insert(name, view)?;
        Ok(())
    }

    /// Takes the view away; false exactly where there is none. Takes no memory.
    pub fn take(&mut self, name: &OemText) -> bool
        ensures was { result ≡ is_some (view_of self.old name.now) }
        ensures gone { self.new ≡ remove_entry (is_at (bytes_cmp name.now)) self.old }
    {
        self.kept.remove(name).is_some()
    }

    /// Gives the view these rows and makes it fresh. Takes no memory.
    pub fn refresh(&mut self, name: &OemText, answer: Answer)
        requires { IsSome (view_of self.old name.now) }
        ensures { TurnsRows (λ own. own ≡ name.now) (Some answer) self.old self.new }
    {
        self.set_rows(name, Some(answer));
    }

    /// The views that a change concerns, by what goes and comes with it. Its new labels are
    /// numbered on from the table.
    pub fn marks(
        &self,
        delta: &Delta,
        labels: &LabelTable,
        new_labels: &TextList,
    ) -> Result<Marks, NoMemory>
        requires gone { AreAscendingObjects delta.now.objects_gone }
        requires come { AreAscendingObjects delta.now.objects_come }
        ensures ascend { IfOk result (AllPairs (λ a b. bytes_cmp a b ≡ Less)) }
        ensures exact { IfOk result (λ marks. (name : List ℕ) → Contains marks name
            ↔ ConcernsView (labels.now ++ new_labels.now) self.now delta.now name) }
    {
        let mut names = TextList::new(self.alloc);
        if self.kept.is_empty() {
            return Ok(Marks { names });
        }
        let touched = Touched::by(self.alloc, delta, labels, new_labels)?;
        'views: for (name, view) in &self.kept {
            if view.is_concerned(&touched) {
                names.push(name.try_copy(self.alloc)?)?;
            }
        }
        Ok(Marks { names })
    }

    /// Makes the marked views, and no others, not fresh. Takes no memory.
    pub fn mark(&mut self, marks: &Marks)
        ensures { TurnsRows (Contains marks.now) None self.old self.new }
    {
        'names: for name in marks.names.as_slice() {
            self.set_rows(name, None);
        }
    }

    // Gives the view of the name these rows, if there is such a view.
    fn set_rows(&mut self, name: &OemText, rows: Option<Answer>)
        ensures { TurnsRows (λ own. own ≡ name.now) rows self.old self.new }
    {
        match self.kept.get_mut(name) {
            Some(view) => view.set_rows(rows),
            None => {}
        }
    }
}
