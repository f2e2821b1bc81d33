ghost use Rattle.object_search.specs.inside.Searches.{HasMark, told_mark};

use graph_search::Marks;

// The only mark of an object: it is met, or it isn't.
#[derive(Clone, Copy)]
pub(crate) struct Met(pub(crate) bool);

impl Marks for Met {
    ghost has = { HasMark };

    ghost told = { told_mark };

    fn none() -> Met {
        Met(false)
    }

    fn is_empty(self) -> bool {
        !self.0
    }

    fn join(self, other: Met) -> Met {
        Met(self.0 || other.0)
    }

    fn without(self, other: Met) -> Met {
        Met(self.0 && !other.0)
    }
}
