ghost use Rattle.std.specs.Prelude.{◌≡◌, if◌then◌else◌};
ghost use Rattle.planner.specs.Types.plan_kinds;
ghost use Rattle.planner.specs.Choices.{is_fewer, kind_by};

use lore_base::Mode;
use lorel_bound::PlanKind;

/// What decides the kind of a plan beside the counts: the mode, and how many objects and nodes of
/// the guide there are.
#[derive(Clone, Copy)]
pub(crate) struct Setting {
    pub(crate) mode: Mode,
    pub(crate) objects: u32,
    pub(crate) nodes: u32,
}

impl Setting {
    /// The kind of plan, where these are counted.
    pub(crate) fn kind(&self, candidates: Option<u32>, found: Option<u32>) -> PlanKind
        ensures { result ≡ kind_by self.now.mode candidates found self.now.nodes self.now.objects }
    {
        match self.mode {
            Mode::Top => PlanKind::Top,
            Mode::Bottom => bottom_or_top(candidates.is_some()),
            Mode::Guided => PlanKind::Guided,
            Mode::Auto => {
                if is_fewer(candidates, found) {
                    PlanKind::Bottom
                } else if self.nodes <= self.objects {
                    PlanKind::Guided
                } else {
                    PlanKind::Top
                }
            }
        }
    }
}

// A bottom plan where it can be.
fn bottom_or_top(can: bool) -> PlanKind
    ensures { result ≡ (if can then plan_kinds.Bottom else plan_kinds.Top) }
{
    if can { PlanKind::Bottom } else { PlanKind::Top }
}

// Whether fewer objects are asked for than are reached.
fn is_fewer(candidates: Option<u32>, found: Option<u32>) -> bool
    ensures { result ≡ is_fewer candidates found }
{
    match (candidates, found) {
        (Some(candidates), Some(found)) => candidates < found,
        _ => false,
    }
}
