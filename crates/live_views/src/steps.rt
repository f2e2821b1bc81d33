ghost use Rattle.std.specs.Prelude.{◌≡◌, ℕ, List, [], map, false, OnOk};
ghost use Rattle.lore_base.specs.Paths.{path_tree, trees_of};
ghost use Rattle.live_views.specs.Concerns.{HasStep, HasStepIn};
ghost use Rattle.live_views.specs.inside.Looks.{GainsSteps};

use lore_base::{Listing, NoMemory, Path, Pattern, TryCopy};
use std::alloc::Global;

// The patterns of the steps of paths, and whether a `#` is among these.
#[derive(Drop)]
pub(crate) struct StepPatterns {
    pub patterns: Listing<Pattern>,
    pub any: bool,
}

impl StepPatterns {
    // No step. Takes no memory.
    pub(crate) fn new(alloc: Global) -> StepPatterns
        ensures patterns { result.patterns ≡ [] }
        ensures any { result.any ≡ false }
    {
        StepPatterns {
            patterns: Listing::new(alloc),
            any: false,
        }
    }

    // Adds the steps of these parts of a path.
    #[cycle(add)]
    pub(crate) fn add_parts(&mut self, alloc: Global, parts: &[Path]) -> Result<(), NoMemory>
        ensures { OnOk result (GainsSteps self.old self.new
            (λ labels label. HasStepIn labels (trees_of (map path_tree parts.now)) label)) }
    {
        'parts: for part in parts {
            self.add_path(alloc, part)?;
        }
        Ok(())
    }

    // Adds the steps of the path.
    #[cycle(add)]
    fn add_path(&mut self, alloc: Global, path: &Path) -> Result<(), NoMemory>
        ensures { OnOk result (GainsSteps self.old self.new
            (λ labels label. HasStep labels (path_tree path.now) label)) }
    {
        match path {
            Path::Step(pattern) => self.patterns.push(pattern.try_copy(alloc)?),
            Path::Any => {
                self.any = true;
                Ok(())
            }
            Path::Seq(parts) => self.add_parts(alloc, parts.as_slice()),
            Path::Alt(parts) => self.add_parts(alloc, parts.as_slice()),
            Path::Opt(part) => self.add_path(alloc, part),
            Path::Star(part) => self.add_path(alloc, part),
            Path::Plus(part) => self.add_path(alloc, part),
        }
    }
}
