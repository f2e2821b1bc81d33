ghost use Rattle.std.specs.Prelude.{◌≡◌, ◌↔◌, ◌<◌, ◌≤◌, IsTrue};
ghost use Rattle.doem_facts.specs.Held as spec;

/// The end of a run that goes on: no moment has this number.
pub const STANDING: u32 = 4_294_967_295;

/// A fact with the first of successive moments at which it stood, and the one at which it no longer
/// did.
#[derive(Debug, Drop)]
pub struct Run<F> {
    pub fact: F,
    pub begin: u32,
    pub end: u32,
}

impl<F> Run<F> {
    /// Whether the run holds the moment.
    pub fn holds(&self, moment: u32) -> bool
        ensures test { result ≡ spec.holds moment self.now }
        ensures exact { IsTrue result ↔ ((self.now.begin ≤ moment) × (moment < self.now.end)) }
    {
        self.begin <= moment && moment < self.end
    }
}
