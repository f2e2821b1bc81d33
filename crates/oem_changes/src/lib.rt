//! Laws of changes of an OEM database (Chawathe et al. 1998): what changes that fit leave is
//! determined, exists, and is valid where the limits are kept.
#![tactic(auto)]

pub mod laws;
