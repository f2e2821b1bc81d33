//! Laws of the meaning of statements, each shown by a function that does nothing.

ghost use Rattle.reply_laws.specs.Laws.{ExecutesOnce, PerformsOnce, ExecutesAlways, BeginsValid};
ghost use Rattle.reply_laws.specs.Laws.{PerformsAlways, BeginsStanding, ChangesNothing};

/// A statement has one reply, and leaves one database.
pub fn one_reply()
    ensures { ExecutesOnce }
{}

/// In a state a statement has one reply, and leaves one state: what a history and views answer is
/// determined.
pub fn one_state()
    ensures { PerformsOnce }
{}

/// The new database is valid. From each valid database a sound statement that keeps and asks no
/// history and no views has a reply, and leaves a valid one.
pub fn some_reply()
    ensures begun { BeginsValid }
    ensures always { ExecutesAlways }
{}

/// The new state can stand. From each state that can stand a sound statement has a reply, and leaves
/// one that can.
pub fn some_state()
    ensures begun { BeginsStanding }
    ensures always { PerformsAlways }
{}

/// An update that has no row changes nothing.
pub fn nothing_is_changed()
    ensures { ChangesNothing }
{}
