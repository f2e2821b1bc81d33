//! Laws of dumps, each shown by a function that does nothing.

ghost use Rattle.dump_laws.specs.Laws.{DumpsAreSound, DumpsReadBack};

/// The tree of a restorable database is sound.
pub fn dumps_are_sound()
    ensures { DumpsAreSound }
{}

/// The text that `dump` prints for a restorable database whose texts are UTF-8 has the tokens of
/// the database's tree, and behind the word `restore` those of the statement that restores it.
pub fn dumps_read_back()
    ensures { DumpsReadBack }
{}
