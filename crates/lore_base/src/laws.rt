//! Laws of paths: what they spell and reach is made of what their parts spell and reach; and of least
//! words.

ghost use Rattle.lore_base.specs.PathLaws.{SpellsEachWord, JoinsItsParts, RepeatsItsPart};
ghost use Rattle.lore_base.specs.PathLaws.{RepeatsOnceOrMore, GoesOn};
ghost use Rattle.lore_base.specs.LeastWords.{HasOneLeastWord};

/// `#` spells each word.
pub fn any_spells_each_word()
    ensures { SpellsEachWord }
{}

/// What a sequence spells is a word of each part, joined.
pub fn sequences_join_their_parts()
    ensures { JoinsItsParts }
{}

/// What a star spells is any number of words of its part, joined.
pub fn stars_repeat_their_part()
    ensures { RepeatsItsPart }
{}

/// What a plus spells is a word of its part, and then one of the star.
pub fn pluses_repeat_once_or_more()
    ensures { RepeatsOnceOrMore }
{}

/// A path and then another reach what the other reaches from an object that the one reaches.
pub fn paths_go_on()
    ensures { GoesOn }
{}

/// A path has one least word from one object to another, or none.
pub fn one_least_word()
    ensures { HasOneLeastWord }
{}
