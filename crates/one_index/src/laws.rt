//! Laws of blocks: a graph has one list of them, and they tell what is walked from named objects.

ghost use Rattle.one_index.specs.BlockLaws.{OneListOfBlocks, BlocksExist, BlocksTellWalks};
ghost use Rattle.one_index.specs.BlockLaws.{AnswersAreUnions};

/// A graph has one list of blocks.
pub fn one_list_of_blocks()
    ensures { OneListOfBlocks }
{}

/// A graph whose names and edges have objects at their ends has a list of blocks.
pub fn blocks_exist()
    ensures { BlocksExist }
{}

/// From a named object a word is walked exactly to the objects of the blocks that it leads to from
/// the block of that object.
pub fn blocks_tell_walks()
    ensures { BlocksTellWalks }
{}

/// What the blocks tell that a path reaches is a union of blocks.
pub fn answers_are_unions()
    ensures { AnswersAreUnions }
{}
