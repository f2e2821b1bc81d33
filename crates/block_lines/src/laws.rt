//! Laws of the lines of blocks.

ghost use Rattle.block_lines.specs.LineLaws.{HasOneListOfLines, LinesExist};

/// Two lists of lines of one graph are equal.
pub fn one_list_of_lines()
    ensures { HasOneListOfLines }
{}

/// A graph whose names and edges have objects at their ends has a list of lines.
pub fn lines_exist()
    ensures { LinesExist }
{}
