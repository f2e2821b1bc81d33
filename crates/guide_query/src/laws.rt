//! Laws of the lines of a guide and of those that show a label path.

ghost use Rattle.guide_query.specs.LineLaws.{HasOneListOfLines, LinesExist};
ghost use Rattle.guide_query.specs.PathLineLaws.{HasOneBrowsing, BrowsingExists};
ghost use Rattle.guide_query.specs.PathLineLaws.{HasOneSample, SampleExists};

/// Two lists of lines of one database are equal.
pub fn one_list_of_lines()
    ensures { HasOneListOfLines }
{}

/// A database whose labels have texts has a list of lines.
pub fn lines_exist()
    ensures { LinesExist }
{}

/// Two lists of lines that browsing a label path shows are equal.
pub fn one_browsing()
    ensures { HasOneBrowsing }
{}

/// Browsing a label path of a database whose labels have texts shows a list of lines.
pub fn browsing_exists()
    ensures { BrowsingExists }
{}

/// Two samples of a label path, with as many objects, are equal.
pub fn one_sample()
    ensures { HasOneSample }
{}

/// A label path has a sample.
pub fn sample_exists()
    ensures { SampleExists }
{}
