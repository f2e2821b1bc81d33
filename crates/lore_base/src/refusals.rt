ghost use Rattle.std.specs.Prelude.{◌≡◌};
ghost use Rattle.lore_base.specs.Refusals.{number_of, text_of};

/// Why a statement is refused. The order of the variants is the order of their numbers.
#[derive(Clone, Copy, Debug, PartialEq, Eq)]
pub enum Refusal {
    /// The chunk isn't UTF-8, or no token starts at some place.
    BadToken,
    /// A number is directly followed by `.` and a digit.
    RealRefused,
    /// A number or a local is out of its range.
    NumberRange,
    /// A text, identifier, pattern or quoted label is too long.
    TextTooLong,
    /// The tokens are no statement.
    Syntax,
    /// The script ends in a statement without its `;`.
    Unfinished,
    /// A path starts with an identifier that is no name.
    UnknownName,
    /// A path starts with a variable that isn't in scope, or an item names a path variable that no
    /// range has.
    UnknownVariable,
    /// One identifier is ranged twice.
    DuplicateVariable,
    /// There are too many ranges, items or path leaves.
    TooManyRanges,
    /// A local has two bodies in one literal.
    DuplicateLocal,
    /// A local has no body.
    UndefinedLocal,
    /// There are too many distinct rows, or too many labels in their words.
    TooManyRows,
    /// A path that has to reach one object reaches none or several.
    NotOne,
    /// An edge would leave an atomic object.
    AtomicParent,
    /// An object that an edge leaves would get an atomic value.
    HasChildren,
    /// A new object's number would pass the greatest.
    OidsSpent,
    /// There would be too many labels.
    TooManyLabels,
    /// There would be too many names.
    TooManyNames,
    /// There would be too many objects.
    TooManyObjects,
    /// There would be too many edges.
    TooManyEdges,
    /// The guide doesn't fit: its first set that doesn't is one more than the limit on nodes.
    GuideNodes,
    /// A number in a statement is out of its range.
    LimitRange,
    /// A dump is restored into a database that isn't new.
    NotFresh,
    /// A dump stands for no valid database.
    BadRestore,
    /// The guide doesn't fit: with its first set that doesn't, the sets have too many members.
    GuideCells,
    /// The history would have too many moments, or too much weight.
    HistoryFull,
    /// No history is kept.
    NoHistory,
    /// The history has no such moment, or two stand in the wrong order.
    MomentRange,
    /// There would be too many views.
    TooManyViews,
    /// There is no such view.
    UnknownView,
}

impl Refusal {
    /// The number that a reply shows, from 1 on.
    pub fn number(&self) -> u32
        ensures { result ≡ number_of self.now }
    {
        match self {
            Refusal::BadToken => 1,
            Refusal::RealRefused => 2,
            Refusal::NumberRange => 3,
            Refusal::TextTooLong => 4,
            Refusal::Syntax => 5,
            Refusal::Unfinished => 6,
            Refusal::UnknownName => 7,
            Refusal::UnknownVariable => 8,
            Refusal::DuplicateVariable => 9,
            Refusal::TooManyRanges => 10,
            Refusal::DuplicateLocal => 11,
            Refusal::UndefinedLocal => 12,
            Refusal::TooManyRows => 13,
            Refusal::NotOne => 14,
            Refusal::AtomicParent => 15,
            Refusal::HasChildren => 16,
            Refusal::OidsSpent => 17,
            Refusal::TooManyLabels => 18,
            Refusal::TooManyNames => 19,
            Refusal::TooManyObjects => 20,
            Refusal::TooManyEdges => 21,
            Refusal::GuideNodes => 22,
            Refusal::LimitRange => 23,
            Refusal::NotFresh => 24,
            Refusal::BadRestore => 25,
            Refusal::GuideCells => 26,
            Refusal::HistoryFull => 27,
            Refusal::NoHistory => 28,
            Refusal::MomentRange => 29,
            Refusal::TooManyViews => 30,
            Refusal::UnknownView => 31,
        }
    }

    /// The name that a reply shows behind the number.
    pub fn text(&self) -> &'static str
        ensures { result.now ≡ text_of self.now }
    {
        match self {
            Refusal::BadToken => "BadToken",
            Refusal::RealRefused => "RealRefused",
            Refusal::NumberRange => "NumberRange",
            Refusal::TextTooLong => "TextTooLong",
            Refusal::Syntax => "Syntax",
            Refusal::Unfinished => "Unfinished",
            Refusal::UnknownName => "UnknownName",
            Refusal::UnknownVariable => "UnknownVariable",
            Refusal::DuplicateVariable => "DuplicateVariable",
            Refusal::TooManyRanges => "TooManyRanges",
            Refusal::DuplicateLocal => "DuplicateLocal",
            Refusal::UndefinedLocal => "UndefinedLocal",
            Refusal::TooManyRows => "TooManyRows",
            Refusal::NotOne => "NotOne",
            Refusal::AtomicParent => "AtomicParent",
            Refusal::HasChildren => "HasChildren",
            Refusal::OidsSpent => "OidsSpent",
            Refusal::TooManyLabels => "TooManyLabels",
            Refusal::TooManyNames => "TooManyNames",
            Refusal::TooManyObjects => "TooManyObjects",
            Refusal::TooManyEdges => "TooManyEdges",
            Refusal::GuideNodes => "GuideNodes",
            Refusal::LimitRange => "LimitRange",
            Refusal::NotFresh => "NotFresh",
            Refusal::BadRestore => "BadRestore",
            Refusal::GuideCells => "GuideCells",
            Refusal::HistoryFull => "HistoryFull",
            Refusal::NoHistory => "NoHistory",
            Refusal::MomentRange => "MomentRange",
            Refusal::TooManyViews => "TooManyViews",
            Refusal::UnknownView => "UnknownView",
        }
    }
}
