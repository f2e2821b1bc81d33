/// A kind of values: whole numbers, texts, flags, texts that read as whole numbers, and texts that
/// read as flags.
#[derive(Clone, Copy, PartialEq, Eq)]
pub enum Kind {
    Wholes,
    Texts,
    Flags,
    Readings,
    FlagReadings,
}
