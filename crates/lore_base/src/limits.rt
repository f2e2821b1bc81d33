//! How much a database and a script may hold.

/// Bytes of a text value.
pub const TEXT_BYTES: usize = 4_096;

/// Bytes of a label, a name, a variable or a pattern.
pub const WORD_BYTES: usize = 255;

/// Labels of a database.
pub const LABELS: usize = 4_096;

/// Names of a database.
pub const NAMES: usize = 1_024;

/// Live objects of a database.
pub const OBJECTS: usize = 262_144;

/// Edges of a database.
pub const EDGES: usize = 1_048_576;

/// The greatest next object number, one past the greatest object number.
pub const NEXT_NUMBER: u64 = 4_294_967_296;

/// The greatest limit on the guide's nodes.
pub const NODES: u32 = 16_384;

/// The limit on the guide's nodes that a new database has.
pub const START_NODES: u32 = 4_096;

/// Members of all sets of the guide together.
pub const CELLS: usize = 16_777_216;

/// Levels of nesting in a statement.
pub const NESTING: u32 = 64;

/// Path leaves in one statement.
pub const LEAVES: usize = 64;

/// Ranges of a select after fusing.
pub const RANGES: usize = 8;

/// Items of one select.
pub const ITEMS: usize = 8;

/// Distinct rows of a select.
pub const ROWS: usize = 100_000;

/// Labels in the words of all distinct rows of a select.
pub const PATH_LABELS: usize = 16_777_216;

/// Objects that one sample shows.
pub const SAMPLE: u32 = 100_000;

/// The greatest seed by which objects are generated.
pub const SEED: u32 = 2_147_483_647;

/// The fewest persons that are generated.
pub const FEWEST_PERSONS: u32 = 20;

/// The most persons that are generated.
pub const MOST_PERSONS: u32 = 10_000;

/// The greatest number of a moment of the history.
pub const MOMENTS: u32 = 65_536;

/// The greatest weight of a history: 64 and the bytes of its text for each run of moments at which a
/// fact stands.
pub const HISTORY_WEIGHT: u64 = 1_073_741_824;

/// Views that are kept.
pub const VIEWS: usize = 64;

/// Bytes of one chunk before its `;`.
pub const CHUNK_BYTES: usize = 67_108_864;

/// Bytes of a script.
pub const SCRIPT_BYTES: usize = 1_073_741_824;
