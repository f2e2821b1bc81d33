/// How plans are chosen for selects.
#[derive(Clone, Copy, Debug, PartialEq, Eq)]
pub enum Mode {
    Auto,
    Top,
    Bottom,
    Guided,
}
