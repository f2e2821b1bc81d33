/// How two values are compared: by `=`, `!=`, `<`, `<=`, `>`, `>=` or `like`, in this order.
#[derive(Clone, Copy, Debug, PartialEq, Eq)]
pub enum Op {
    Eq,
    Ne,
    Lt,
    Le,
    Gt,
    Ge,
    Like,
}
