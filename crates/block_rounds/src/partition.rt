/// The number of each node's block, and of each block a node of it, its head.
#[derive(Drop)]
pub struct Partition {
    pub numbers: Vec<usize>,
    pub heads: Vec<usize>,
}
