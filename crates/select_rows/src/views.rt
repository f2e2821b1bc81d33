use oem_labels::LabelTable;

/// What rows are found in: a graph, the texts of its labels, the indexes of its links and values,
/// and what paths reach from its names.
#[derive(Drop)]
pub struct View<'a, G, K, V, P> {
    pub graph: &'a G,
    pub labels: &'a LabelTable,
    pub links: &'a K,
    pub values: &'a V,
    pub paths: &'a P,
    /// The indexes are those of the graph.
    pub indexed: bool,
}
