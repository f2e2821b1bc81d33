use oem_labels::LabelTable;

/// A graph, the texts of its labels, and the indexes of its links and values.
#[derive(Drop)]
pub struct Indexed<'a, G, K, V> {
    pub graph: &'a G,
    pub labels: &'a LabelTable,
    pub links: &'a K,
    pub values: &'a V,
}
