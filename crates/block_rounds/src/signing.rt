ghost use Rattle.std.specs.Prelude.{◌≡◌, ◌<◌, length, All, IfOk};
ghost use Rattle.block_rounds.specs.Partitions.{AreWithin};
ghost use Rattle.block_rounds.specs.inside.Signatures.{IsSignature, AreSignatures};

use lore_lists::{Listing, NoMemory};
use std::alloc::Global;

/// The edges that enter a node: their labels, each with the node that it comes from.
pub type Row = Listing<(u32, usize)>;

// Labels, each with the number of a block that an edge by it comes from.
pub(crate) type Signature = Listing<(u32, usize)>;

// The signature of the node whose row this is: by which labels it is entered, and from which
// blocks.
fn signature_of(
    alloc: Global,
    row: &[(u32, usize)],
    numbers: &[usize],
) -> Result<Signature, NoMemory>
    requires { All (λ entry. entry.1 < length numbers.now) row.now }
    ensures { IfOk result (IsSignature row.now numbers.now) }
{
    let mut signature = Listing::with_capacity(alloc, row.len())?;
    'entries: for entry in row {
        signature.push((entry.0, numbers[entry.1]))?;
    }
    signature.sort_set();
    Ok(signature)
}

// The signatures of all nodes.
pub(crate) fn signatures(
    alloc: Global,
    rows: &[Row],
    numbers: &[usize],
) -> Result<Vec<Signature>, NoMemory>
    requires within { AreWithin rows.now }
    requires every { length numbers.now ≡ length rows.now }
    ensures { IfOk result (λ signed. AreSignatures rows.now numbers.now signed.items) }
{
    let mut signed = Vec::with_capacity(alloc, rows.len())?;
    'rows: for row in rows {
        signed.push(signature_of(alloc, row.as_slice(), numbers)?)?;
    }
    Ok(signed)
}
