ghost use Rattle.std.specs.Prelude.{◌≡◌, Some, refl};
ghost use Rattle.std.specs.Hash as fed;
ghost use Rattle.std.specs.Cmp.{partial_equiv_from_equiv};
ghost use Rattle.std.specs.Cmp.Lexicographic.{pointwise, nat_list_eq_equiv, nat_list_cmp_total};
ghost use Rattle.std.specs.Cmp.Lexicographic.{texts_ties, texts_po};
ghost use Rattle.std.specs.Cmp.Rules.{hashing};
ghost use Rattle.std.proofs.Common.{nat_eq, rules};
ghost use Rattle.lore_lists.specs.Bytes.{bytes_cmp};

use crate::texts::OemText;
use std::cmp::Ordering;
use std::hash::{Hash, Hasher};

// Texts are compared by their bytes, so they can be the keys of tables.

impl PartialEq for OemText {
    ghost eq = { pointwise nat_eq };

    ghost laws = { partial_equiv_from_equiv nat_list_eq_equiv };

    fn eq(&self, other: &OemText) -> bool {
        self.as_bytes() == other.as_bytes()
    }
}

impl Eq for OemText {
    ghost laws = { nat_list_eq_equiv };
}

impl PartialOrd for OemText {
    ghost partial_cmp = { λ a b. Some (bytes_cmp a b) };

    ghost laws = { texts_po };

    fn partial_cmp(&self, other: &OemText) -> Option<Ordering> {
        Some(self.cmp(other))
    }
}

impl Ord for OemText {
    ghost cmp = { bytes_cmp };

    ghost total = { nat_list_cmp_total };

    ghost matches_partial_cmp = { λ a b. refl };

    ghost matches_eq = { texts_ties };

    fn cmp(&self, other: &OemText) -> Ordering {
        self.as_bytes().cmp(other.as_bytes())
    }
}

impl Hash for OemText {
    ghost hash_input = { λ text. fed.slice fed.u8 text };

    ghost respects_eq = { Prim.search (hashing, rules) };

    fn hash<H: Hasher>(&self, state: &mut H) {
        self.as_bytes().hash(state);
    }
}
