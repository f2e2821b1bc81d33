ghost use Rattle.std.specs.Prelude.{◌≡◌, None};
ghost use Rattle.edge_lists.specs.Links.{Fits};

use std::marker::Model;

/// The key of a record, or none, in the space of one number.
#[derive(Debug, Drop)]
pub struct Link {
    // The key and one more; 0 where there is none.
    packed: usize,
}

impl Model for Link {
    ghost use Rattle.std.specs.Prelude.{ℕ, Option};
    ghost use Rattle.edge_lists.specs.Links.{unpacked};

    ghost Value = { Option ℕ };

    ghost view = { λ l. unpacked l.packed };
}

impl Link {
    /// No key.
    pub fn none() -> Link
        ensures { result ≡ None }
    {
        Link { packed: 0 }
    }

    // This key, or none.
    pub(crate) fn to(key: Option<usize>) -> Link
        requires { Fits key }
        ensures { result ≡ key }
    {
        match key {
            Some(key) => Link { packed: key + 1 },
            None => Link { packed: 0 },
        }
    }

    /// The key; None where there is none.
    pub fn key(&self) -> Option<usize>
        ensures { result ≡ self.now }
    {
        if self.packed == 0 {
            None
        } else {
            Some(self.packed - 1)
        }
    }
}
