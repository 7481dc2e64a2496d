//! UUIDs: the array of their sixteen bytes.
ghost use Rattle.std.specs.Prelude.{refl};

use crate::keys::Key;
use crate::shaped::Shaped;
use uuid::Uuid;

impl Shaped for Uuid {
    ghost data = { ⟦<[u8; 16] as Shaped>⟧.data };

    fn told(&self) {
        self.as_bytes().told();
    }
}

impl Key for Uuid {
    ghost equal = { refl };

    ghost ordered = { refl };
}
