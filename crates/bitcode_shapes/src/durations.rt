//! Durations: seconds and nanoseconds.
ghost use Rattle.bitcode_shapes.specs.LeafData.{duration_data};

use crate::shaped::Shaped;
use std::time::Duration;

impl Shaped for Duration {
    ghost data = { duration_data };

    fn told(&self) {
        let _seconds = self.as_secs();
    }
}
