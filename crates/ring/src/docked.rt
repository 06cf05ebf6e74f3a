// Docking a ring.
ghost use Rattle.std.specs.Prelude.{◌≡◌};

use crate::types::{Docked, Ring};
use links::link::Link;

impl<L: Link> Ring<L> {
    // Ends the trip: gives back the link as it is, and keeps the heads to be asked.
    pub fn dock(self) -> (L, Docked)
        ensures link { result.0 ≡ self.link }
        ensures heads { result.1.heads ≡ self.heads }
    {
        let Ring { heads, link } = self;
        (link, Docked { heads })
    }
}
