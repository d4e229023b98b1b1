//! The passes that a seat holds.

ghost use Rattle.std.specs.Prelude.{◌≡◌, ◌≤◌};
ghost use Rattle.fm_rundown.specs.Seats.{passes_held};

use crate::seat::GateSeat;

impl GateSeat {
    /// How many passes it holds, of all volumes.
    pub fn passes(&self) -> u64
        ensures held { result ≡ passes_held self.now }
        ensures few { result ≤ 524280 }
    {
        let mut total = 0;
        for count in &self.held {
            total += u64::from(*count);
        }
        total
    }
}
