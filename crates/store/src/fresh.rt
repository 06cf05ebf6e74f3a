// A queue and an inbox at the start.
ghost use Rattle.std.specs.Prelude.{◌≡◌, None};
ghost use Rattle.head.specs.Slots.{unknown};
ghost use Rattle.store.specs.Parts.{table_of, lows_of, inbox_of, slots_of};

use crate::types::{Inbox, Queue, Slot, Source};

impl Queue {
    // Nothing is known, from stamp 1 on.
    pub fn new() -> Queue
        ensures base { result.base ≡ 1 }
        ensures slots { slots_of result ≡ (λ _. unknown) }
        ensures gone { table_of result.gone ≡ (λ _. 0) }
    {
        Queue {
            base: 1,
            slots: [Slot::Unknown; 96],
            gone: [0; 8],
        }
    }
}

impl Inbox {
    // Nothing is pending.
    pub fn new() -> Inbox
        ensures low { lows_of result ≡ (λ _. 0) }
        ensures pending { inbox_of result ≡ (λ _ _. None) }
    {
        let source = Source {
            low: 0,
            kept: [None; 4],
        };
        Inbox {
            sources: [source; 8],
        }
    }
}
