// Pending messages.
ghost use Rattle.std.specs.Prelude.{◌≡◌, ℕ, ◌+◌, ◌-◌, ◌<◌, ◌≤◌, max, Bool, true, false, ◌&&◌, leb, length, if◌then◌else◌, Some, None, MatchOption, ◌==◌, nat_eq, nat_le, slice_index_or};
ghost use Rattle.frames.specs.Types.{name_of, names_of};
ghost use Rattle.head.specs.Head.{filled_by, numbered_in};
ghost use Rattle.store.specs.Parts.{slot_of, kept_of, source_of, lows_of, inbox_of, table_of, without, in_window};

use crate::shift::shifted;
use crate::types::{Inbox, Kept, Slot, Source};
use frames::types::{Message, Name, Names};

impl Source {
    // The place of a number in the window, if it is one of the four after low.
    fn place(&self, number: u32) -> Option<usize>
        ensures { MatchOption result (in_window self.now.low number ≡ false) (λ i. (in_window self.now.low number ≡ true) × (number ≡ self.now.low + 1 + i) × (i < 4)) }
    {
        if self.low < number && number - self.low <= 4 {
            Some((number - self.low - 1) as usize)
        } else {
            None
        }
    }

    // What is pending under a number.
    #[tactic(auto, using(crate::proofs::Windows::outside, crate::proofs::Windows::inside))]
    fn waiting(&self, number: u32) -> Option<Kept>
        ensures { kept_of result ≡ source_of self.now number }
    {
        self.kept[self.place(number)?]
    }

    // Sets what is pending under a number, if it has a place. A bool: no value stands beside it.
    #[tactic(auto, using(crate::proofs::View::window_set))]
    fn put(&mut self, number: u32, kept: Option<Kept>) -> bool
        ensures answer { result ≡ in_window self.old.low number }
        ensures low { self.new.low ≡ self.old.low }
        ensures pending { (k : ℕ) → source_of self.new k ≡ (if result && k == number then kept_of kept else source_of self.old k) }
    {
        match self.place(number) {
            Some(i) => {
                self.kept[i] = kept;
                true
            }
            None => false,
        }
    }

    // The window once low has grown.
    fn shifted(&self, by: u32) -> [Option<Kept>; 4]
        ensures { (j : ℕ) → slice_index_or result j None ≡ slice_index_or self.now.kept (by + j) None }
    {
        shifted(&self.kept, by.min(4) as usize, None)
    }

    // Raises low to a number; what is not above it is pending no more.
    #[tactic(auto, using(crate::proofs::Windows::raised_low, crate::proofs::Windows::raised_window))]
    fn raise(&mut self, to: u32)
        ensures low { self.new.low ≡ max self.old.low to }
        ensures pending { (k : ℕ) → source_of self.new k ≡ (if nat_le k to then None else source_of self.old k) }
    {
        if to <= self.low {
            return;
        }
        self.kept = self.shifted(to - self.low);
        self.low = to;
    }
}

impl Inbox {
    // The highest number of the known front of a source.
    #[tactic(auto, unfolding(crate::specs::Parts::lows_in))]
    pub fn low(&self, source: u8) -> u32
        ensures { result ≡ lows_of self.now source }
    {
        self.sources
            .get(source as usize)
            .map_or(0, |source| source.low)
    }

    // Sets what is pending under a name, if it has a place. A bool: no value stands beside it.
    fn put(&mut self, name: Name, kept: Option<Kept>) -> bool
        ensures answer { result ≡ in_window (lows_of self.old name.source) name.number }
        ensures low { lows_of self.new ≡ lows_of self.old }
        ensures pending { inbox_of self.new ≡ (if result then (λ s k. (if nat_eq s name.source && k == name.number then kept_of kept else inbox_of self.old s k)) else inbox_of self.old) }
    {
        let at = name.source as usize;
        let mut source = self.sources[at];
        let put = source.put(name.number, kept);
        self.sources[at] = source;
        put
    }

    // What is pending under a name.
    #[tactic(auto, using(crate::proofs::View::pending_read))]
    pub fn waiting(&self, name: Name) -> Option<Kept>
        ensures { kept_of result ≡ inbox_of self.now name.source name.number }
    {
        self.sources[name.source as usize].waiting(name.number)
    }

    // The data slot of a name, with the body that is pending for it.
    pub fn slot_for(&self, name: Name) -> Slot
        ensures { slot_of result ≡ filled_by (name_of name) (inbox_of self.now name.source name.number) }
    {
        let body = self.waiting(name).map(|kept| kept.body);
        Slot::Data { name, body }
    }

    // Keeps a message, if its number is one of the four after low. A bool: no value stands beside it.
    pub fn keep(&mut self, message: Message) -> bool
        ensures answer { result ≡ in_window (lows_of self.old message.name.source) message.name.number }
        ensures low { lows_of self.new ≡ lows_of self.old }
        ensures pending { inbox_of self.new ≡ (if result then (λ s k. (if nat_eq s message.name.source && k == message.name.number then kept_of (Some (record { level = message.name.level; body = message.body })) else inbox_of self.old s k)) else inbox_of self.old) }
    {
        let Message { name, body } = message;
        let level = name.level;
        self.put(name, Some(Kept { level, body }))
    }

    fn clear(&mut self, name: Name)
        ensures low { lows_of self.new ≡ lows_of self.old }
        ensures pending { inbox_of self.new ≡ without (name_of name) (inbox_of self.old) }
    {
        self.put(name, None);
    }

    // What is named is pending no more.
    pub fn clear_all(&mut self, names: Names)
        ensures low { lows_of self.new ≡ lows_of self.old }
        ensures pending { inbox_of self.new ≡ (λ s k. (if numbered_in s k (names_of names) then None else inbox_of self.old s k)) }
    {
        for name in names.as_slice() {
            self.clear(*name);
        }
    }

    fn raise(&mut self, at: usize, to: u32)
        requires { at < 8 }
        ensures low { (s : ℕ) → lows_of self.new s ≡ (if nat_eq s at then max (lows_of self.old s) to else lows_of self.old s) }
        ensures pending { inbox_of self.new ≡ (λ s k. (if nat_eq s at && nat_le k to then None else inbox_of self.old s k)) }
    {
        let mut source = self.sources[at];
        source.raise(to);
        self.sources[at] = source;
    }

    // Raises low to these numbers; what is not above them is pending no more.
    pub fn raise_all(&mut self, low: [u32; 8])
        ensures low { (s : ℕ) → lows_of self.new s ≡ max (lows_of self.old s) (table_of low s) }
        ensures pending { inbox_of self.new ≡ (λ s k. (if leb k (table_of low s) then None else inbox_of self.old s k)) }
    {
        // By number. Tried as an iter_mut zipped with the numbers: that the sources keep their length did not close.
        for (source, to) in low.iter().enumerate() {
            self.raise(source, *to);
        }
    }
}
