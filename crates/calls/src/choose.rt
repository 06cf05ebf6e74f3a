// The choice of what a member sends of its own accord: the names of its next ACK, and its own first message.
ghost use Rattle.std.specs.Prelude.{◌≡◌, suc, ◌+◌, ◌-◌, ◌<◌, ◌++◌, length};
ghost use Rattle.frames.specs.Types.{names_of};
ghost use Rattle.head.specs.Tick.{own_message};
ghost use Rattle.head.specs.Turn.{run_of, to_order};
ghost use Rattle.store.specs.Look.{put_of};
ghost use Rattle.store.specs.Parts.{inbox_of, lows_of};
ghost use Rattle.calls.specs.Choice.{kept_at, sent_of};
ghost use Rattle.calls.specs.Members.{model_of};

use crate::member::Member;
use frames::types::{Frame, Message, Name, Names};

impl Member {
    // What is pending of a source, at a place of its window.
    fn message(&self, source: u8, place: u32) -> Option<Message>
        requires head { source < 8 }
        requires near { place < 4 }
        ensures { sent_of result ≡ kept_at (inbox_of self.now.head.inbox) source (lows_of self.now.head.inbox source + (place + 1)) }
    {
        let pending = self.head.inbox.sources[source as usize];
        let kept = pending.kept[place as usize]?;
        let name = Name {
            source,
            number: pending.low + (place + 1),
            level: kept.level,
        };
        Some(Message {
            name,
            body: kept.body,
        })
    }

    // Adds the run of a source that begins after its low, while there is room.
    fn add_run(&self, source: u8, names: &mut Names)
        requires head { source < 8 }
        ensures { names_of names.new ≡ names_of names.old ++ run_of (inbox_of self.now.head.inbox) source (4 - length (names_of names.old)) (suc (lows_of self.now.head.inbox source)) }
    {
        for message in (0..4).map_while(|place| self.message(source, place)) {
            if !names.push(message.name) {
                return;
            }
        }
    }

    // Up to four names to order: the run of each source, from this head's own on round the ring.
    pub(crate) fn gather(&self) -> Names
        ensures { names_of result ≡ to_order self.now.head.size.heads (model_of self.now) }
    {
        let heads = self.head.size.heads;
        let mut names = Names::none();
        // Steps round the ring, and no places of a list; two ranges in a chain are no plainer.
        for step in 0..heads {
            self.add_run((self.head.me + step) % heads, &mut names);
        }
        names
    }

    // The Data frame of this head's own pending message with the lowest number.
    pub(crate) fn lowest_own(&self) -> Option<Frame>
        ensures { put_of result ≡ own_message (model_of self.now) }
    {
        let message = (0..4).find_map(|place| self.message(self.head.me, place))?;
        Some(Frame::Data(message))
    }
}
