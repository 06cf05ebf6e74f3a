// What a head can be asked.
ghost use Rattle.std.specs.Prelude.{◌≡◌, ◌+◌, ◌≤◌};
ghost use Rattle.head.specs.Head.{end as m_end, mark as m_mark};
ghost use Rattle.calls.specs.Model.{model};

use crate::machine::Head;
use store::types::InRing;

impl Head {
    // Its ring as it sees it.
    pub(crate) fn ring(&self) -> InRing
        ensures size { result.size ≡ self.now.size }
        ensures me { result.me ≡ self.now.me }
    {
        InRing {
            size: self.size,
            me: self.me,
        }
    }

    // The first stamp of its queue.
    pub fn base(&self) -> u32
        ensures { result ≡ (model self.now).base }
    {
        self.queue.base
    }

    // The next stamp that it will deliver.
    pub fn due(&self) -> u32
        ensures { result ≡ (model self.now).due }
    {
        self.due
    }

    // The lowest stamp that is not full.
    #[tactic(auto, unfolding(head::specs::Head::mark))]
    pub fn mark(&self) -> u32
        ensures { result ≡ m_mark (model self.now) }
    {
        self.queue.mark()
    }

    // One past the highest stamp that is known.
    #[tactic(auto, using(head::proofs::Walk::past_last_ends), unfolding(head::specs::Head::end))]
    pub fn end(&self) -> u32
        ensures value { result ≡ m_end (model self.now) }
        ensures bound { result ≤ self.now.queue.base + 96 }
    {
        self.queue.end()
    }
}
