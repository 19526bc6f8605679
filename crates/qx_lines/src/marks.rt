//! Which priorities have items: a bit for each priority, in words of 64 bits.
ghost use Rattle.std.specs.Prelude.{◌≡◌, ◌≢◌, ℕ, ◌+◌, ◌*◌, ◌<◌, false, IfSome, IfNone, MatchOption};
ghost use Rattle.qx_lines.specs.Marks.{is_marked, words_down_to};
ghost use Rattle.qx_lines.specs.inner.Marks.{IsHighest};

use qx_lists::Steps;
use qx_types::Limits;
use std::sync::ledger::Ledger;

/// How many priorities have a bit.
pub(crate) const PRIORITIES: usize = 64 * WORDS;

/// How many words there are, so that each priority has a bit.
pub(crate) const WORDS: usize = Limits::PRIORITY as usize / 64 + 1;

/// Which priorities have items.
#[derive(Debug, Drop)]
pub(crate) struct Marks {
    words: [u64; WORDS],
}

impl Marks {
    /// No priority is marked.
    pub(crate) const NONE: Marks = Marks { words: [0; WORDS] };

    /// Marks a priority, or takes its mark away: one word is looked at and changed.
    pub(crate) fn set<L: Ledger, M: Ledger>(
        &mut self,
        priority: usize,
        has_items: bool,
        changes: &mut Steps<L>,
        looks: &mut Steps<M>,
    )
        requires { priority < PRIORITIES }
        ensures set { is_marked self.new.words priority ≡ has_items }
        ensures others { (other : ℕ) → other ≢ priority → is_marked self.new.words other ≡ is_marked self.old.words other }
        ensures changes { changes.new ≡ changes.old + 1 }
        ensures looks { looks.new ≡ looks.old + 1 }
    {
        let word = priority / 64;
        let bit = 1u64 << (priority % 64);
        looks.tick();
        let bits = self.words[word];
        changes.tick();
        self.words[word] = if has_items { bits | bit } else { bits & !bit };
    }

    /// The highest priority that is marked. Words are looked at from the highest on.
    pub(crate) fn highest<M: Ledger>(&self, looks: &mut Steps<M>) -> Option<usize>
        ensures highest { IfSome result (IsHighest self.now.words PRIORITIES) }
        ensures none { IfNone result ((priority : ℕ) → is_marked self.now.words priority ≡ false) }
        ensures looks { MatchOption result (looks.new ≡ looks.old + WORDS) (λ priority. looks.new ≡ looks.old + words_down_to priority) }
    {
        'words: for word in (0..WORDS).rev() {
            looks.tick();
            if let Some(place) = self.words[word].checked_ilog2() {
                return Some(64 * word + place as usize);
            }
        }
        None
    }
}
