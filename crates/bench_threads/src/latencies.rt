//! How long calls, or other things that a program times, take: how many took less than each of some lengths of time, how many there
//! were, and the longest.
ghost use Rattle.std.specs.Prelude.{◌≡◌, ◌<◌, ◌≤◌, ◌^◌, ◌-◌, ◌+◌, ◌*◌, true, ℕ, max, min, nat_lt, replicate, slice_index};
ghost use Rattle.bench_threads.specs.declared.latencies.TheConstants.{LENGTHS};
ghost use Rattle.bench_threads.specs.Ends.{end_of, one_more};

/// How many lengths of time are told apart, each a quarter longer than the one before: up to 19 minutes.
const LENGTHS: usize = 120;

/// How many times took how long, by the clock, and the longest.
#[derive(Clone, Copy, Drop)]
pub struct Latencies {
    /// How many took less than each length.
    below: [u64; LENGTHS],
    count: u64,
    longest: u128,
}

impl Latencies {
    /// Nothing was timed.
    pub fn new() -> Latencies
        ensures count { result.count ≡ 0 }
        ensures below { result.below ≡ replicate LENGTHS 0 }
        ensures longest { result.longest ≡ 0 }
    {
        Latencies {
            below: [0; LENGTHS],
            count: 0,
            longest: 0,
        }
    }

    /// One more took so many nanoseconds.
    pub fn add(&mut self, nanos: u128)
        ensures count { self.new.count ≡ one_more true self.old.count }
        ensures below { (k : ℕ) → k < LENGTHS → slice_index self.new.below k ≡ one_more (nat_lt nanos (end_of k)) (slice_index self.old.below k) }
        ensures longest { self.new.longest ≡ max self.old.longest nanos }
    {
        let mut end: u128 = 1;
        for k in 0..LENGTHS {
            if nanos < end {
                self.below[k] = self.below[k].saturating_add(1);
            }
            end = end + end / 4 + 1;
        }
        self.count = self.count.saturating_add(1);
        self.longest = self.longest.max(nanos);
    }

    /// Others were timed too.
    pub fn merge(&mut self, other: &Latencies)
        ensures count { self.new.count ≡ min (self.old.count + other.now.count) (2 ^ 64 - 1) }
        ensures below { (k : ℕ) → k < LENGTHS → slice_index self.new.below k ≡ min (slice_index self.old.below k + slice_index other.now.below k) (2 ^ 64 - 1) }
        ensures longest { self.new.longest ≡ max self.old.longest other.now.longest }
    {
        for k in 0..LENGTHS {
            self.below[k] = self.below[k].saturating_add(other.below[k]);
        }
        self.count = self.count.saturating_add(other.count);
        self.longest = self.longest.max(other.longest);
    }

    /// In how many nanoseconds so many of a thousand were done: the end of the first length in which they were, and no more than
    /// the longest took.
    pub fn within(&self, thousandths: u64) -> u128
        ensures most { result ≤ self.now.longest }
        ensures first { (k : ℕ) → k < LENGTHS → thousandths * self.now.count ≤ 1000 * slice_index self.now.below k → result ≤ end_of k }
        ensures done { result < self.now.longest → (k : ℕ) × (k < LENGTHS) × (result ≡ end_of k) × (thousandths * self.now.count ≤ 1000 * slice_index self.now.below k) }
    {
        let wanted = u128::from(thousandths) * u128::from(self.count);
        let mut end: u128 = 1;
        for k in 0..LENGTHS {
            if wanted <= 1_000 * u128::from(self.below[k]) {
                return end.min(self.longest);
            }
            end = end + end / 4 + 1;
        }
        self.longest
    }

    /// How many were timed.
    pub fn count(&self) -> u64
        ensures { result ≡ self.now.count }
    {
        self.count
    }

    /// The nanoseconds of the longest.
    pub fn longest(&self) -> u128
        ensures { result ≡ self.now.longest }
    {
        self.longest
    }
}
