// A clock and a counter that order events, after the Rust's `EventStamp`.
// Age, expiry and what is left of a timeout depend on the clock alone. Definitions: specs/Stamp.antt, specs/Checks.antt.
// Leans on `octets` for `pick` alone.

#![tactic(auto)]

ghost use Rattle.std.specs.Prelude.{◌≡◌, ◌∷◌, [], ◌≤◌};
ghost use Rattle.stamp.specs.Checks.{check_of};
ghost use Rattle.stamp.specs.Stamp.{next, clocked, earlier, timeout_of, is_expired, sooner_of};

// Stamps are ordered by clock and then by counter.
#[derive(Clone, Copy, Debug, PartialEq, Eq, PartialOrd, Ord)]
pub struct EventStamp {
    pub clock: u64,
    pub counter: u32,
}

// What is left of a timeout: no time runs, the time is over, or so many milliseconds are left.
#[derive(Clone, Copy, Debug, PartialEq, Eq)]
pub enum Timeout {
    Untimed,
    Expired,
    Left(u32),
}

impl Timeout {
    pub fn is_expired(self) -> bool
        ensures { result ≡ is_expired self }
    {
        matches!(self, Timeout::Expired)
    }

    // The smaller of a time and what is left.
    pub fn sooner(self, least: u32) -> u32
        ensures { (result ≡ sooner_of self least) × (result ≤ least) }
    {
        match self {
            Timeout::Untimed | Timeout::Expired => least,
            Timeout::Left(n) => n.min(least),
        }
    }
}

impl EventStamp {
    // The stamp of the next event: the counter goes up by 1, and stays at its largest value.
    #[tactic(auto, unfolding(octets::specs::Pick::pick, crate::specs::Stamp::next))]
    pub fn increment(self) -> EventStamp
        ensures { result ≡ next self }
    {
        EventStamp {
            counter: self.counter.saturating_add(1),
            ..self
        }
    }

    // A later clock sets the counter to 0; any other leaves the stamp (a caller refuses an earlier one).
    #[tactic(auto, unfolding(octets::specs::Pick::pick, crate::specs::Stamp::clocked))]
    pub fn update_clock(self, now: u64) -> EventStamp
        ensures { result ≡ clocked now self }
    {
        if self.clock < now {
            return EventStamp {
                clock: now,
                counter: 0,
            };
        }
        self
    }

    #[tactic(auto, unfolding(octets::specs::Pick::pick, crate::specs::Stamp::earlier))]
    pub fn is_before(self, other: EventStamp) -> bool
        ensures { result ≡ earlier self other }
    {
        self < other
    }

    // What is left of a timeout at the clock `now`.
    #[tactic(auto, unfolding(octets::specs::Pick::pick, crate::specs::Stamp::expired, crate::specs::Stamp::timeout_of))]
    pub fn check_timeout(self, now: u64, timeout: u32) -> Timeout
        ensures { result ≡ timeout_of self now timeout }
    {
        if now < self.clock {
            return Timeout::Expired;
        }
        let age = now - self.clock;
        let timeout = u64::from(timeout);
        if timeout < age {
            return Timeout::Expired;
        }
        Timeout::Left((timeout - age) as u32)
    }
}

// What a check of time found so far: the least remaining time, and whether anything expired.
#[derive(Clone, Copy, Debug, PartialEq, Eq)]
pub struct Check {
    pub least: u32,
    pub expired: bool,
}

impl Check {
    // The check with one more time noted: the sooner of the two, and expired where either is.
    #[tactic(auto, unfolding(octets::specs::Pick::pick, crate::specs::Checks::least_left, crate::specs::Checks::any_expired))]
    pub fn noted(self, t: Timeout) -> Check
        ensures { result ≡ check_of (t ∷ []) self }
    {
        Check {
            least: t.sooner(self.least),
            expired: t.is_expired() || self.expired,
        }
    }
}
