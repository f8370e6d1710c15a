// Updating: the clock is taken, and where the planned check is reached, slots and flows expire; after the Rust's `Stack` in src/lib.rs.
// Definitions: specs/Update.antt.
// Leans on `slot_walks` and `flow_walks` for what expires, on `state` for the clock and the planned check, on `stamp` for what a check finds.

#![tactic(auto)]

ghost use Rattle.std.specs.Prelude.{◌≡◌, ◌+◌, ◌≤◌};
ghost use Rattle.config.specs.Config.{interval};
ghost use Rattle.state.specs.Head.{with_now, with_planned};
ghost use Rattle.state.specs.Stack.{Kept, Becomes, stack_of, with_head};
ghost use Rattle.updating.specs.Update.{update_of, checked, planned_at};

use mctp::Error;
use stamp::{Check, EventStamp};
use state::{Head, Sizes};

// How many milliseconds may pass until the next update, and whether something expired.
#[derive(Clone, Copy, Debug, PartialEq, Eq)]
pub struct Next {
    pub millis: u64,
    pub expired: bool,
}

// When the next check is planned; it stops at 2^64 - 1.
fn plan_check(clock: u64, least: u32) -> u64
    ensures { result ≡ planned_at clock least }
{
    clock.saturating_add(u64::from(least))
}

#[tactic(auto, using(state::proofs::StackLaws::head_ok))]
fn put_clock(state: &mut [u8], sizes: Sizes, h: Head, stamp: EventStamp, next_timeout: u64)
    requires { Kept sizes state.old × (h ≡ (stack_of sizes state.old).head) × (next_timeout ≤ stamp.clock + interval) }
    ensures { Becomes sizes state.old state.new (with_head (with_planned next_timeout (with_now stamp h)) (stack_of sizes state.old)) }
{
    state::put_head(state, sizes, h.with_clock(stamp, next_timeout));
}

// The check itself: slots and flows expire, and the next check is planned.
#[tactic(auto, using(crate::proofs::Times::least_soon), unfolding(crate::specs::Update::checked))]
fn check(state: &mut [u8], sizes: Sizes, clock: u64) -> Result<Next, Error>
    requires { Kept sizes state.old × (clock ≡ (stack_of sizes state.old).head.now.clock) }
    ensures { (result ≡ (checked clock (stack_of sizes state.old)).said) × Becomes sizes state.old state.new (checked clock (stack_of sizes state.old)).stack }
{
    let start = Check {
        least: config::TIMEOUT_INTERVAL,
        expired: false,
    };
    let c = slot_walks::expire_slots(state, sizes, clock, start);
    let c = flow_walks::expire_flows(state, sizes, clock, c);
    let h = state::head_at(state, sizes);
    put_clock(state, sizes, h, h.now, plan_check(clock, c.least));
    Ok(Next {
        millis: u64::from(c.least),
        expired: c.expired,
    })
}

// Takes the clock. Where the planned check is reached, slots and flows expire.
#[tactic(auto, using(state::proofs::StackLaws::stays, crate::proofs::Times::clock_taken), unfolding(crate::specs::Update::update_of, octets::specs::Pick::pick))]
pub fn update(state: &mut [u8], sizes: Sizes, clock: u64) -> Result<Next, Error>
    requires { Kept sizes state.old }
    ensures { (result ≡ (update_of clock (stack_of sizes state.old)).said) × Becomes sizes state.old state.new (update_of clock (stack_of sizes state.old)).stack }
{
    let h = state::head_at(state, sizes);
    if clock < h.now.clock {
        return Err(Error::InvalidInput);
    }
    let stamp = h.now.update_clock(clock);
    put_clock(state, sizes, h, stamp, h.next_timeout);
    if clock < h.next_timeout {
        return Ok(Next {
            millis: h.next_timeout - clock,
            expired: false,
        });
    }
    check(state, sizes, clock)
}
