// Walks over the slots of a state kept in bytes: which slot collects, which is empty, the earliest message, a check of time, a cancel's sweep.
// Each touches only what it needs. Definitions: specs/SlotWalks.antt, and those of `slot` and `state`.
// Leans on `state` for the bytes, on `slot` for one slot's part, on `stamp` for the check of time.

#![tactic(auto)]

ghost use Rattle.std.specs.Prelude.{◌≡◌, map, ◌∷◌, [], ◌<◌, get_or, Bool, IfSome, unwrap_or};
ghost use Rattle.octets.specs.Find.{first};
ghost use Rattle.slot.specs.Slot.{blank_slot, is_empty, collects, kept_under, listed, slot_timeout, faded_slot};
ghost use Rattle.slot.specs.Search.{earliest_place};
ghost use Rattle.state.specs.Slot.{word_of};
ghost use Rattle.state.specs.Stack.{Kept, Becomes, stack_of, slot_at, with_slot, with_slots};
ghost use Rattle.stamp.specs.Checks.{check_of};
ghost use Rattle.state.specs.Times.{slot_times};
ghost use Rattle.slot_walks.specs.SlotWalks.{swept, blocked, has_word, better_of, Computes};
ghost use Rattle.slot.specs.declared.Reassembler.{Reassembler};

use mctp::{AppCookie, Eid, Key, TagValue};
use slot::Reassembler;
use stamp::Check;
use state::Sizes;

// A collecting slot's state and key as one number.
fn word_of(key: Key) -> u32
    requires { key.tag.0 < 8 }
    ensures { result ≡ word_of 1 key }
{
    let from = mctp::bit_of(key.owner, 8) + key.tag.0;
    1 + 256 * (key.dest.0 as u32 + 256 * (key.source.0 as u32 + 256 * (from as u32)))
}

fn find_word(state: &[u8], sizes: Sizes, w: u32) -> Option<usize>
    requires { Kept sizes state.now }
    ensures { result ≡ first (has_word w) (stack_of sizes state.now).slots }
{
    (0..sizes.slots).find(|&i| state::word_at(state, sizes, i) == w)
}

// The first slot that collects under a key.
pub fn find_collecting(state: &[u8], sizes: Sizes, key: Key) -> Option<usize>
    requires { Kept sizes state.now }
    ensures { result ≡ first (collects key) (stack_of sizes state.now).slots }
{
    // no slot is kept under a tag above 7
    if 7 < key.tag.0 {
        return None;
    }
    find_word(state, sizes, word_of(key))
}

// The first empty slot.
pub fn find_empty(state: &[u8], sizes: Sizes) -> Option<usize>
    requires { Kept sizes state.now }
    ensures { result ≡ first is_empty (stack_of sizes state.now).slots }
{
    (0..sizes.slots).find(|&i| state::state_at(state, sizes, i) == 0)
}

// Checks the time of one slot: an expired slot is emptied.
fn expire_slot(state: &mut [u8], sizes: Sizes, i: usize, clock: u64, c: Check) -> Check
    requires { Kept sizes state.old × (i < sizes.slots) }
    ensures { (result ≡ check_of (slot_timeout clock (slot_at i (stack_of sizes state.old)) ∷ []) c) × Becomes sizes state.old state.new (with_slot i (faded_slot clock (slot_at i (stack_of sizes state.old))) (stack_of sizes state.old)) }
{
    let t = state::slot_at(state, sizes, i).check_expired(clock);
    let found = c.noted(t);
    if t.is_expired() {
        state::put_slot(state, sizes, i, slot::blank());
    }
    found
}

// Checks the time of every slot: expired slots are emptied, and what is found is added to `c`.
pub fn expire_slots(state: &mut [u8], sizes: Sizes, clock: u64, c: Check) -> Check
    requires { Kept sizes state.old }
    ensures { (result ≡ check_of (slot_times clock (stack_of sizes state.old)) c) × Becomes sizes state.old state.new (with_slots (map (faded_slot clock) (stack_of sizes state.old).slots) (stack_of sizes state.old)) }
{
    let mut found = c;
    for i in 0..sizes.slots {
        found = expire_slot(state, sizes, i, clock, found);
    }
    found
}

// The better of slot i, which passes the test, and the best of the slots after it: the one with the earlier stamp, and slot i when the stamps are equal.
fn better(state: &[u8], sizes: Sizes, i: usize, best: Option<usize>) -> usize
    requires kept { Kept sizes state.now }
    requires slots { (i < sizes.slots) × IfSome best (λ j. j < sizes.slots) }
    ensures better { result ≡ better_of i (unwrap_or best sizes.slots) (stack_of sizes state.now).slots }
    ensures slot { result < sizes.slots }
{
    let Some(j) = best else {
        return i;
    };
    let a = state::slot_at(state, sizes, j).stamp;
    let b = state::slot_at(state, sizes, i).stamp;
    let before = a.is_before(b);
    if before {
        return j;
    }
    i
}

// Whether a cookie is one of a list.
fn is_listed(cookies: &[u64], cookie: Option<AppCookie>) -> bool
    ensures { result ≡ listed cookies.now cookie }
{
    match cookie {
        None => false,
        Some(c) => cookies.contains(&c.0),
    }
}

// The earliest done slot that passes the test, and of equal stamps the one with the lowest index; `p` is what the test computes.
fn earliest_of<F: Fn(Reassembler) -> bool>(state: &[u8], sizes: Sizes, passes: F) -> Option<usize>
    requires kept { Kept sizes state.now }
    requires callable { F.IsAlwaysCallable passes }
    ensures { (p : Reassembler → Bool) → Computes (F.post passes) p → result ≡ earliest_place p (stack_of sizes state.now).slots }
{
    let mut best = None;
    for i in (0..sizes.slots).rev() {
        let s = state::slot_at(state, sizes, i);
        let done = s.is_done();
        if done && passes(s) {
            best = Some(better(state, sizes, i, best));
        }
    }
    best
}

// The earliest done slot from that peer under that tag; of equal stamps the one with the lowest index.
pub fn earliest_from(
    state: &[u8],
    sizes: Sizes,
    peer: Eid,
    owner: bool,
    tag: TagValue,
) -> Option<usize>
    requires { Kept sizes state.now }
    ensures { result ≡ earliest_place (kept_under peer owner tag) (stack_of sizes state.now).slots }
{
    earliest_of(state, sizes, |s| slot::is_from(s, peer, owner, tag))
}

// The earliest done slot whose cookie is one of the list; of equal stamps the one with the lowest index.
pub fn earliest_listed(state: &[u8], sizes: Sizes, cookies: &[u64]) -> Option<usize>
    requires { Kept sizes state.now }
    ensures { result ≡ earliest_place (λ s. listed cookies.now s.cookie) (stack_of sizes state.now).slots }
{
    earliest_of(state, sizes, |s| is_listed(cookies, s.cookie))
}

// One slot of a cancel's walk: a reply with no handle out is freed. It tells whether the walk stops there.
fn sweep_slot(state: &mut [u8], sizes: Sizes, i: usize, peer: Eid, tag: TagValue) -> bool
    requires { Kept sizes state.old × (i < sizes.slots) }
    ensures { (result ≡ blocked peer tag (slot_at i (stack_of sizes state.old) ∷ [])) × Becomes sizes state.old state.new (with_slot i (get_or (swept peer tag (slot_at i (stack_of sizes state.old) ∷ [])) 0 blank_slot) (stack_of sizes state.old)) }
{
    let s = state::slot_at(state, sizes, i);
    if !slot::is_reply(s, peer, tag) {
        return false;
    }
    if s.handle_taken() {
        return true; // the walk stops at a handle
    }
    state::put_slot(state, sizes, i, slot::blank());
    false
}

// A cancel's walk: replies of that peer and tag are freed. It tells whether the walk stopped at one with a handle out.
pub fn sweep(state: &mut [u8], sizes: Sizes, peer: Eid, tag: TagValue) -> bool
    requires { Kept sizes state.old }
    ensures { (result ≡ blocked peer tag (stack_of sizes state.old).slots) × Becomes sizes state.old state.new (with_slots (swept peer tag (stack_of sizes state.old).slots) (stack_of sizes state.old)) }
{
    for i in 0..sizes.slots {
        if sweep_slot(state, sizes, i, peer, tag) {
            return true;
        }
    }
    false
}
