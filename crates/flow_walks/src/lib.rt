// Walks over the flows of a state kept in bytes: which place, the used tags, a flow set or removed, a check of time.
// Each touches only what it needs. Definitions: specs/FlowWalks.antt, and those of `flows` and `state`.
// Leans on `state` for the bytes and for events, on `flows` for one flow's part, on `stamp` for the check of time.

#![tactic(auto)]

ghost use Rattle.std.specs.Prelude.{◌≡◌, map, ◌∷◌, [], ◌≤◌, ◌<◌};
ghost use Rattle.config.specs.Config.{flow_count};
ghost use Rattle.octets.specs.Find.{first};
ghost use Rattle.flows.specs.Table.{is_free, is_flow, removed, used_tags, flow_timeout, faded_flow, insert_flow, counted as countedBy, fresh_flow, fixed_flow, set_flow};
ghost use Rattle.state.specs.Stack.{Kept, Becomes, stack_of, flow_at, with_flow, with_stamp, with_flows};
ghost use Rattle.stamp.specs.Checks.{check_of};
ghost use Rattle.state.specs.Times.{flow_times};
ghost use Rattle.flow_walks.specs.FlowWalks.{table_of, with_table, has_flow_word};

use mctp::{AppCookie, Eid, Error, TagValue};
use stamp::{Check, EventStamp};
use state::Sizes;

fn find_flow_word(state: &[u8], sizes: Sizes, w: u32) -> Option<usize>
    requires { Kept sizes state.now }
    ensures { result ≡ first (has_flow_word w) (stack_of sizes state.now).flows }
{
    (0..config::FLOWS).find(|&i| state::flow_word_at(state, sizes, i) == w)
}

// The place of the flow of that peer and tag.
pub fn find_flow(state: &[u8], sizes: Sizes, peer: Eid, tag: TagValue) -> Option<usize>
    requires { Kept sizes state.now }
    ensures { result ≡ first (is_flow peer tag) (stack_of sizes state.now).flows }
{
    find_flow_word(
        state,
        sizes,
        1 + 256 * (peer.0 as u32 + 256 * (tag.0 as u32)),
    )
}

// The first place that holds no flow.
fn find_free(state: &[u8], sizes: Sizes) -> Option<usize>
    requires { Kept sizes state.now }
    ensures { result ≡ first is_free (stack_of sizes state.now).flows }
{
    (0..config::FLOWS).find(|&i| !state::flow_at(state, sizes, i).used)
}

// The used-tag byte of a peer.
pub fn used_tags(state: &[u8], sizes: Sizes, peer: Eid) -> u8
    requires { Kept sizes state.now }
    ensures { result ≡ used_tags peer (stack_of sizes state.now).flows }
{
    let mut used = 0;
    for i in 0..config::FLOWS {
        let f = state::flow_at(state, sizes, i);
        used = f.mark(peer, used);
    }
    used
}

// Removes the flow of that peer and tag; it is no error where there is none.
pub fn remove_flow(state: &mut [u8], sizes: Sizes, peer: Eid, tag: TagValue)
    requires { Kept sizes state.old }
    ensures { Becomes sizes state.old state.new (with_flows (removed peer tag (stack_of sizes state.old).flows) (stack_of sizes state.old)) }
{
    if let Some(at) = find_flow(state, sizes, peer, tag) {
        state::put_flow(state, sizes, at, flows::no_flow());
    }
}

// The stamp of a new flow: one that expires counts an event.
fn counted(state: &mut [u8], sizes: Sizes, expires: bool) -> EventStamp
    requires { Kept sizes state.old }
    ensures { (result ≡ countedBy expires (stack_of sizes state.old).head.now) × Becomes sizes state.old state.new (with_stamp (countedBy expires (stack_of sizes state.old).head.now) (stack_of sizes state.old)) }
{
    if expires {
        return state::tick(state, sizes);
    }
    state::now_at(state, sizes)
}

// Puts a new flow in the first free place; one that expires counts an event, even when the table is full.
fn insert_flow(
    state: &mut [u8],
    sizes: Sizes,
    peer: Eid,
    tag: TagValue,
    expires: bool,
    cookie: Option<AppCookie>,
) -> Result<TagValue, Error>
    requires { Kept sizes state.old × (tag.0 < 8) }
    ensures { (result ≡ (insert_flow peer tag expires cookie (table_of (stack_of sizes state.old))).granted) × Becomes sizes state.old state.new (with_table (insert_flow peer tag expires cookie (table_of (stack_of sizes state.old))).table (stack_of sizes state.old)) }
{
    let stamp = counted(state, sizes, expires);
    let Some(i) = find_free(state, sizes) else {
        return Err(Error::TagUnavailable);
    };
    let f = flows::new_flow(peer, tag, expires, cookie, stamp);
    state::put_flow(state, sizes, i, f);
    Ok(tag)
}

// A flow under a fresh tag: the tag counter goes up even if no tag is free.
fn fresh_flow(
    state: &mut [u8],
    sizes: Sizes,
    peer: Eid,
    expires: bool,
    cookie: Option<AppCookie>,
) -> Result<TagValue, Error>
    requires { Kept sizes state.old }
    ensures { (result ≡ (fresh_flow peer expires cookie (table_of (stack_of sizes state.old))).granted) × Becomes sizes state.old state.new (with_table (fresh_flow peer expires cookie (table_of (stack_of sizes state.old))).table (stack_of sizes state.old)) }
{
    let start = state::next_tag(state, sizes);
    let used = used_tags(state, sizes, peer);
    match flows::tags::free_tag(used, start) {
        Some(tag) => insert_flow(state, sizes, peer, tag, expires, cookie),
        None => Err(Error::TagUnavailable),
    }
}

// A flow under a given owned tag: one that stands is used again, unless it expires.
fn fixed_flow(
    state: &mut [u8],
    sizes: Sizes,
    peer: Eid,
    tag: TagValue,
    expires: bool,
    cookie: Option<AppCookie>,
) -> Result<TagValue, Error>
    requires { Kept sizes state.old × (tag.0 < 8) }
    ensures { (result ≡ (fixed_flow peer tag expires cookie (table_of (stack_of sizes state.old))).granted) × Becomes sizes state.old state.new (with_table (fixed_flow peer tag expires cookie (table_of (stack_of sizes state.old))).table (stack_of sizes state.old)) }
{
    let Some(i) = find_flow(state, sizes, peer, tag) else {
        return insert_flow(state, sizes, peer, tag, expires, cookie);
    };
    let f = state::flow_at(state, sizes, i);
    let lasting = f.is_lasting();
    if lasting {
        return Ok(tag);
    }
    Err(Error::BadArgument)
}

// Sets or checks the flow of a send under an owned tag: a given one, or where none is given a fresh one.
pub fn set_flow(
    state: &mut [u8],
    sizes: Sizes,
    peer: Eid,
    wish: Option<TagValue>,
    expires: bool,
    cookie: Option<AppCookie>,
) -> Result<TagValue, Error>
    requires { Kept sizes state.old }
    ensures { (result ≡ (set_flow peer wish expires cookie (table_of (stack_of sizes state.old))).granted) × Becomes sizes state.old state.new (with_table (set_flow peer wish expires cookie (table_of (stack_of sizes state.old))).table (stack_of sizes state.old)) }
{
    match wish {
        None => fresh_flow(state, sizes, peer, expires, cookie),
        Some(tag) => {
            if 7 < tag.0 {
                return Err(Error::InvalidInput);
            }
            fixed_flow(state, sizes, peer, tag, expires, cookie)
        }
    }
}

// Checks the time of one flow: an expired flow goes.
fn expire_flow(state: &mut [u8], sizes: Sizes, i: usize, clock: u64, c: Check) -> Check
    requires { Kept sizes state.old × (i < flow_count) }
    ensures { (result ≡ check_of (flow_timeout clock (flow_at i (stack_of sizes state.old)) ∷ []) c) × Becomes sizes state.old state.new (with_flow i (faded_flow clock (flow_at i (stack_of sizes state.old))) (stack_of sizes state.old)) }
{
    let t = state::flow_at(state, sizes, i).check_expired(clock);
    let found = c.noted(t);
    if t.is_expired() {
        state::put_flow(state, sizes, i, flows::no_flow());
    }
    found
}

// Checks the time of every flow: expired flows go, and what is found is added to `c`.
pub fn expire_flows(state: &mut [u8], sizes: Sizes, clock: u64, c: Check) -> Check
    requires { Kept sizes state.old }
    ensures { (result ≡ check_of (flow_times clock (stack_of sizes state.old)) c) × Becomes sizes state.old state.new (with_flows (map (faded_flow clock) (stack_of sizes state.old).flows) (stack_of sizes state.old)) }
{
    let mut found = c;
    for i in 0..config::FLOWS {
        found = expire_flow(state, sizes, i, clock, found);
    }
    found
}
