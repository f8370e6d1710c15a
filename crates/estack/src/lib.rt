// The stack: every public call of docs/RULES.md, over a state kept in lent bytes, after the Rust's `Stack` in src/lib.rs.
// Here are `new`, the EIDs, `cancel_flow` and `free_tags`; the other calls are passed on from their crates. Definitions: specs/Basics.antt.
// Leans on `state` for the layout, on `slot_walks` and `flow_walks` for walks, on `sending`, `receiving`, `updating` and `handles` for their calls.

#![tactic(auto)]

ghost use Rattle.std.specs.Prelude.{◌≡◌, length};
ghost use Rattle.state.specs.Head.{with_own};
ghost use Rattle.state.specs.Stack.{Kept, Becomes, stack_of, with_head};
ghost use Rattle.estack.specs.Basics.{new_says, NewMakes, set_eid_of, local_of, cancel_of, free_tags_of};

pub use handles::{
    Message, fetch_message, finished_receive, get_deferred, get_deferred_bycookie, return_handle,
    set_cookie,
};
use mctp::{Eid, Error, TagValue};
pub use receiving::receive;
pub use sending::{Send, start_send};
pub use slot::ReceiveHandle;
use stamp::EventStamp;
use state::{Head, Sizes};
pub use updating::{Next, update};

// Makes a new stack in the front of a buffer; what lies past it stays.
#[tactic(auto, using(state::proofs::Fresh::fresh_becomes), unfolding(crate::specs::Basics::new_says, octets::specs::Pick::pick))]
pub fn new(state: &mut [u8], sizes: Sizes, own: Eid, mtu: usize, clock: u64) -> Result<(), Error>
    ensures said { result ≡ new_says sizes (length state.old) mtu }
    ensures stack { NewMakes result sizes own mtu clock state.old state.new }
{
    if mtu < config::MIN_MTU || 255 < sizes.slots || 65535 < sizes.body {
        return Err(Error::BadArgument);
    }
    let size = state::SLOTS_AT + state::SLOT_WIDTH * sizes.slots;
    if state.len() < size {
        return Err(Error::NoSpace);
    }
    state::clear(state, size);
    let h = Head {
        own_eid: own,
        mtu,
        now: EventStamp { clock, counter: 0 },
        next_timeout: 0,
        next_tag: 0,
        next_seq: 0,
        issue: 0,
    };
    state::put_head(state, sizes, h);
    Ok(())
}

// Sets the own EID, 8 to 254.
pub fn set_eid(state: &mut [u8], sizes: Sizes, eid: u8) -> Result<(), Error>
    requires { Kept sizes state.old }
    ensures { (result ≡ (set_eid_of eid (stack_of sizes state.old)).said) × Becomes sizes state.old state.new (set_eid_of eid (stack_of sizes state.old)).stack }
{
    put_own(state, sizes, Eid::new_normal(eid)?);
    Ok(())
}

fn put_own(state: &mut [u8], sizes: Sizes, own: Eid)
    requires { Kept sizes state.old }
    ensures { Becomes sizes state.old state.new (with_head (with_own own (stack_of sizes state.old).head) (stack_of sizes state.old)) }
{
    let h = state::head_at(state, sizes);
    state::put_head(state, sizes, h.with_own(own));
}

// The own EID.
pub fn eid(state: &[u8], sizes: Sizes) -> Eid
    requires { Kept sizes state.now }
    ensures { result ≡ (stack_of sizes state.now).head.own_eid }
{
    state::own_eid(state, sizes)
}

// Whether a packet has a good header and goes to the own EID or 0.
pub fn is_local_dest(state: &[u8], sizes: Sizes, packet: &[u8]) -> bool
    requires { Kept sizes state.now }
    ensures { result ≡ local_of packet.now (stack_of sizes state.now) }
{
    reassemble::is_local_dest(state::own_eid(state, sizes), packet)
}

// Frees the replies of a peer and tag, and ends their flow.
#[tactic(auto, using(state::proofs::StackLaws::stays), unfolding(crate::specs::Basics::cancel_of, octets::specs::Pick::pick))]
pub fn cancel_flow(state: &mut [u8], sizes: Sizes, source: Eid, tag: TagValue) -> Result<(), Error>
    requires { Kept sizes state.old }
    ensures { (result ≡ (cancel_of source tag (stack_of sizes state.old)).said) × Becomes sizes state.old state.new (cancel_of source tag (stack_of sizes state.old)).stack }
{
    if 7 < tag.0 {
        return Err(Error::InvalidInput);
    }
    let stopped = slot_walks::sweep(state, sizes, source, tag);
    if stopped {
        return Err(Error::BadArgument);
    }
    flow_walks::remove_flow(state, sizes, source, tag);
    Ok(())
}

// How many tags are free for a peer.
pub fn free_tags(state: &[u8], sizes: Sizes, peer: Eid) -> u8
    requires { Kept sizes state.now }
    ensures { result ≡ free_tags_of peer (stack_of sizes state.now) }
{
    flows::tags::free_tags(flow_walks::used_tags(state, sizes, peer))
}
