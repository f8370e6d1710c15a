// Receive, docs/RULES.md 38 to 51, over the whole stack. Find the slot, gate, enter; then one store of one slot and, where the slot takes the packet, one write to the pool.
// Definitions: specs/Receive.antt, specs/Conclude.antt.
// Leans on `state` for the layout, on `slot_walks` and `flow_walks` for searches, on `reassemble` for one slot's part.

#![tactic(auto)]

ghost use Rattle.std.specs.Prelude.{◌≡◌, ◌*◌, ◌≤◌, ◌<◌, length, true, None, Ok, Some};
ghost use Rattle.slot.specs.Handle.{next_issue};
ghost use Rattle.state.specs.Stack.{with_flows, Kept, Becomes, stack_of, slot_at};
ghost use Rattle.receiving.specs.Conclude.{concluded, said_of, flows_after};
ghost use Rattle.slot.specs.Slot.{is_empty};
ghost use Rattle.reassemble.specs.Enter.{gate_empty, gate_reply, Planned};
ghost use Rattle.flows.specs.Table.{standing, flow_cookie};
ghost use Rattle.state.specs.Slot.{SlotOk};
ghost use Rattle.receiving.specs.Receive.{receive_of, receive_by, receive_at, land, settled, Makes};

use mctp::{Error, Header, Key};
use reassemble::Intake;
use slot::{Reassembler, ReceiveHandle};
use state::Sizes;

mod middle; // middle.rt: the short way of a middle packet

// Receives a packet: none where more of its message is to come, and else the handle of the message that it ends.
pub fn receive(
    state: &mut [u8],
    sizes: Sizes,
    pool: &mut [u8],
    packet: &[u8],
) -> Result<Option<ReceiveHandle>, Error>
    requires { Kept sizes state.old }
    ensures { Makes sizes (receive_of sizes.body (stack_of sizes state.old) (length pool.old) packet.now) result state.old state.new pool.old pool.new }
{
    if pool.len() < sizes.body * sizes.slots {
        return Err(Error::PoolShort);
    }
    match mctp::read_header(packet) {
        Some(h) => receive_good(state, sizes, pool, packet, h),
        None => receive_bad(state, sizes, packet),
    }
}

// A bad header matches no collecting slot: it is refused at an empty slot, or for want of one.
fn receive_bad(
    state: &mut [u8],
    sizes: Sizes,
    packet: &[u8],
) -> Result<Option<ReceiveHandle>, Error>
    requires { Kept sizes state.old }
    ensures { (result ≡ (receive_by sizes.body (stack_of sizes state.old) packet.now None).said) × Becomes sizes state.old state.new (receive_by sizes.body (stack_of sizes state.old) packet.now None).stack }
{
    let Some(_) = slot_walks::find_empty(state, sizes) else {
        return Err(Error::NoSpace); // no slot is empty, and no event is counted
    };
    state::tick(state, sizes);
    Err(Error::InvalidInput)
}

fn receive_good(
    state: &mut [u8],
    sizes: Sizes,
    pool: &mut [u8],
    packet: &[u8],
    h: Header,
) -> Result<Option<ReceiveHandle>, Error>
    requires { Kept sizes state.old × (h.key.tag.0 < 8) × (h.seq < 4) × (4 ≤ length packet.now) × (sizes.body * sizes.slots ≤ length pool.old) }
    ensures { Makes sizes (receive_by sizes.body (stack_of sizes state.old) packet.now (Some h)) result state.old state.new pool.old pool.new }
{
    if let Some(i) = slot_walks::find_collecting(state, sizes, h.key) {
        return receive_collecting(state, sizes, pool, packet, h, i);
    }
    let Some(j) = slot_walks::find_empty(state, sizes) else {
        return Err(Error::NoSpace);
    };
    receive_opening(state, sizes, pool, packet, h, j)
}

// The packet comes to a slot that collects its key; a middle packet takes the shortcut.
fn receive_collecting(
    state: &mut [u8],
    sizes: Sizes,
    pool: &mut [u8],
    packet: &[u8],
    h: Header,
    i: usize,
) -> Result<Option<ReceiveHandle>, Error>
    requires { Kept sizes state.old × (h.key.tag.0 < 8) × (h.seq < 4) × (4 ≤ length packet.now) × (sizes.body * sizes.slots ≤ length pool.old) × (i < sizes.slots) }
    ensures { Makes sizes (land sizes.body i (stack_of sizes state.old) h packet.now (Ok (slot_at i (stack_of sizes state.old)))) result state.old state.new pool.old pool.new }
{
    let p = state::progress_at(state, sizes, i);
    let n = packet.len() - 4;
    if middle::is_middle(h, p, n, sizes.body) {
        return middle::append_middle(state, sizes, pool, packet, h, i, p);
    }
    let s = state::slot_at(state, sizes, i);
    feed(state, sizes, pool, packet, h, i, s)
}

// Rules 40 to 42: for an empty slot one event is counted, and its gate looks at the packet.
fn receive_opening(
    state: &mut [u8],
    sizes: Sizes,
    pool: &mut [u8],
    packet: &[u8],
    h: Header,
    i: usize,
) -> Result<Option<ReceiveHandle>, Error>
    requires { Kept sizes state.old × (h.key.tag.0 < 8) × (h.seq < 4) × (4 ≤ length packet.now) × (sizes.body * sizes.slots ≤ length pool.old) × (i < sizes.slots) × (is_empty (slot_at i (stack_of sizes state.old)) ≡ true) }
    ensures { Makes sizes (receive_at sizes.body i (stack_of sizes state.old) packet.now (Some h)) result state.old state.new pool.old pool.new }
{
    let gate = gate_empty(state, sizes, h);
    state::tick(state, sizes);
    let s = gate?;
    feed(state, sizes, pool, packet, h, i, s)
}

fn gate_empty(state: &[u8], sizes: Sizes, h: Header) -> Result<Reassembler, Error>
    requires { Kept sizes state.now }
    ensures { result ≡ gate_empty (stack_of sizes state.now).head.own_eid h (standing h.key.source h.key.tag (stack_of sizes state.now).flows) (flow_cookie h.key.source h.key.tag (stack_of sizes state.now).flows) }
{
    let own = state::own_eid(state, sizes);
    if !reassemble::opens(own, h) {
        return Err(Error::InvalidInput);
    }
    if h.key.owner {
        return Ok(reassemble::open(h, None));
    }
    gate_by_flow(state, sizes, h)
}

// Rule 41: a reply passes only where its flow stands.
fn gate_by_flow(state: &[u8], sizes: Sizes, h: Header) -> Result<Reassembler, Error>
    requires { Kept sizes state.now }
    ensures { result ≡ gate_reply h (standing h.key.source h.key.tag (stack_of sizes state.now).flows) (flow_cookie h.key.source h.key.tag (stack_of sizes state.now).flows) }
{
    let Some(i) = flow_walks::find_flow(state, sizes, h.key.source, h.key.tag) else {
        return reassemble::gate_reply(h, false, None);
    };
    let f = state::flow_at(state, sizes, i);
    reassemble::gate_reply(h, true, f.cookie)
}

// Rules 44 to 51: one event is counted, and the packet enters slot i, which is s.
fn feed(
    state: &mut [u8],
    sizes: Sizes,
    pool: &mut [u8],
    packet: &[u8],
    h: Header,
    i: usize,
    s: Reassembler,
) -> Result<Option<ReceiveHandle>, Error>
    requires { Kept sizes state.old × (h.key.tag.0 < 8) × (h.seq < 4) × (4 ≤ length packet.now) × (sizes.body * sizes.slots ≤ length pool.old) × (i < sizes.slots) × SlotOk sizes.body s }
    ensures { Makes sizes (land sizes.body i (stack_of sizes state.old) h packet.now (Ok s)) result state.old state.new pool.old pool.new }
{
    let stamp = state::tick(state, sizes);
    let issue = slot::next_issue(state::issue_at(state, sizes));
    match reassemble::receive(s, h, packet, stamp, issue, sizes.body) {
        Err(err) => {
            state::put_slot(state, sizes, i, slot::blank());
            Err(err)
        }
        Ok(t) => settle(state, sizes, pool, packet, h.key, i, t),
    }
}

// Slot i takes a packet: one store of the slot, one write to the pool, then the flow.
fn settle(
    state: &mut [u8],
    sizes: Sizes,
    pool: &mut [u8],
    packet: &[u8],
    key: Key,
    i: usize,
    t: Intake,
) -> Result<Option<ReceiveHandle>, Error>
    requires { Kept sizes state.old × (i < sizes.slots) × (sizes.body * sizes.slots ≤ length pool.old) × Planned t (length packet.now) sizes.body × SlotOk sizes.body t.slot }
    ensures { Makes sizes (settled sizes.body i (stack_of sizes state.old) key packet.now (Ok t)) result state.old state.new pool.old pool.new }
{
    state::put_slot(state, sizes, i, t.slot);
    let said = conclude(state, sizes, key, i, t.whole);
    let at = sizes.body * i + t.at;
    copying::copy(&mut pool[at..], &packet[t.from..]);
    said
}

// ---- the end of a receive

// A whole reply ends its flow.
fn close(state: &mut [u8], sizes: Sizes, key: Key)
    requires { Kept sizes state.old }
    ensures { Becomes sizes state.old state.new (with_flows (flows_after true key (stack_of sizes state.old).flows) (stack_of sizes state.old)) }
{
    if key.owner {
        return;
    }
    flow_walks::remove_flow(state, sizes, key.source, key.tag);
}

// What is said of a packet that slot i takes, and with a whole message its handle's number and its flow's end.
pub fn conclude(
    state: &mut [u8],
    sizes: Sizes,
    key: Key,
    i: usize,
    whole: bool,
) -> Result<Option<ReceiveHandle>, Error>
    requires { Kept sizes state.old }
    ensures { (result ≡ said_of whole i (next_issue (stack_of sizes state.old).head.issue)) × Becomes sizes state.old state.new (concluded whole key (stack_of sizes state.old)) }
{
    if whole {
        let issue = slot::next_issue(state::issue_at(state, sizes));
        state::put_issue(state, sizes, issue);
        close(state, sizes, key);
        return Ok(Some(ReceiveHandle { index: i, issue }));
    }
    Ok(None)
}
