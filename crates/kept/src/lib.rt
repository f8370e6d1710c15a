// Tells exactly whether bytes are a kept state (docs/RULES.md 88 to 90). A board that keeps its state over a warm start asks this before any other call.
// A block is read as a record, the record's ranges are tested, and it is written out again and compared: first the head, then all flow places and all slots.
// Leans on `state` for the layout and the codecs, on `flows` for a flow's codec. Definitions: specs/Tells.antt, specs/Ranges.antt.

#![tactic(auto)]

ghost use Rattle.std.specs.Prelude.{◌≡◌, true, ◌+◌, ◌*◌, ◌≤◌, length};
ghost use Rattle.config.specs.Config.{flow_count};
ghost use Rattle.octets.specs.Region.{Holds, Regular};
ghost use Rattle.flows.specs.Codec.{flow_codec, flow_width};
ghost use Rattle.state.specs.Layout.{head_width, slot_width, flows_at, slots_at};
ghost use Rattle.state.specs.Head.{head_codec};
ghost use Rattle.state.specs.Slot.{slot_codec};
ghost use Rattle.state.specs.Stack.{Kept};
ghost use Rattle.kept.specs.Tells.{Tells};
ghost use Rattle.kept.specs.Ranges.{HeadRanges, SlotRanges};

use slot::Reassembler;
use state::{FLOW_WIDTH, FLOWS_AT, HEAD_WIDTH, Head, SLOT_WIDTH, SLOTS_AT, Sizes};

// ---- one block

// Whether a head has the ranges that the widths of its fields do not give.
fn head_ranges(h: Head) -> bool
    ensures { Tells (HeadRanges h) result }
{
    if 7 < h.next_tag {
        return false;
    }
    if 3 < h.next_seq {
        return false;
    }
    if h.next_timeout <= h.now.clock {
        return true;
    }
    if (config::TIMEOUT_INTERVAL as u64) < h.next_timeout - h.now.clock {
        return false;
    }
    true
}

// Whether a slot has the ranges that the widths of its fields do not give.
fn slot_ranges(s: Reassembler, body: usize) -> bool
    ensures { Tells (SlotRanges body s) result }
{
    if 3 < s.next_seq {
        return false;
    }
    s.len <= body
}

fn head_holds(state: &[u8]) -> bool
    requires { head_width ≤ length state.now }
    ensures { Tells (Holds head_codec 0 state.now) result }
{
    let head = &state[0..HEAD_WIDTH];
    let h = state::read_head(head);
    if !head_ranges(h) {
        return false;
    }
    let mut anew = [0u8; HEAD_WIDTH];
    state::write_head(&mut anew, h);
    anew.as_slice() == head
}

fn flow_holds(state: &[u8], at: usize) -> bool
    requires { at + flow_width ≤ length state.now }
    ensures { Tells (Holds flow_codec at state.now) result }
{
    let end = at + FLOW_WIDTH;
    let place = &state[at..end];
    let f = state::flow_from(state, at);
    if 7 < f.tag.0 {
        return false;
    }
    let mut anew = [0u8; FLOW_WIDTH];
    flows::write_flow(&mut anew, f);
    anew.as_slice() == place // bytes that hold nothing are compared as well
}

fn slot_holds(state: &[u8], at: usize, body: usize) -> bool
    requires { at + slot_width ≤ length state.now }
    ensures { Tells (Holds (slot_codec body) at state.now) result }
{
    let end = at + SLOT_WIDTH;
    let slot = &state[at..end];
    let s = state::slot_from(state, at);
    if !slot_ranges(s, body) {
        return false;
    }
    let mut anew = [0u8; SLOT_WIDTH];
    state::write_slot(&mut anew, s);
    anew.as_slice() == slot
}

// ---- all blocks

fn flows_hold(state: &[u8]) -> bool
    requires { slots_at ≤ length state.now }
    ensures { Tells (Regular flow_codec flow_count flows_at state.now) result }
{
    for i in 0..config::FLOWS {
        if !flow_holds(state, FLOWS_AT + FLOW_WIDTH * i) {
            return false;
        }
    }
    true
}

fn slots_hold(state: &[u8], slots: usize, body: usize) -> bool
    requires { slots_at + slot_width * slots ≤ length state.now }
    ensures { Tells (Regular (slot_codec body) slots slots_at state.now) result }
{
    for i in 0..slots {
        if !slot_holds(state, SLOTS_AT + SLOT_WIDTH * i, body) {
            return false;
        }
    }
    true
}

// Whether the bytes are a state, such as `new` makes and the calls keep.
pub fn is_kept(state: &[u8], sizes: Sizes) -> bool
    ensures sound { result ≡ true → Kept sizes state.now }
    ensures complete { Kept sizes state.now → result ≡ true }
{
    if 255 < sizes.slots {
        return false;
    }
    if 65535 < sizes.body {
        return false;
    }
    if state.len() < SLOTS_AT + SLOT_WIDTH * sizes.slots {
        return false;
    }
    if !head_holds(state) {
        return false;
    }
    if !flows_hold(state) {
        return false;
    }
    slots_hold(state, sizes.slots, sizes.body)
}
