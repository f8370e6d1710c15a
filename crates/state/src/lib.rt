// The stack's state, kept in bytes that the caller lends: where each part lies, its codec, and its accessors. No crate above looks at what single bytes mean.
// A head of 40 bytes comes first, then 64 flow places of 32 bytes, then the slots of 40. The slots come last so that their number moves no offset.
// Leans on `octets` for numbers in bytes and blocks, on `flows` and `slot` for the records. Definitions: specs/Layout.antt, Head.antt, Slot.antt, Stack.antt.

#![tactic(auto)]

ghost use Rattle.std.specs.Prelude.{◌≡◌, ◌+◌, ◌%◌, ◌≤◌, ◌<◌, ◌^◌, length, replicate};
ghost use Rattle.config.specs.Config.{interval};
ghost use Rattle.octets.specs.Bytes.{part, lay, puts};
ghost use Rattle.slot.specs.Slot.{state_no};
ghost use Rattle.flows.specs.Codec.{FlowOk, flow_word, flow_width, flow_of};
ghost use Rattle.state.specs.Layout.{slot_width};
ghost use Rattle.state.specs.Head.{head_of, head_bytes, HeadOk, head_with, with_own, with_now, with_counter, with_planned, with_next_tag, with_next_seq, with_issue};
ghost use Rattle.state.specs.Slot.{issue_no, state_from, owner_tag, slot_of, slot_from, flow_from, slot_bytes, lead_row, rest_row, progress_row, SlotOk, ProgressOk, progress, progress_of, key_word};
ghost use Rattle.stamp.specs.Stamp.{next};
ghost use Rattle.state.specs.Stack.{ticked, Kept, Becomes, stack_of, slot_at, flow_at, with_slot, with_flow, with_head};

use flows::Flow;
use mctp::{Eid, Key, TagValue};
use octets::Uint;
use slot::{Reassembler, State};
use stamp::EventStamp;

pub const HEAD_WIDTH: usize = 40;

pub const FLOW_WIDTH: usize = 32;

pub const SLOT_WIDTH: usize = 40;

pub const FLOWS_AT: usize = HEAD_WIDTH;

pub const SLOTS_AT: usize = FLOWS_AT + FLOW_WIDTH * config::FLOWS;

// How many slots a stack has, and how many bytes a body may hold.
#[derive(Clone, Copy, Debug, PartialEq, Eq)]
pub struct Sizes {
    pub slots: usize,
    pub body: usize,
}

impl Sizes {
    // The board's sizes.
    pub const BOARD: Sizes = Sizes {
        slots: config::NUM_RECEIVE,
        body: config::MAX_PAYLOAD,
    };
}

// What a stack has only one of.
#[derive(Clone, Copy, Debug, PartialEq, Eq)]
pub struct Head {
    pub own_eid: Eid,
    pub mtu: usize,
    pub now: EventStamp,
    pub next_timeout: u64,
    pub next_tag: u8,
    pub next_seq: u8,
    pub issue: u64,
}

impl Head {
    fn with(self, own: Eid, stamp: EventStamp, planned: u64) -> Head
        requires { HeadOk self }
        ensures { (result ≡ head_with own stamp planned self.next_tag self.next_seq self.issue self) × ((planned ≤ stamp.clock + interval) → HeadOk result) }
    {
        Head {
            own_eid: own,
            now: stamp,
            next_timeout: planned,
            ..self
        }
    }

    pub fn with_own(self, own: Eid) -> Head
        requires { HeadOk self }
        ensures { (result ≡ with_own own self) × HeadOk result }
    {
        self.with(own, self.now, self.next_timeout)
    }

    // The head with another stamp of the last event, and another planned check.
    pub fn with_clock(self, stamp: EventStamp, planned: u64) -> Head
        requires { HeadOk self }
        ensures stamped { result ≡ with_planned planned (with_now stamp self) }
        ensures sound { (planned ≤ stamp.clock + interval) → HeadOk result }
    {
        self.with(self.own_eid, stamp, planned)
    }
}

// ---- a head in 40 bytes

pub fn read_head(b: &[u8]) -> Head
    ensures { result ≡ head_of b.now }
{
    Head {
        own_eid: Eid(u8::get(b, 0)),
        next_tag: u8::get(b, 1),
        next_seq: u8::get(b, 2),
        now: EventStamp {
            counter: u32::get(b, 4),
            clock: u64::get(b, 8),
        },
        next_timeout: u64::get(b, 16),
        issue: u64::get(b, 24),
        mtu: u64::get(b, 32) as usize,
    }
}

pub fn write_head(b: &mut [u8], h: Head)
    ensures { b.new ≡ lay 0 (head_bytes h) b.old }
{
    u8::put(b, 0, h.own_eid.0);
    u8::put(b, 1, h.next_tag);
    u16::put(b, 2, h.next_seq as u16);
    u32::put(b, 4, h.now.counter);
    u64::put(b, 8, h.now.clock);
    u64::put(b, 16, h.next_timeout);
    u64::put(b, 24, h.issue);
    u64::put(b, 32, h.mtu as u64);
}

// ---- a slot in 40 bytes

// The part of a slot that a middle packet of a message looks at.
#[derive(Clone, Copy, Debug, PartialEq, Eq)]
pub struct Progress {
    pub seq: u8,
    pub len: usize,
}

fn issue_no(s: State) -> u64
    ensures { result ≡ issue_no s }
{
    match s {
        State::Empty => 0,
        State::Collecting => 0,
        State::Done => 0,
        State::HandleOut(n) => n,
    }
}

fn state_from(n: u8, issue: u64) -> State
    ensures { result ≡ state_from n issue }
{
    if n == 1 {
        return State::Collecting;
    }
    if n == 2 {
        return State::Done;
    }
    if n == 3 {
        return State::HandleOut(issue);
    }
    State::Empty
}

fn owner_tag(key: Key) -> u8
    requires { key.tag.0 < 8 }
    ensures { result ≡ owner_tag key }
{
    mctp::bit_of(key.owner, 8) + key.tag.0
}

// The slot, or the flow, whose bytes start at byte `at`. Each alone calls its `read_..`, so the compiler joins the two, and the tests of a length that
// reading any bytes takes are gone.
fn slot_in(b: &[u8], at: usize) -> Reassembler
    requires { at + slot_width ≤ length b.now }
    ensures { result ≡ slot_of (part at slot_width b.now) }
{
    let end = at + SLOT_WIDTH;
    read_slot(&b[at..end])
}

fn flow_in(b: &[u8], at: usize) -> Flow
    requires { at + flow_width ≤ length b.now }
    ensures { result ≡ flow_of (part at flow_width b.now) }
{
    let end = at + FLOW_WIDTH;
    flows::read_flow(&b[at..end])
}

// The same of any bytes: a blank slot, or no flow, where the bytes do not all lie in `b`.
pub fn slot_from(b: &[u8], at: usize) -> Reassembler
    ensures { result ≡ slot_from at b.now }
{
    if b.len().saturating_sub(at) < SLOT_WIDTH {
        return slot::blank();
    }
    slot_in(b, at)
}

pub fn flow_from(b: &[u8], at: usize) -> Flow
    ensures { result ≡ flow_from at b.now }
{
    if b.len().saturating_sub(at) < FLOW_WIDTH {
        return flows::no_flow();
    }
    flow_in(b, at)
}

fn read_slot(b: &[u8]) -> Reassembler
    ensures { result ≡ slot_of b.now }
{
    let dest = Eid(u8::get(b, 1));
    let source = Eid(u8::get(b, 2));
    let o = u8::get(b, 3);
    let seq = u8::get(b, 5);
    let len = u16::get(b, 6);
    let counter = u32::get(b, 8);
    let clock = u64::get(b, 16);
    let state = state_from(u8::get(b, 0), u64::get(b, 32));
    let cookie = mctp::cookie_of(u8::get(b, 12), u64::get(b, 24));
    let t = mctp::decode_type_ic(u8::get(b, 4));
    let key = Key {
        source,
        dest,
        owner: o / 8 == 1,
        tag: TagValue(o % 8),
    };
    Reassembler {
        state,
        key,
        typ: t.typ,
        ic: t.ic,
        next_seq: seq,
        len: len as usize,
        cookie,
        stamp: EventStamp { clock, counter },
    }
}

fn write_lead(b: &mut [u8], state: u8, dest: u8, source: u8, from: u8, kind: u8, seq: u8, len: u16)
    ensures { b.new ≡ puts 0 (lead_row state dest source from kind seq len) b.old }
{
    u8::put(b, 0, state);
    u8::put(b, 1, dest);
    u8::put(b, 2, source);
    u8::put(b, 3, from);
    u8::put(b, 4, kind);
    u8::put(b, 5, seq);
    u16::put(b, 6, len);
}

fn write_rest(b: &mut [u8], counter: u32, has: u32, clock: u64, value: u64, issue: u64)
    ensures { b.new ≡ puts 8 (rest_row counter has clock value issue) b.old }
{
    u32::put(b, 8, counter);
    u32::put(b, 12, has);
    u64::put(b, 16, clock);
    u64::put(b, 24, value);
    u64::put(b, 32, issue);
}

pub fn write_slot(b: &mut [u8], s: Reassembler)
    requires { (s.key.tag.0 < 8) × (s.len < 2 ^ 16) }
    ensures { b.new ≡ lay 0 (slot_bytes s) b.old }
{
    let state = s.state;
    let c = s.cookie;
    let k = s.key;
    let t = s.stamp;
    let kind = mctp::encode_type_ic(s.typ, s.ic);
    write_lead(
        b,
        s.phase(),
        k.dest.0,
        k.source.0,
        owner_tag(k),
        kind,
        s.next_seq,
        s.len as u16,
    );
    write_rest(
        b,
        t.counter,
        mctp::cookie_no(c) as u32,
        t.clock,
        mctp::cookie_value(c),
        issue_no(state),
    );
}

fn write_progress(b: &mut [u8], p: Progress)
    requires { p.len < 2 ^ 16 }
    ensures { b.new ≡ puts 5 (progress_row p) b.old }
{
    u8::put(b, 5, p.seq);
    u16::put(b, 6, p.len as u16);
}

// ---- the state

pub fn head_at(state: &[u8], sizes: Sizes) -> Head
    requires { Kept sizes state.now }
    ensures { (result ≡ (stack_of sizes state.now).head) × HeadOk result }
{
    read_head(&state[0..HEAD_WIDTH])
}

pub fn put_head(state: &mut [u8], sizes: Sizes, h: Head)
    requires { Kept sizes state.old × HeadOk h }
    ensures { Becomes sizes state.old state.new (with_head h (stack_of sizes state.old)) }
{
    write_head(&mut state[0..HEAD_WIDTH], h);
}

pub fn own_eid(state: &[u8], sizes: Sizes) -> Eid
    requires { Kept sizes state.now }
    ensures { result ≡ (stack_of sizes state.now).head.own_eid }
{
    Eid(u8::get(&state[0..HEAD_WIDTH], 0))
}

pub fn now_at(state: &[u8], sizes: Sizes) -> EventStamp
    requires { Kept sizes state.now }
    ensures { result ≡ (stack_of sizes state.now).head.now }
{
    let w = &state[0..HEAD_WIDTH];
    let counter = u32::get(w, 4);
    let clock = u64::get(w, 8);
    EventStamp { clock, counter }
}

// Stores the last event's counter; its clock stays.
pub fn put_counter(state: &mut [u8], sizes: Sizes, counter: u32)
    requires { Kept sizes state.old }
    ensures { Becomes sizes state.old state.new (with_head (with_counter counter (stack_of sizes state.old).head) (stack_of sizes state.old)) }
{
    u32::put(&mut state[0..HEAD_WIDTH], 4, counter);
}

// Counts one event, and gives its stamp.
pub fn tick(state: &mut [u8], sizes: Sizes) -> EventStamp
    requires { Kept sizes state.old }
    ensures { (result ≡ next (stack_of sizes state.old).head.now) × Becomes sizes state.old state.new (ticked (stack_of sizes state.old)) }
{
    let stamp = now_at(state, sizes).increment();
    put_counter(state, sizes, stamp.counter);
    stamp
}

pub fn mtu_at(state: &[u8], sizes: Sizes) -> usize
    requires { Kept sizes state.now }
    ensures { result ≡ (stack_of sizes state.now).head.mtu }
{
    u64::get(&state[0..HEAD_WIDTH], 32) as usize
}

// Moves the tag counter up by 1 modulo 8, and tells what it is then.
pub fn next_tag(state: &mut [u8], sizes: Sizes) -> u8
    requires { Kept sizes state.old }
    ensures { (result ≡ ((stack_of sizes state.old).head.next_tag % 8 + 1) % 8) × Becomes sizes state.old state.new (with_head (with_next_tag (((stack_of sizes state.old).head.next_tag % 8 + 1) % 8) (stack_of sizes state.old).head) (stack_of sizes state.old)) }
{
    let tag = (u8::get(&state[0..HEAD_WIDTH], 1) % 8 + 1) % 8;
    u8::put(&mut state[0..HEAD_WIDTH], 1, tag);
    tag
}

// Moves the sequence up by 1 modulo 4, and tells what it is then.
pub fn next_seq(state: &mut [u8], sizes: Sizes) -> u8
    requires { Kept sizes state.old }
    ensures { (result ≡ (with_next_seq (stack_of sizes state.old).head).next_seq) × Becomes sizes state.old state.new (with_head (with_next_seq (stack_of sizes state.old).head) (stack_of sizes state.old)) }
{
    let seq = (u8::get(&state[0..HEAD_WIDTH], 2) % 4 + 1) % 4;
    u16::put(&mut state[0..HEAD_WIDTH], 2, seq as u16);
    seq
}

pub fn issue_at(state: &[u8], sizes: Sizes) -> u64
    requires { Kept sizes state.now }
    ensures { result ≡ (stack_of sizes state.now).head.issue }
{
    u64::get(&state[0..HEAD_WIDTH], 24)
}

pub fn put_issue(state: &mut [u8], sizes: Sizes, issue: u64)
    requires { Kept sizes state.old }
    ensures { Becomes sizes state.old state.new (with_head (with_issue issue (stack_of sizes state.old).head) (stack_of sizes state.old)) }
{
    u64::put(&mut state[0..HEAD_WIDTH], 24, issue);
}

// Slot i, or an empty one past the last.
pub fn slot_at(state: &[u8], sizes: Sizes, i: usize) -> Reassembler
    requires { Kept sizes state.now }
    ensures { (result ≡ slot_at i (stack_of sizes state.now)) × SlotOk sizes.body result }
{
    if sizes.slots <= i {
        return slot::blank();
    }
    slot_in(state, SLOTS_AT + SLOT_WIDTH * i)
}

// Stores slot i; past the last slot nothing is stored.
pub fn put_slot(state: &mut [u8], sizes: Sizes, i: usize, s: Reassembler)
    requires { Kept sizes state.old × SlotOk sizes.body s }
    ensures { Becomes sizes state.old state.new (with_slot i s (stack_of sizes state.old)) }
{
    if sizes.slots <= i {
        return;
    }
    let at = SLOTS_AT + SLOT_WIDTH * i;
    let end = at + SLOT_WIDTH;
    write_slot(&mut state[at..end], s);
}

// Stores the sequence and the length of a slot that goes on collecting, and nothing else.
pub fn put_progress(state: &mut [u8], sizes: Sizes, i: usize, p: Progress)
    requires { Kept sizes state.old × ProgressOk sizes.body p }
    ensures { Becomes sizes state.old state.new (with_slot i (progress p.seq p.len (slot_at i (stack_of sizes state.old))) (stack_of sizes state.old)) }
{
    if sizes.slots <= i {
        return;
    }
    let at = SLOTS_AT + SLOT_WIDTH * i;
    let end = at + SLOT_WIDTH;
    write_progress(&mut state[at..end], p);
}

// The sequence that a slot expects, and how much it holds.
pub fn progress_at(state: &[u8], sizes: Sizes, i: usize) -> Progress
    requires { Kept sizes state.now }
    ensures { (result ≡ progress_of (slot_at i (stack_of sizes state.now))) × ProgressOk sizes.body result }
{
    if sizes.slots <= i {
        return Progress { seq: 0, len: 0 };
    }
    let at = SLOTS_AT + SLOT_WIDTH * i;
    let end = at + SLOT_WIDTH;
    let w = &state[at..end];
    let seq = u8::get(w, 5);
    let len = u16::get(w, 6);
    Progress {
        seq,
        len: len as usize,
    }
}

// A slot's state and key as one number, in wire order.
pub fn word_at(state: &[u8], sizes: Sizes, i: usize) -> u32
    requires { Kept sizes state.now }
    ensures { result ≡ key_word (slot_at i (stack_of sizes state.now)) }
{
    if sizes.slots <= i {
        return 0;
    }
    let at = SLOTS_AT + SLOT_WIDTH * i;
    let end = at + SLOT_WIDTH;
    u32::get(&state[at..end], 0)
}

// A slot's state alone, as its number: the lowest byte of that word.
pub fn state_at(state: &[u8], sizes: Sizes, i: usize) -> u8
    requires { Kept sizes state.now }
    ensures { result ≡ state_no (slot_at i (stack_of sizes state.now)).state }
{
    (word_at(state, sizes, i) % 256) as u8
}

// The flow at place i, or none past the last.
pub fn flow_at(state: &[u8], sizes: Sizes, i: usize) -> Flow
    requires { Kept sizes state.now }
    ensures { (result ≡ flow_at i (stack_of sizes state.now)) × FlowOk result }
{
    if config::FLOWS <= i {
        return flows::no_flow();
    }
    flow_in(state, FLOWS_AT + FLOW_WIDTH * i)
}

// Stores the flow at place i; past the last place nothing is stored.
pub fn put_flow(state: &mut [u8], sizes: Sizes, i: usize, f: Flow)
    requires { Kept sizes state.old × FlowOk f }
    ensures { Becomes sizes state.old state.new (with_flow i f (stack_of sizes state.old)) }
{
    if config::FLOWS <= i {
        return;
    }
    let at = FLOWS_AT + FLOW_WIDTH * i;
    let end = at + FLOW_WIDTH;
    flows::write_flow(&mut state[at..end], f);
}

// Whether a place is used, its peer and its tag as one number.
pub fn flow_word_at(state: &[u8], sizes: Sizes, i: usize) -> u32
    requires { Kept sizes state.now }
    ensures { result ≡ flow_word (flow_at i (stack_of sizes state.now)) }
{
    if config::FLOWS <= i {
        return 0;
    }
    let at = FLOWS_AT + FLOW_WIDTH * i;
    let end = at + FLOW_WIDTH;
    u32::get(&state[at..end], 0)
}

// Writes zeros over the first `n` bytes, as far as there are any: a state that is all zeros is a fresh one.
pub fn clear(b: &mut [u8], n: usize)
    ensures { b.new ≡ lay 0 (replicate n 0) b.old }
{
    let n = n.min(b.len());
    b[..n].fill(0);
}
