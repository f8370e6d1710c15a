// The parts of the program `figures`: a fresh stack, and each call of a figure, run on the stack's own calls and told in words, after a text that says what is asked.
// A message is cut in place (`cut`), and a body is lent by the message that borrows it from the pool (`messages::lend_body`). Definitions: specs/Figure.antt.
// Leans on `estack` for the calls, on `fragment` and `messages` for packets and bodies, on `board` for the sizes.

#![tactic(auto)]

ghost use Rattle.std.specs.Prelude.{◌≡◌, ◌≤◌, length};
ghost use Rattle.octets.specs.Bytes.{over};
ghost use Rattle.fragment.specs.Step.{step_of};
ghost use Rattle.state.specs.Stack.{Kept, Becomes, stack_of};
ghost use Rattle.sending.specs.Sends.{start_send_of};
ghost use Rattle.updating.specs.Update.{update_of};
ghost use Rattle.board.specs.Board.{board};
ghost use Rattle.figures_parts.specs.Figure.{bay_stack, asked};

use estack::{Message, ReceiveHandle, Send};
use fragment::{Fragmented, Fragmenter, SendOutput};
use mctp::{Eid, Error, MsgIC, MsgType};
use state::Sizes;
use updating::Next;

// ---- writing

fn say(text: &[u8]) {
    io::write_all(1, text);
}

// Writes a space and the number.
fn number(n: u64) {
    say(b" ");
    io::print_decimal(1, n);
}

// Writes a space and the byte's two digits.
fn byte(x: u8) {
    say(b" ");
    io::print_hex(1, u64::from(x), 2);
}

// Writes the first n bytes, or as many as there are.
fn bytes(b: &[u8], n: usize) {
    for x in b.iter().take(n) {
        byte(*x);
    }
}

fn name(err: Error) {
    match err {
        Error::InvalidInput => say(b" InvalidInput"),
        Error::NoSpace => say(b" NoSpace"),
        Error::BadArgument => say(b" BadArgument"),
        Error::TagUnavailable => say(b" TagUnavailable"),
        Error::Unreachable => say(b" Unreachable"),
        Error::PoolShort => say(b" PoolShort"),
    }
}

// Writes a refusal's number and its name.
fn refusal(err: Error) {
    say(b" refused");
    number(u64::from(err.number()));
    name(err);
}

// ---- the stack

// A fresh stack in a buffer that has room for it: own EID 8, clock 0.
pub fn fresh_stack(state: &mut [u8], mtu: usize)
    requires { (2248 ≤ length state.old) × (5 ≤ mtu) }
    ensures { Becomes board state.old state.new (bay_stack mtu) }
{
    let _ = estack::new(state, Sizes::BOARD, Eid(8), mtu, 0);
}

// ---- sending

// Starts a message of type 1 under a fresh tag.
fn start(state: &mut [u8], peer: u8, mtu: Option<usize>) -> Result<Fragmenter, Error>
    requires { Kept board state.old }
    ensures { (result ≡ (start_send_of (asked peer mtu) (stack_of board state.old)).said) × Becomes board state.old state.new (start_send_of (asked peer mtu) (stack_of board state.old)).stack }
{
    let send = Send {
        dest: Eid(peer),
        typ: MsgType(1),
        tag: None,
        expires: true,
        ic: MsgIC(false),
        mtu,
        cookie: None,
    };
    estack::start_send(state, Sizes::BOARD, send)
}

// One step in place: the fragmenter, a local here, is lent for it and changed.
fn cut(mut f: Fragmenter, payload: &[u8], out: &mut [u8]) -> Fragmented
    ensures answer { result ≡ (step_of f payload.now (length out.old)).result }
    ensures bytes { out.new ≡ over 0 (step_of f payload.now (length out.old)).bytes out.old }
{
    let output = f.fragment(payload, out);
    Fragmented { next: f, output }
}

// Shows a packet's bytes, or why there is none.
fn packet(output: SendOutput, out: &[u8]) {
    match output {
        SendOutput::Packet(n) => bytes(out, n),
        SendOutput::Complete { .. } => say(b" complete"),
        SendOutput::Error { err, .. } => refusal(err),
    }
}

// Shows the packets of a message that takes at most two.
fn cut_in_two(f: Fragmenter, payload: &[u8]) {
    let mut out = [0u8; 255];
    let first = cut(f, payload, &mut out);
    packet(first.output, &out);
    if first.next.done {
        return;
    }
    say(b",");
    let second = cut(first.next, payload, &mut out);
    packet(second.output, &out);
}

// Sends to that peer, and shows the packets.
pub fn packets(state: &mut [u8], text: &[u8], peer: u8, mtu: Option<usize>, payload: &[u8])
    requires { Kept board state.old }
    ensures { Becomes board state.old state.new (start_send_of (asked peer mtu) (stack_of board state.old)).stack }
{
    say(text);
    let started = start(state, peer, mtu);
    match started {
        Ok(f) => cut_in_two(f, payload),
        Err(err) => refusal(err),
    }
}

// Shows that a packet is taken, or why there is none.
fn taken(output: SendOutput) {
    match output {
        SendOutput::Packet(_) => say(b" taken"),
        SendOutput::Complete { .. } => say(b" complete"),
        SendOutput::Error { err, .. } => refusal(err),
    }
}

// Takes the first step with a buffer of that room, at most 255.
fn cut_first(f: Fragmenter, payload: &[u8], room: usize) {
    let mut out = [0u8; 255];
    if out.len() < room {
        return;
    }
    let first = cut(f, payload, &mut out[..room]);
    taken(first.output);
}

// Sends to that peer, and shows whether the first packet is taken in a buffer of that room.
pub fn first_packet(
    state: &mut [u8],
    text: &[u8],
    peer: u8,
    mtu: Option<usize>,
    payload: &[u8],
    room: usize,
)
    requires { Kept board state.old }
    ensures { Becomes board state.old state.new (start_send_of (asked peer mtu) (stack_of board state.old)).stack }
{
    say(text);
    let started = start(state, peer, mtu);
    match started {
        Ok(f) => cut_first(f, payload, room),
        Err(err) => refusal(err),
    }
}

fn tag_of(f: Fragmenter) {
    number(u64::from(f.tag().tag().0));
}

fn show_tag(state: &mut [u8], peer: u8)
    requires { Kept board state.old }
    ensures { Becomes board state.old state.new (start_send_of (asked peer None) (stack_of board state.old)).stack }
{
    let started = start(state, peer, None);
    match started {
        Ok(f) => tag_of(f),
        Err(err) => refusal(err),
    }
}

// Starts a send to that peer, and shows its tag.
pub fn fresh_tag(state: &mut [u8], text: &[u8], peer: u8)
    requires { Kept board state.old }
    ensures { Becomes board state.old state.new (start_send_of (asked peer None) (stack_of board state.old)).stack }
{
    say(text);
    show_tag(state, peer);
}

// Starts so many sends to that peer, and shows their tags.
pub fn fresh_tags(state: &mut [u8], text: &[u8], peer: u8, count: u8)
    requires { Kept board state.old }
    ensures { Kept board state.new }
{
    say(text);
    for _ in 0..count {
        show_tag(state, peer);
    }
}

// ---- receiving

// What is shown of a message that is handed out.
#[derive(Clone, Copy, Debug, PartialEq, Eq)]
pub enum Show {
    Taken,
    Slot,
    Size,
    Whole,
}

// Shows a whole message; its body is what the message lends of the pool.
fn whole(pool: &[u8], m: Message) {
    say(b" message from");
    number(u64::from(m.key.source.0));
    say(b", type");
    number(u64::from(m.typ.0));
    say(b", body");
    let body = messages::lend_body(pool, m);
    bytes(body, body.len());
}

fn size(pool: &[u8], m: Message) {
    let body = messages::lend_body(pool, m);
    say(b" message of");
    number(body.len() as u64);
    say(b" bytes");
}

fn tell(pool: &[u8], m: Message, handle: ReceiveHandle, show: Show) {
    match show {
        Show::Taken => say(b" taken"),
        Show::Slot => number(handle.index as u64),
        Show::Size => size(pool, m),
        Show::Whole => whole(pool, m),
    }
}

// Fetches the message under a handle, and shows it.
fn fetch(state: &[u8], pool: &[u8], handle: ReceiveHandle, show: Show)
    requires { Kept board state.now }
{
    let fetched = estack::fetch_message(state, Sizes::BOARD, pool, handle);
    match fetched {
        Ok(m) => tell(pool, m, handle, show),
        Err(err) => refusal(err),
    }
}

// Fetches and finishes a message that is handed out.
fn settle(state: &mut [u8], pool: &[u8], handle: ReceiveHandle, show: Show)
    requires { Kept board state.old }
    ensures { Kept board state.new }
{
    fetch(state, pool, handle, show);
    let _ = estack::finished_receive(state, Sizes::BOARD, handle);
}

// Receives a packet, and shows what it gives: more to come, a message, which is then finished, or a refusal.
pub fn receive(state: &mut [u8], pool: &mut [u8], text: &[u8], packet: &[u8], show: Show)
    requires { Kept board state.old }
    ensures { Kept board state.new }
{
    say(text);
    let received = estack::receive(state, Sizes::BOARD, pool, packet);
    match received {
        Ok(None) => say(b" more"),
        Ok(Some(handle)) => settle(state, pool, handle, show),
        Err(err) => refusal(err),
    }
}

// ---- the clock

fn planned(millis: u64, expired: bool) {
    number(millis);
    if expired {
        say(b" true");
        return;
    }
    say(b" false");
}

// Takes the clock, and shows how many milliseconds may pass until the next update, and whether something expired.
pub fn update(state: &mut [u8], text: &[u8], clock: u64)
    requires { Kept board state.old }
    ensures { Becomes board state.old state.new (update_of clock (stack_of board state.old)).stack }
{
    say(text);
    let updated = estack::update(state, Sizes::BOARD, clock);
    match updated {
        Ok(Next { millis, expired }) => planned(millis, expired),
        Err(err) => refusal(err),
    }
}
