// Runs the figures of docs/RULES.md, section 11, but for its last row, and four headers by its rules 10 and 40, on the compiled code, and writes a line for each.
// What it must write stands in the file `stdout`, written from that section. Each figure has a fresh stack; the pool is lent to every receive and fetch.
// Each text says what is asked, and begins with what parts it from the one before: a new line, or `; ` or `, ` within a line.
// Leans on `figures_parts` for a fresh stack (own EID 8, clock 0) and for each call, told in words after its text.

#![tactic(auto)]

ghost use Rattle.std.specs.Prelude.{◌≤◌, length};

use figures_parts::{
    Show, first_packet, fresh_stack, fresh_tag, fresh_tags, packets, receive, update,
};

// The stack's own EID.
const OWN: u8 = 8;

// The endpoint that it talks with.
const PEER: u8 = 9;

// The stack's MTU where a figure names none.
const MTU: usize = 255;

// A packet buffer with room for any packet.
const ROOM: usize = 255;

// A packet that comes in begins with version, destination, source, flags and type.
const VERSION: u8 = 1;

// The flags of a packet that is a whole message: SOM, EOM, sequence 0, TO, tag 1.
const WHOLE: u8 = 0xc9;

// The flags of one that opens a longer message: the same without EOM.
const OPENING: u8 = 0x89;

const TYPE: u8 = 1;

// ---- sending

fn packets_of(state: &mut [u8], text: &[u8], mtu: Option<usize>, payload: &[u8])
    requires { 2248 ≤ length state.old }
{
    fresh_stack(state, MTU);
    packets(state, text, PEER, mtu, payload);
}

fn sends(state: &mut [u8])
    requires { 2248 ≤ length state.old }
{
    packets_of(state, b"send aa bb cc:", None, b"\xaa\xbb\xcc");
    packets_of(state, b"\nwith MTU 6:", Some(6), b"\xaa\xbb\xcc");
    packets_of(state, b"\nempty payload:", None, b"");
}

fn with_mtu(state: &mut [u8], text: &[u8], mtu: usize)
    requires { 2248 ≤ length state.old }
{
    fresh_stack(state, 300);
    first_packet(state, text, PEER, Some(mtu), b"\xaa\xbb\xcc", ROOM);
}

fn mtus(state: &mut [u8])
    requires { 2248 ≤ length state.old }
{
    with_mtu(state, b"\nstack MTU 300, send MTU 4:", 4);
    with_mtu(state, b"; 5:", 5);
    with_mtu(state, b"; 255:", 255);
    with_mtu(state, b"; 256:", 256);
}

fn with_buffer(state: &mut [u8], text: &[u8], room: usize)
    requires { 2248 ≤ length state.old }
{
    fresh_stack(state, MTU);
    first_packet(state, text, PEER, None, b"\xaa\xbb\xcc", room);
}

fn buffers(state: &mut [u8])
    requires { 2248 ≤ length state.old }
{
    with_buffer(state, b"\nbuffer 4:", 4);
    with_buffer(state, b"; 5:", 5);
}

fn tags(state: &mut [u8])
    requires { 2248 ≤ length state.old }
{
    fresh_stack(state, MTU);
    fresh_tags(state, b"\ntags to 9:", PEER, 8);
    fresh_tag(state, b", ninth:", PEER);
    fresh_tag(state, b", to 10:", 10);
}

// ---- receiving

// A whole message of zeros in one packet, with a body one byte too long: 5 bytes and 1,033.
fn zeros() -> [u8; 1038] {
    let mut packet = [0u8; 1038];
    packet[0] = VERSION;
    packet[1] = OWN;
    packet[2] = PEER;
    packet[3] = WHOLE;
    packet[4] = TYPE;
    packet
}

fn longest_body(state: &mut [u8], pool: &mut [u8])
    requires { 2248 ≤ length state.old }
{
    let packet = zeros();
    fresh_stack(state, MTU);
    receive(state, pool, b"\nbody 1032:", &packet[0..1037], Show::Size);
}

fn longer_body(state: &mut [u8], pool: &mut [u8])
    requires { 2248 ≤ length state.old }
{
    let packet = zeros();
    let next = [VERSION, OWN, 10, WHOLE, TYPE];
    fresh_stack(state, MTU);
    receive(state, pool, b"; 1033:", &packet, Show::Size);
    receive(
        state,
        pool,
        b", the next message from 10 in slot",
        &next,
        Show::Slot,
    );
}

fn one_byte(state: &mut [u8], pool: &mut [u8])
    requires { 2248 ≤ length state.old }
{
    let packet = [VERSION, OWN, PEER, WHOLE, TYPE, 0x2a];
    fresh_stack(state, MTU);
    receive(
        state,
        pool,
        b"\npacket 01 08 09 c9 01 2a:",
        &packet,
        Show::Whole,
    );
}

fn with_header(state: &mut [u8], pool: &mut [u8], text: &[u8], version: u8, dest: u8, source: u8)
    requires { 2248 ≤ length state.old }
{
    let packet = [version, dest, source, WHOLE, TYPE, 0x2a];
    fresh_stack(state, MTU);
    receive(state, pool, text, &packet, Show::Taken);
}

fn bad_headers(state: &mut [u8], pool: &mut [u8])
    requires { 2248 ≤ length state.old }
{
    with_header(state, pool, b"\nversion 2:", 2, OWN, PEER);
    with_header(state, pool, b"; source 255:", VERSION, OWN, 255);
}

fn destinations(state: &mut [u8], pool: &mut [u8])
    requires { 2248 ≤ length state.old }
{
    with_header(state, pool, b"; destination 7:", VERSION, 7, PEER);
    with_header(state, pool, b"; destination 0:", VERSION, 0, PEER);
}

// ---- the clock

fn collecting_expires(state: &mut [u8], pool: &mut [u8])
    requires { 2248 ≤ length state.old }
{
    let packet = [VERSION, OWN, PEER, OPENING, TYPE, 0x2a];
    fresh_stack(state, MTU);
    receive(state, pool, b"\nSOM at 0:", &packet, Show::Whole);
    update(state, b", update 6000:", 6000);
    update(state, b"; 6001:", 6001);
}

fn idle(state: &mut [u8])
    requires { 2248 ≤ length state.old }
{
    fresh_stack(state, MTU);
    update(state, b"\nidle, update 1000:", 1000);
    update(state, b"; 1040:", 1040);
}

// ---- all of them

fn limits(state: &mut [u8])
    requires { 2248 ≤ length state.old }
{
    mtus(state);
    buffers(state);
    tags(state);
}

fn bodies(state: &mut [u8], pool: &mut [u8])
    requires { 2248 ≤ length state.old }
{
    longest_body(state, pool);
    longer_body(state, pool);
}

fn times(state: &mut [u8], pool: &mut [u8])
    requires { 2248 ≤ length state.old }
{
    collecting_expires(state, pool);
    idle(state);
}

fn headers(state: &mut [u8], pool: &mut [u8])
    requires { 2248 ≤ length state.old }
{
    one_byte(state, pool);
    bad_headers(state, pool);
    destinations(state, pool);
}

fn main() {
    let mut state = [0u8; 2248];
    let mut pool = [0u8; 4128];
    sends(&mut state);
    limits(&mut state);
    bodies(&mut state, &mut pool);
    times(&mut state, &mut pool);
    headers(&mut state, &mut pool);
    io::write_all(1, b"\n");
}
