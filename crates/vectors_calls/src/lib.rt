// A call by its number, as a stored list of calls has it: what is asked and what is answered, as numbers and bytes. It is a part of the program `vectors`.
// Every call on a stack goes through `performing::perform`, whose contract is the model that the theorems speak of; oracle/README.md has the list's form.
// Leans on `performing` for the calls.

#![tactic(auto)]

ghost use Rattle.std.specs.Prelude.{◌≤◌};
ghost use Rattle.state.specs.Stack.{Kept};
ghost use Rattle.board.specs.Board.{board};

use rows::narrow;

// Half a record: what is asked, or in the same form what is answered. It has the number of the call or of the answer, and how many numbers and bytes come with
// it; those lie beside it.
#[derive(Clone, Copy, PartialEq, Eq)]
pub struct Half {
    pub first: u8,
    pub words: usize,
    pub bytes: usize,
}

impl Half {
    // 0, with nothing beside it.
    pub const ZERO: Half = Half {
        first: 0,
        words: 0,
        bytes: 0,
    };
}

// Puts a row at the front of the numbers answered, as far as they go.
fn put_row(got: &mut [u64; 16], row: &[u64]) {
    let n = row.len().min(16);
    got[..n].copy_from_slice(&row[..n]);
}

// Puts bytes at the front of a buffer, and tells how many; none where there is no room.
fn put(to: &mut [u8], bytes: &[u8]) -> usize {
    let n = bytes.len();
    if to.len() < n {
        return 0;
    }
    to[..n].copy_from_slice(bytes);
    n
}

// ---- calls on a stack

// Makes a new stack in the same bytes; where it is refused, the old one stays.
fn renew(state: &mut [u8], w: &[u64; 16]) -> u8
    requires { Kept board state.old }
    ensures { Kept board state.new }
{
    performing::begin(state, narrow(w[0]), w[1] as usize, w[2])
}

// Puts the row in which a call answers, and tells how many numbers it has.
fn put_told(
    op: u8,
    two: &[u64; 2],
    message: &[u64; 10],
    f: &[u64; 13],
    got: &mut [u64; 16],
) -> usize {
    match op {
        5 => {
            put_row(got, f);
            13
        }
        8 | 9 | 10 | 11 => {
            put_row(got, two);
            2
        }
        12 => {
            put_row(got, message);
            10
        }
        _ => 0,
    }
}

// Performs one call, lent that pool.
fn call(
    op: u8,
    state: &mut [u8],
    pool: &mut [u8],
    args: &[u64; 10],
    packet: &[u8],
    list: &[u64],
    f: &mut [u64; 13],
    got: &mut [u64; 16],
) -> Half
    requires { Kept board state.old }
    ensures { Kept board state.new }
{
    let mut other = [0u8; 1];
    let mut two = [7777u64; 2];
    let mut message = [7777u64; 10];
    let first = performing::perform(
        op,
        state,
        pool,
        &mut other,
        args,
        packet,
        list,
        &mut two,
        &mut message,
        f,
    );
    let words = put_told(op, &two, &message, f, got);
    Half {
        first,
        words,
        bytes: 0,
    }
}

// ---- the pools: two side by side, which keep their bytes from call to call

const POOL: u64 = 4200;

#[derive(Clone, Copy, Debug, PartialEq, Eq)]
struct Span {
    from: usize,
    end: usize,
}

impl Span {
    const NONE: Span = Span { from: 0, end: 0 };
}

// Where the n bytes from byte `at` of a pool lie; none where they do not lie within the pools.
fn place(pool: u64, at: u64, n: u64, room: usize) -> Span
    ensures { (result.from ≤ result.end) × (result.end ≤ room) }
{
    if POOL < at || POOL < n {
        return Span::NONE;
    }
    let from = (pool % 2 * POOL + at) as usize;
    let end = from + n as usize;
    if room < end {
        return Span::NONE;
    }
    Span { from, end }
}

// Copies out bytes of a pool, as they are.
fn take(pools: &[u8], pool: u64, at: u64, n: u64, body: &mut [u8]) -> usize {
    let Span { from, end } = place(pool, at, n, pools.len());
    put(body, &pools[from..end])
}

// A receive or a fetch: its first two numbers say which pool it is lent and how much of it; then come the call's own numbers.
fn pooled(
    op: u8,
    state: &mut [u8],
    pools: &mut [u8],
    w: &[u64; 16],
    packet: &[u8],
    f: &mut [u64; 13],
    got: &mut [u64; 16],
) -> Half
    requires { Kept board state.old }
    ensures { Kept board state.new }
{
    let args = [w[2], w[3], 0, 0, 0, 0, 0, 0, 0, 0];
    let none = [0u64; 1];
    let Span { from, end } = place(w[0], 0, w[1], pools.len());
    call(
        op,
        state,
        &mut pools[from..end],
        &args,
        packet,
        &none,
        f,
        got,
    )
}

// A call that is lent no pool.
fn plain(
    op: u8,
    state: &mut [u8],
    w: &[u64; 16],
    packet: &[u8],
    list: &[u64],
    f: &mut [u64; 13],
    got: &mut [u64; 16],
) -> Half
    requires { Kept board state.old }
    ensures { Kept board state.new }
{
    let args = [w[0], w[1], w[2], w[3], w[4], w[5], w[6], w[7], w[8], w[9]];
    let mut pool = [0u8; 1];
    call(op, state, &mut pool, &args, packet, list, f, got)
}

// ---- sending: the fragmenter's row and the payload stay from call to call

// Takes one step into a buffer of `room` bytes, where the payload and the buffer are that long.
fn step(
    f: &mut [u64; 13],
    payload: &[u8],
    size: usize,
    room: usize,
    got: &mut [u64; 16],
    body: &mut [u8],
) -> Option<Half> {
    let payload = payload.get(..size)?;
    let packet = body.get_mut(..room)?;
    let mut len = 7777;
    let first = performing::cut(f, payload, packet, &mut len);
    put_row(got, f);
    got[13] = len;
    Some(Half {
        first,
        words: 14,
        bytes: room,
    })
}

// ---- the list

// Performs one call, whatever its number; there is no answer where a step has too little to work on.
pub fn perform(
    op: u8,
    state: &mut [u8],
    w: &[u64; 16],
    list: &[u64],
    packet: &[u8],
    pools: &mut [u8],
    f: &mut [u64; 13],
    payload: &mut [u8],
    size: &mut usize,
    got: &mut [u64; 16],
    body: &mut [u8],
) -> Option<Half>
    requires { Kept board state.old }
    ensures { Kept board state.new }
{
    match op {
        1 => {
            let first = renew(state, w);
            Some(Half {
                first,
                ..Half::ZERO
            })
        }
        6 => {
            *size = put(payload, packet);
            Some(Half::ZERO)
        }
        7 => step(f, payload, *size, w[0] as usize, got, body),
        9 => Some(pooled(op, state, pools, w, packet, f, got)),
        12 => {
            let told = pooled(op, state, pools, w, packet, f, got);
            if told.first != 0 {
                return Some(told);
            }
            let bytes = take(pools, w[0], got[8], got[9], body);
            Some(Half { bytes, ..told })
        }
        18 => {
            let bytes = take(pools, w[0], w[1], w[2], body);
            Some(Half {
                bytes,
                ..Half::ZERO
            })
        }
        _ => Some(plain(op, state, w, packet, list, f, got)),
    }
}
