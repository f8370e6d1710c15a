// Any call by its number and its arguments, with an exact contract: state and pool afterwards are those of `steps`, of which the theorems speak.
// So the prover checks that each exported call does what `step` says of it. Definitions: specs/Perform.antt, specs/Cuts.antt.
// Leans on `board` for the calls, on `rows` for numbers read, on `mctp` for a yes or no as a number; its definitions lean on `promises`.

#![tactic(auto)]

ghost use Rattle.std.specs.Prelude.{ℕ, ◌≡◌, List, length};
ghost use Rattle.state.specs.Stack.{Kept};
ghost use Rattle.board.specs.Board.{board};
ghost use Rattle.performing.specs.Cuts.{Cuts};
ghost use Rattle.performing.specs.Perform.{Lent, lent, Begins, Performs, own_calls, look_calls, handle_calls, flow_calls, small_calls, calls_of};

use mctp::bit_of;
use rows::narrow;

// Calls on the own EID.
fn own(op: u8, state: &mut [u8], args: &[u64; 10], bytes: &[u8]) -> u8
    requires { Kept board state.old }
    ensures { (l : Lent) → Performs (own_calls op args.now bytes.now) state.old state.new l l result }
{
    if op == 2 {
        return board::hyphaloom_set_eid(state, narrow(args[0]));
    }
    if op == 3 {
        return board::hyphaloom_eid(state);
    }
    if op == 4 {
        return bit_of(board::hyphaloom_is_local_dest(state, bytes), 1);
    }
    1
}

// Calls whose answer goes into a row of two numbers.
fn look(op: u8, state: &mut [u8], args: &[u64; 10], cookies: &[u64], handle: &mut [u64; 2]) -> u8
    requires { Kept board state.old }
    ensures { (p o m f : List ℕ) → Performs (look_calls op args.now cookies.now) state.old state.new (lent p o handle.old m f) (lent p o handle.new m f) result }
{
    if op == 8 {
        return board::hyphaloom_update(state, args[0], handle);
    }
    if op == 10 {
        let source = narrow(args[0]);
        let owner = narrow(args[1]);
        let tag = narrow(args[2]);
        board::hyphaloom_get_deferred(state, source, owner, tag, handle);
        return 0;
    }
    if op == 11 {
        board::hyphaloom_get_deferred_bycookie(state, cookies, handle);
        return 0;
    }
    1
}

// Calls on a handle.
fn held(op: u8, state: &mut [u8], args: &[u64; 10]) -> u8
    requires { Kept board state.old }
    ensures { (l : Lent) → Performs (handle_calls op args.now) state.old state.new l l result }
{
    let index = args[0] as usize;
    let issue = args[1];
    if op == 13 {
        return board::hyphaloom_finished_receive(state, index, issue);
    }
    if op == 14 {
        return board::hyphaloom_return_handle(state, index, issue);
    }
    if op == 15 {
        return board::hyphaloom_set_cookie(state, index, issue, narrow(args[2]), args[3]);
    }
    1
}

// Calls on flows.
fn flow(op: u8, state: &mut [u8], args: &[u64; 10]) -> u8
    requires { Kept board state.old }
    ensures { (l : Lent) → Performs (flow_calls op args.now) state.old state.new l l result }
{
    let peer = narrow(args[0]);
    if op == 16 {
        return board::hyphaloom_cancel_flow(state, peer, narrow(args[1]));
    }
    if op == 17 {
        return board::hyphaloom_free_tags(state, peer);
    }
    1
}

// Calls that are lent no buffer but the handle's row.
fn small(
    op: u8,
    state: &mut [u8],
    args: &[u64; 10],
    bytes: &[u8],
    cookies: &[u64],
    handle: &mut [u64; 2],
) -> u8
    requires { Kept board state.old }
    ensures { (p o m f : List ℕ) → Performs (small_calls op args.now bytes.now cookies.now) state.old state.new (lent p o handle.old m f) (lent p o handle.new m f) result }
{
    if op < 5 {
        return own(op, state, args, bytes);
    }
    if op < 12 {
        return look(op, state, args, cookies, handle);
    }
    if op < 16 {
        return held(op, state, args);
    }
    flow(op, state, args)
}

// A new stack, from which every run of calls may start.
pub fn begin(state: &mut [u8], own: u8, mtu: usize, clock: u64) -> u8
    ensures { Begins own mtu clock state.old state.new result }
{
    board::hyphaloom_new(state, own, mtu, clock)
}

// One step of a fragmenter's row.
pub fn cut(fragmenter: &mut [u64; 13], payload: &[u8], out: &mut [u8], len: &mut u64) -> u8
    ensures { Cuts fragmenter.old payload.now (record { lent = out.old; old = len.old; left = out.new; len = len.new; row = fragmenter.new; said = result }) }
{
    board::hyphaloom_fragment(fragmenter, payload, out, len)
}

// Any call.
pub fn perform(
    op: u8,
    state: &mut [u8],
    pool: &mut [u8],
    other: &mut [u8],
    args: &[u64; 10],
    bytes: &[u8],
    cookies: &[u64],
    handle: &mut [u64; 2],
    message: &mut [u64; 10],
    fragmenter: &mut [u64; 13],
) -> u8
    requires { Kept board state.old }
    ensures { Performs (calls_of op args.now bytes.now cookies.now (length pool.old) (length other.old)) state.old state.new (lent pool.old other.old handle.old message.old fragmenter.old) (lent pool.new other.new handle.new message.new fragmenter.new) result }
{
    if op == 9 {
        return board::hyphaloom_receive(state, pool, bytes, handle);
    }
    if op == 19 {
        return board::hyphaloom_receive(state, other, bytes, handle);
    }
    if op == 12 {
        return board::hyphaloom_fetch_message(state, pool, args[0] as usize, args[1], message);
    }
    if op == 20 {
        return board::hyphaloom_fetch_message(state, other, args[0] as usize, args[1], message);
    }
    if op == 5 {
        return board::hyphaloom_start_send(state, args, fragmenter);
    }
    small(op, state, args, bytes, cookies, handle)
}
