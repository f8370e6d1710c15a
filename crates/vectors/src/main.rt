// Replays a stored list of calls on the exported calls, and compares each answer with the one that stands beside it: the original's, or where docs/RULES.md
// adds a rule, that rule's. It writes how many calls there were, and the first that differs. The list is the file `stdin`; oracle/README.md says how it is made.
// Leans on `vectors_calls` for a call by its number, on `octets` for the records.

#![tactic(auto)]

ghost use Rattle.std.specs.Prelude.{◌≤◌, length, IfSome};
ghost use Rattle.state.specs.Stack.{Kept};
ghost use Rattle.board.specs.Board.{board};

use octets::Uint;
use vectors_calls::Half;

// ---- reading

// Fills a buffer with the next bytes of the list, where it has them all.
fn read(b: &mut [u8]) -> Option<()> {
    let n = b.len();
    (io::read_full(0, b) == n).then_some(())
}

// Reads numbers of eight bytes, where the list has them all.
fn read_words(words: &mut [u64]) -> Option<()> {
    let mut eight = [0u8; 8];
    for word in words.iter_mut() {
        read(&mut eight)?;
        *word = u64::get(&eight, 0);
    }
    Some(())
}

// Reads the next half of a record; there is none where the list ends before, or has more than there is room for.
fn read_half(w: &mut [u64], b: &mut [u8]) -> Option<Half>
    ensures { IfSome result (λ half. (half.words ≤ length w.new) × (half.bytes ≤ length b.new)) }
{
    let mut two = [0u8; 2];
    read(&mut two)?;
    let first = u8::get(&two, 0);
    let words = u8::get(&two, 1) as usize;
    if w.len() < words {
        return None;
    }
    read_words(&mut w[..words])?;
    read(&mut two)?;
    let bytes = u16::get(&two, 0) as usize;
    if b.len() < bytes {
        return None;
    }
    read(&mut b[..bytes])?;
    Some(Half {
        first,
        words,
        bytes,
    })
}

// ---- the list

// How a turn of the list ends: no record is left, or the answer is the one that stands in the list, or it is another.
#[derive(Clone, Copy, Debug, PartialEq, Eq)]
enum Outcome {
    End,
    Same,
    Differs,
}

// Performs the next record of the list. Rows and buffers are filled alike before, so they are compared whole; where there is no answer, or the list has none,
// that counts as an answer of 0 with nothing beside it.
fn turn(
    state: &mut [u8],
    pools: &mut [u8; 8400],
    f: &mut [u64; 13],
    payload: &mut [u8; 2048],
    size: &mut usize,
) -> Outcome
    requires { Kept board state.old }
    ensures { Kept board state.new }
{
    let mut w = [0u64; 16];
    let mut b = [0u8; 2048];
    let Some(asked) = read_half(&mut w, &mut b) else {
        return Outcome::End;
    };
    let mut got = [0u64; 16];
    let mut body = [165u8; 2048];
    let answer = vectors_calls::perform(
        asked.first,
        state,
        &w,
        &w[..asked.words],
        &b[..asked.bytes],
        pools,
        f,
        payload,
        size,
        &mut got,
        &mut body,
    );
    let mut wanted = [0u64; 16];
    let mut bytes_wanted = [165u8; 2048];
    let told = read_half(&mut wanted, &mut bytes_wanted);
    let same = answer.unwrap_or(Half::ZERO) == told.unwrap_or(Half::ZERO);
    if same && got == wanted && body == bytes_wanted {
        Outcome::Same
    } else {
        Outcome::Differs
    }
}

fn report(calls: u64, text: &[u8]) {
    io::print_decimal(1, calls);
    io::write_all(1, text);
}

const MOST_CALLS: u64 = 1000000;

// Replays the whole list, on a stack of its own.
fn replay(state: &mut [u8]) {
    if board::hyphaloom_new(state, 8, 64, 0) != 0 {
        return;
    }
    let mut pools = [0u8; 8400];
    let mut payload = [0u8; 2048];
    let mut f = [0u64; 13];
    let mut size = 0;
    for calls in 0..MOST_CALLS {
        match turn(state, &mut pools, &mut f, &mut payload, &mut size) {
            Outcome::End => {
                report(calls, b" calls, no difference\n");
                return;
            }
            Outcome::Differs => {
                report(calls + 1, b" is the first call that differs\n");
                return;
            }
            Outcome::Same => {}
        }
    }
    report(MOST_CALLS, b" calls, no difference\n");
}

fn main() {
    let mut state = [0u8; 2248];
    replay(&mut state);
}
