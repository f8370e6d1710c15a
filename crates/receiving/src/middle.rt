// The short way of receive: a middle packet is neither first nor last, in turn, with room (docs/RULES.md 47 to 49).
// Of its slot the sequence and the length alone are read and stored, and its bytes go to the pool behind the body.
// It makes what the long way makes: the contract is `land` of specs/Receive.antt.
ghost use Rattle.std.specs.Prelude.{◌≡◌, ◌-◌, ◌*◌, ◌≤◌, ◌<◌, length, true, Ok};
ghost use Rattle.state.specs.Slot.{progress_of};
ghost use Rattle.state.specs.Stack.{Kept, stack_of, slot_at};
ghost use Rattle.receiving.specs.Receive.{is_middle, land, Makes};

use mctp::{Error, Header};
use slot::ReceiveHandle;
use state::{Progress, Sizes};

// A middle packet of n bytes: neither first nor last, in turn, with room.
#[tactic(auto, unfolding(octets::specs::Pick::pick, crate::specs::Receive::is_middle))]
pub(crate) fn is_middle(h: Header, p: Progress, n: usize, body: usize) -> bool
    requires { p.len ≤ body }
    ensures { result ≡ is_middle h p n body }
{
    !h.som && !h.eom && h.seq == p.seq && n <= body - p.len
}

// A middle packet: of its slot the sequence and the length alone change.
pub(crate) fn append_middle(
    state: &mut [u8],
    sizes: Sizes,
    pool: &mut [u8],
    packet: &[u8],
    h: Header,
    i: usize,
    p: Progress,
) -> Result<Option<ReceiveHandle>, Error>
    requires { Kept sizes state.old × (4 ≤ length packet.now) × (sizes.body * sizes.slots ≤ length pool.old) × (i < sizes.slots) × (p ≡ progress_of (slot_at i (stack_of sizes state.old))) × (p.len ≤ sizes.body) × (is_middle h p (length packet.now - 4) sizes.body ≡ true) }
    ensures { Makes sizes (land sizes.body i (stack_of sizes state.old) h packet.now (Ok (slot_at i (stack_of sizes state.old)))) result state.old state.new pool.old pool.new }
{
    let n = packet.len() - 4;
    state::tick(state, sizes);
    let next = Progress {
        seq: (h.seq % 4 + 1) % 4,
        len: p.len + n,
    };
    state::put_progress(state, sizes, i, next);
    let at = sizes.body * i + p.len;
    copying::copy(&mut pool[at..], &packet[4..]);
    Ok(None)
}
