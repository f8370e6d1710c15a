// The fragmenter: one message cut into packets, one step a packet, after the Rust's src/fragment.rs.
// Definitions: specs/Step.antt; what DSP0236 asks of the packets stands apart from the step, in specs/Cutting.antt.
// Leans on `mctp` for the header, on `copying` for the copy and on `octets` for numbers.

#![tactic(auto)]

ghost use Rattle.std.specs.Prelude.{◌≡◌, ◌++◌, ◌∷◌, ◌+◌, ◌≤◌, ◌<◌, ◌^◌, length};
ghost use Rattle.octets.specs.Bytes.{over, part};
ghost use Rattle.mctp.specs.Header.{header_bytes, lead};
ghost use Rattle.fragment.specs.Step.{new_of, advanced_by, header_for, Writable, emit_of, plan_of, next_by, output_by, written_by, step_of};

use mctp::{AppCookie, Eid, Error, Header, Key, MsgIC, MsgType, Tag};
use octets::Uint;

#[derive(Clone, Copy, Debug, PartialEq, Eq)]
pub struct Fragmenter {
    pub src: Eid,
    pub dest: Eid,
    pub typ: MsgType,
    pub tag: Tag,
    pub ic: MsgIC,
    pub seq: u8,
    pub mtu: usize,
    pub first: bool,
    pub done: bool,
    pub cookie: Option<AppCookie>,
    // how many bytes of the payload have gone out
    pub payload_used: usize,
}

// What a step answers: a packet of so many bytes is in the buffer, all is sent, or a refusal.
#[derive(Clone, Copy, Debug, PartialEq, Eq)]
pub enum SendOutput {
    Packet(usize),
    Complete {
        tag: Tag,
        cookie: Option<AppCookie>,
    },
    Error {
        err: Error,
        cookie: Option<AppCookie>,
    },
}

#[derive(Clone, Copy, Debug, PartialEq, Eq)]
pub struct Fragmented {
    pub next: Fragmenter,
    pub output: SendOutput,
}

// A packet cut off the payload, before it is written.
#[derive(Clone, Copy, Debug, PartialEq, Eq)]
pub struct Cut {
    // the fragmenter after it
    pub next: Fragmenter,
    pub header: Header,
    // the type byte, which a first packet has after its header
    pub kind: u8,
    // where in the payload the body starts, and its length
    pub from: usize,
    pub len: usize,
    // the packet's length
    pub total: usize,
}

// What a step is going to do: write nothing and give this answer, or write this packet.
#[derive(Clone, Copy, Debug, PartialEq, Eq)]
pub enum Plan {
    Still(SendOutput),
    Emits(Cut),
}

// Writes the first packet: header, type byte, and n bytes of the payload straight into the buffer.
fn write_first(out: &mut [u8], h: Header, kind: u8, payload: &[u8], used: usize, n: usize)
    requires { (5 + n ≤ length out.old) × (used + n ≤ length payload.now) }
    ensures { out.new ≡ over 0 (header_bytes h ++ (kind ∷ part used n payload.now)) out.old }
{
    u32::put(&mut out[0..4], 0, mctp::encode_header(h));
    out[4] = kind;
    let end = used + n;
    copying::copy(&mut out[5..], &payload[used..end]);
}

// Writes a later packet: header, and n bytes of the payload straight into the buffer.
fn write_later(out: &mut [u8], h: Header, payload: &[u8], used: usize, n: usize)
    requires { (4 + n ≤ length out.old) × (used + n ≤ length payload.now) }
    ensures { out.new ≡ over 0 (header_bytes h ++ part used n payload.now) out.old }
{
    u32::put(&mut out[0..4], 0, mctp::encode_header(h));
    let end = used + n;
    copying::copy(&mut out[4..], &payload[used..end]);
}

// Writes a plan's packet over the front of the buffer.
#[tactic(auto, unfolding(octets::specs::Bytes::over, crate::specs::Step::written_by))]
fn write_plan(plan: Plan, payload: &[u8], out: &mut [u8])
    requires { Writable plan (length payload.now) (length out.old) }
    ensures { out.new ≡ over 0 (written_by plan payload.now) out.old }
{
    let Plan::Emits(c) = plan else {
        return;
    };
    if c.header.som {
        write_first(out, c.header, c.kind, payload, c.from, c.len);
    } else {
        write_later(out, c.header, payload, c.from, c.len);
    }
}

impl Plan {
    // The fragmenter after the step: where nothing is written it stays as it was.
    #[tactic(auto, unfolding(crate::specs::Step::next_by))]
    pub fn next(self, f: Fragmenter) -> Fragmenter
        ensures { result ≡ next_by f self }
    {
        match self {
            Plan::Still(_) => f,
            Plan::Emits(c) => c.next,
        }
    }

    // What the step answers.
    #[tactic(auto, unfolding(crate::specs::Step::output_by))]
    pub fn output(self) -> SendOutput
        ensures { result ≡ output_by self }
    {
        match self {
            Plan::Still(output) => output,
            Plan::Emits(c) => SendOutput::Packet(c.total),
        }
    }
}

impl Fragmenter {
    #[tactic(auto, unfolding(octets::specs::Pick::pick, crate::specs::Step::new_of))]
    pub fn new(
        typ: MsgType,
        src: Eid,
        dest: Eid,
        tag: Tag,
        mtu: usize,
        cookie: Option<AppCookie>,
        ic: MsgIC,
        seq: u8,
    ) -> Result<Fragmenter, Error>
        ensures { result ≡ new_of typ src dest tag mtu cookie ic seq }
    {
        if tag.tag().0 > 7 || typ.0 > 127 {
            return Err(Error::InvalidInput);
        }
        if !(config::MIN_MTU..=config::MAX_MTU).contains(&mtu) {
            return Err(Error::BadArgument);
        }
        Ok(Fragmenter {
            src,
            dest,
            typ,
            tag,
            ic,
            seq: seq % 4,
            mtu,
            first: true,
            done: false,
            cookie,
            payload_used: 0,
        })
    }

    pub fn tag(self) -> Tag
        ensures { result ≡ self.tag }
    {
        self.tag
    }

    pub fn dest(self) -> Eid
        ensures { result ≡ self.dest }
    {
        self.dest
    }

    pub fn cookie(self) -> Option<AppCookie>
        ensures { result ≡ self.cookie }
    {
        self.cookie
    }

    pub fn is_done(self) -> bool
        ensures { result ≡ self.done }
    {
        self.done
    }

    fn header(self, eom: bool) -> Header
        ensures { result ≡ header_for self eom }
    {
        let key = Key {
            source: self.src,
            dest: self.dest,
            owner: self.tag.is_owner(),
            tag: self.tag.tag(),
        };
        Header {
            key,
            som: self.first,
            eom,
            seq: self.seq,
        }
    }

    // The fragmenter after a packet that took n bytes.
    fn advanced(self, n: usize, eom: bool) -> Fragmenter
        requires { self.payload_used + n < 2 ^ 64 }
        ensures { result ≡ advanced_by self n eom }
    {
        Fragmenter {
            seq: (self.seq % 4 + 1) % 4,
            first: false,
            done: eom,
            payload_used: self.payload_used + n,
            ..self
        }
    }

    // One packet: what is left of the payload, as far as it fits.
    fn emit(self, size: usize, room: usize) -> Cut
        requires { (lead self.first ≤ room) × (self.payload_used ≤ size) }
        ensures { result ≡ emit_of self size room }
    {
        let used = self.payload_used;
        let start = mctp::body_start(self.first);
        let n = (size - used).min(room.min(self.mtu).saturating_sub(start));
        let eom = used + n == size;
        Cut {
            next: self.advanced(n, eom),
            header: self.header(eom),
            kind: mctp::encode_type_ic(self.typ, self.ic),
            from: used,
            len: n,
            total: start + n,
        }
    }

    // What a step does with a payload and a packet buffer of these sizes, in the order of docs/RULES.md 30 to 33.
    #[tactic(auto, unfolding(octets::specs::Pick::pick, crate::specs::Step::plan_of))]
    pub fn plan(self, size: usize, room: usize) -> Plan
        ensures plan { result ≡ plan_of self size room }
        ensures fits { Writable result size room }
    {
        let cookie = self.cookie;
        if self.done {
            return Plan::Still(SendOutput::Complete {
                tag: self.tag,
                cookie,
            });
        }
        if room < mctp::body_start(self.first) {
            return Plan::Still(SendOutput::Error {
                err: Error::NoSpace,
                cookie,
            });
        }
        if size < self.payload_used {
            return Plan::Still(SendOutput::Error {
                err: Error::InvalidInput,
                cookie,
            });
        }
        Plan::Emits(self.emit(size, room))
    }

    // Writes what one step writes: its packet over the front of the buffer. A refused or finished step writes nothing.
    #[tactic(auto, unfolding(octets::specs::Pick::pick, crate::specs::Step::plan_of, crate::specs::Step::step_of, crate::specs::Step::written_by))]
    pub fn write(self, payload: &[u8], out: &mut [u8])
        ensures { out.new ≡ over 0 (step_of self payload.now (length out.old)).bytes out.old }
    {
        let plan = self.plan(payload.len(), out.len());
        write_plan(plan, payload, out);
    }

    // One step. The same payload is lent at every step.
    #[tactic(auto, unfolding(octets::specs::Pick::pick, crate::specs::Step::plan_of, crate::specs::Step::step_of, crate::specs::Step::next_by, crate::specs::Step::output_by, crate::specs::Step::written_by))]
    pub fn step(self, payload: &[u8], out: &mut [u8]) -> Fragmented
        ensures answer { result ≡ (step_of self payload.now (length out.old)).result }
        ensures bytes { out.new ≡ over 0 (step_of self payload.now (length out.old)).bytes out.old }
    {
        let plan = self.plan(payload.len(), out.len());
        let next = plan.next(self);
        let output = plan.output();
        write_plan(plan, payload, out);
        Fragmented { next, output }
    }

    // The same step on a fragmenter that is lent and changed in place.
    pub fn fragment(&mut self, payload: &[u8], out: &mut [u8]) -> SendOutput
        ensures answer { result ≡ (step_of self.old payload.now (length out.old)).result.output }
        ensures next { self.new ≡ (step_of self.old payload.now (length out.old)).result.next }
        ensures bytes { out.new ≡ over 0 (step_of self.old payload.now (length out.old)).bytes out.old }
    {
        let r = self.step(payload, out);
        *self = r.next;
        r.output
    }
}
