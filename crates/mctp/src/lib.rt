// What stands on the wire: endpoint IDs, tags, types, cookies, the refusals, and the packet header of DSP0236.
// The types cannot be mixed up; they follow the crate `mctp`, and the header follows `libmctp`. Definitions: specs/Terms.antt, Header.antt.
// Leans on `octets` for numbers in bytes.

#![tactic(auto)]

ghost use Rattle.std.specs.Prelude.{◌≡◌, ◌≤◌, ◌<◌};
ghost use Rattle.octets.specs.Bytes.{le};
ghost use Rattle.mctp.specs.Terms.{normal_eid, error_no, tag_of, is_owner, tag_under, cookie_no, cookie_value, cookie_of};
ghost use Rattle.mctp.specs.Header.{header_of, header_bytes, bit, type_byte, type_of, lead, flags_of};

use std::fmt;

#[derive(Clone, Copy, Debug, PartialEq, Eq)]
pub struct Eid(pub u8);

#[derive(Clone, Copy, Debug, PartialEq, Eq)]
pub struct TagValue(pub u8);

#[derive(Clone, Copy, Debug, PartialEq, Eq)]
pub struct MsgType(pub u8);

#[derive(Clone, Copy, Debug, PartialEq, Eq)]
pub struct MsgIC(pub bool);

#[derive(Clone, Copy, Debug, PartialEq, Eq)]
pub struct AppCookie(pub u64);

// A tag, and whose it is: an owned tag has TO=1 on the wire.
#[derive(Clone, Copy, Debug, PartialEq, Eq)]
pub enum Tag {
    Owned(TagValue),
    Unowned(TagValue),
}

// The refusals (docs/RULES.md 13); `number` gives each its number.
#[derive(Clone, Copy, Debug, PartialEq, Eq)]
pub enum Error {
    InvalidInput,
    NoSpace,
    BadArgument,
    TagUnavailable,
    Unreachable,
    PoolShort,
}

// A packet's key, which tells the message that the packet belongs to.
#[derive(Clone, Copy, Debug, PartialEq, Eq)]
pub struct Key {
    pub source: Eid,
    pub dest: Eid,
    pub owner: bool,
    pub tag: TagValue,
}

#[derive(Clone, Copy, Debug, PartialEq, Eq)]
pub struct Header {
    pub key: Key,
    pub som: bool,
    pub eom: bool,
    pub seq: u8,
}

#[derive(Clone, Copy, Debug, PartialEq, Eq)]
pub struct TypeIC {
    pub typ: MsgType,
    pub ic: MsgIC,
}

pub const HEADER_LEN: usize = 4;

impl Eid {
    pub const NULL: Eid = Eid(0);

    pub const ANY: Eid = Eid(255);

    // An EID that an endpoint can have as its own: 8 to 254.
    #[tactic(auto, unfolding(octets::specs::Pick::pick, crate::specs::Terms::normal_eid))]
    pub fn new_normal(eid: u8) -> Result<Eid, Error>
        ensures { result ≡ normal_eid eid }
    {
        if (8..=254).contains(&eid) {
            Ok(Eid(eid))
        } else {
            Err(Error::InvalidInput)
        }
    }
}

impl Tag {
    #[tactic(auto, unfolding(octets::specs::Pick::pick, crate::specs::Terms::tag_under))]
    pub fn of(owner: bool, tag: TagValue) -> Tag
        ensures { result ≡ tag_under owner tag }
    {
        if owner {
            Tag::Owned(tag)
        } else {
            Tag::Unowned(tag)
        }
    }

    pub fn tag(self) -> TagValue
        ensures { result ≡ tag_of self }
    {
        match self {
            Tag::Owned(t) | Tag::Unowned(t) => t,
        }
    }

    pub fn is_owner(self) -> bool
        ensures { result ≡ is_owner self }
    {
        matches!(self, Tag::Owned(_))
    }
}

// A cookie that may be absent, as two numbers: whether it is there, and its value.
pub fn cookie_no(c: Option<AppCookie>) -> u8
    ensures { (result ≡ cookie_no c) × (result < 2) }
{
    u8::from(c.is_some())
}

pub fn cookie_value(c: Option<AppCookie>) -> u64
    ensures { result ≡ cookie_value c }
{
    c.map_or(0, |c| c.0)
}

#[tactic(auto, unfolding(octets::specs::Pick::pick, crate::specs::Terms::cookie_of))]
pub fn cookie_of(present: u8, value: u64) -> Option<AppCookie>
    ensures { result ≡ cookie_of present value }
{
    (present == 1).then_some(AppCookie(value))
}

impl Error {
    pub fn number(self) -> u8
        ensures { result ≡ error_no self }
    {
        match self {
            Error::InvalidInput => 1,
            Error::NoSpace => 2,
            Error::BadArgument => 3,
            Error::TagUnavailable => 4,
            Error::Unreachable => 5,
            Error::PoolShort => 6,
        }
    }
}

// A refusal prints as its name.
impl fmt::Display for Error {
    fn fmt<W: fmt::Write>(&self, f: &mut fmt::Formatter<W>) -> fmt::Result {
        match self {
            Error::InvalidInput => write!(f, "InvalidInput"),
            Error::NoSpace => write!(f, "NoSpace"),
            Error::BadArgument => write!(f, "BadArgument"),
            Error::TagUnavailable => write!(f, "TagUnavailable"),
            Error::Unreachable => write!(f, "Unreachable"),
            Error::PoolShort => write!(f, "PoolShort"),
        }
    }
}

impl std::error::Error for Error {}

// `n` where the bit is set, else 0.
pub fn bit_of(set: bool, n: u8) -> u8
    ensures { (result ≡ bit set n) × (result ≤ n) }
{
    if set { n } else { 0 }
}

// The header of a packet: none where the packet has under 4 bytes or another version.
#[tactic(auto, unfolding(octets::specs::Pick::pick, crate::specs::Header::header_of))]
pub fn read_header(packet: &[u8]) -> Option<Header>
    ensures { result ≡ header_of packet.now }
{
    if packet.len() < HEADER_LEN {
        return None;
    }
    if packet[0] % 16 != 1 {
        return None;
    }
    let b = packet[3];
    let key = Key {
        source: Eid(packet[2]),
        dest: Eid(packet[1]),
        owner: b / 8 % 2 == 1,
        tag: TagValue(b % 8),
    };
    Some(Header {
        key,
        som: b / 128 == 1,
        eom: b / 64 % 2 == 1,
        seq: b / 16 % 4,
    })
}

// Byte 3: SOM, EOM, sequence, TO, tag.
pub fn flags(h: Header) -> u8
    ensures { result ≡ flags_of h }
{
    let som = bit_of(h.som, 128);
    let eom = bit_of(h.eom, 64);
    let owner = bit_of(h.key.owner, 8);
    som + (eom + (h.seq % 4 * 16 + (owner + h.key.tag.0 % 8)))
}

// Where the body starts: with SOM it starts past the type byte.
pub fn body_start(som: bool) -> usize
    ensures { result ≡ lead som }
{
    if som { 5 } else { 4 }
}

// The four bytes of a header as one number, byte 0 lowest.
#[tactic(auto, using(crate::proofs::Wire::le_four))]
pub fn encode_header(h: Header) -> u32
    ensures { le 4 result ≡ header_bytes h }
{
    let b = flags(h);
    let dest = h.key.dest.0;
    let source = h.key.source.0;
    1 + 256 * (u32::from(dest) + 256 * (u32::from(source) + 256 * u32::from(b)))
}

pub fn encode_type_ic(typ: MsgType, ic: MsgIC) -> u8
    ensures { result ≡ type_byte typ ic }
{
    bit_of(ic.0, 128) + typ.0 % 128
}

pub fn decode_type_ic(b: u8) -> TypeIC
    ensures { result ≡ type_of b }
{
    TypeIC {
        typ: MsgType(b % 128),
        ic: MsgIC(b / 128 == 1),
    }
}
