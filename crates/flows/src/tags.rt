// Tags as bits of a byte: bit t of a peer's used-tag byte says that tag t is taken. The search for a free tag is here and nowhere else.
// Tag numbers are counted modulo 8. Definitions: specs/Tags.antt.
ghost use Rattle.std.specs.Prelude.{◌≡◌, ◌%◌, ◌^◌, ◌≤◌};
ghost use Rattle.flows.specs.Tags.{free_tag_of, free_count, is_free_in, set_bit};

use mctp::TagValue;

// Whether bit t is clear.
fn tag_is_free(used: u8, t: u8) -> bool
    ensures { result ≡ is_free_in used (t % 8) }
{
    used / power(t) % 2 != 1
}

// 2 to the t.
fn power(t: u8) -> u8
    ensures { (result ≡ 2 ^ (t % 8)) × (1 ≤ result) }
{
    1 << (t % 8)
}

// The byte with bit t set.
#[tactic(auto, using(crate::proofs::Bits::room), unfolding(octets::specs::Pick::pick, crate::specs::Tags::set_bit))]
pub fn set_bit(t: u8, byte: u8) -> u8
    ensures { result ≡ set_bit (t % 8) byte }
{
    let p = power(t);
    if byte / p % 2 == 1 {
        return byte;
    }
    byte + p
}

// The first free tag from `start` on, 0 after 7; bit t of `used` says that tag t is taken.
#[tactic(auto, using(crate::proofs::TagLaws::free_found, crate::proofs::TagLaws::free_none))]
pub fn free_tag(used: u8, start: u8) -> Option<TagValue>
    ensures { result ≡ free_tag_of used (start % 8) }
{
    for i in 0..8 {
        let t = start % 8 + i;
        if tag_is_free(used, t) {
            return Some(TagValue(t % 8));
        }
    }
    None
}

// How many tags are free: eight less the ones of the used-tag byte.
pub fn free_tags(used: u8) -> u8
    ensures { result ≡ free_count used }
{
    8 - used.count_ones() as u8
}
