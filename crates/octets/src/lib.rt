// The ground floor of all crates: it reads and writes little-endian numbers at any place of a buffer. A byte past the end reads as 0, and is not written.
// specs/ and proofs/ hold the definitions and laws of parts, numbers, regions, choices and first places that the other crates cite.
// Leans on the toolchain's library alone.

#![tactic(auto)]

ghost use Rattle.std.specs.Prelude.{◌≡◌, ℕ};
ghost use Rattle.octets.specs.Bytes.{le, field, lay};

// An unsigned number, which lies in `WIDTH` bytes, the lowest first. A wide one is two of half its width, so that the compiled code has one move for it.
pub trait Uint: Copy {
    ghost WIDTH: { ℕ };

    const WIDTH: usize;

    ghost value: { Self → ℕ };

    fn get(b: &[u8], at: usize) -> Self
        ensures { value result ≡ field at WIDTH b.now };

    fn put(b: &mut [u8], at: usize, x: Self)
        ensures { b.new ≡ lay at (le WIDTH (value x)) b.old };
}

impl Uint for u8 {
    ghost WIDTH = { 1 };

    const WIDTH: usize = 1;

    ghost value = { λ x. x };

    fn get(b: &[u8], at: usize) -> u8 {
        if b.len() <= at {
            return 0;
        }
        b[at]
    }

    fn put(b: &mut [u8], at: usize, x: u8) {
        if b.len() <= at {
            return;
        }
        b[at] = x;
    }
}

impl Uint for u16 {
    ghost WIDTH = { 2 };

    const WIDTH: usize = 2;

    ghost value = { λ x. x };

    fn get(b: &[u8], at: usize) -> u16 {
        if b.len() <= at {
            return 0;
        }
        let lo = u8::get(b, at);
        let hi = u8::get(b, at + 1);
        lo as u16 + hi as u16 * 256
    }

    fn put(b: &mut [u8], at: usize, x: u16) {
        if b.len() <= at {
            return;
        }
        u8::put(b, at, (x % 256) as u8);
        u8::put(b, at + 1, (x / 256) as u8);
    }
}

impl Uint for u32 {
    ghost WIDTH = { 4 };

    const WIDTH: usize = 4;

    ghost value = { λ x. x };

    fn get(b: &[u8], at: usize) -> u32 {
        if b.len() <= at {
            return 0;
        }
        let lo = u16::get(b, at);
        let hi = u16::get(b, at + 2);
        lo as u32 + hi as u32 * 65536
    }

    fn put(b: &mut [u8], at: usize, x: u32) {
        if b.len() <= at {
            return;
        }
        u16::put(b, at, (x % 65536) as u16);
        u16::put(b, at + 2, (x / 65536) as u16);
    }
}

impl Uint for u64 {
    ghost WIDTH = { 8 };

    const WIDTH: usize = 8;

    ghost value = { λ x. x };

    fn get(b: &[u8], at: usize) -> u64 {
        if b.len() <= at {
            return 0;
        }
        let lo = u32::get(b, at);
        let hi = u32::get(b, at + 4);
        lo as u64 + hi as u64 * 4294967296
    }

    fn put(b: &mut [u8], at: usize, x: u64) {
        if b.len() <= at {
            return;
        }
        u32::put(b, at, (x % 4294967296) as u32);
        u32::put(b, at + 4, (x / 4294967296) as u32);
    }
}
