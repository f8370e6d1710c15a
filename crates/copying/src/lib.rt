// Copies a slice over the front of another, as far as it fits, in moves of 1, 4, 8 and 16 bytes.
// A move reads all its bytes before it writes the first. A `&mut` is not marked noalias, so only in this order do two moves of 8 bytes become one of 16.
// Leans on `octets` for numbers. Each is read or written in a window of its own width, so that none of its bounds tests is left in the compiled code.

#![tactic(auto)]

ghost use Rattle.std.specs.Prelude.{◌≡◌, ◌++◌, ◌+◌, ◌≤◌, ◌<◌, length, drop};
ghost use Rattle.octets.specs.Bytes.{le, field, part, over, lay};

use octets::Uint;

// The number in the bytes of `src` from `i` on, and a number written to those of `dst`.
fn load<T: Uint>(src: &[u8], i: usize) -> T
    requires { i + T.WIDTH ≤ length src.now }
    ensures { T.value result ≡ field i T.WIDTH src.now }
{
    let end = i + T::WIDTH;
    T::get(&src[i..end], 0)
}

fn store<T: Uint>(dst: &mut [u8], i: usize, x: T)
    requires { i + T.WIDTH ≤ length dst.old }
    ensures { dst.new ≡ over i (le T.WIDTH (T.value x)) dst.old }
{
    let end = i + T::WIDTH;
    T::put(&mut dst[i..end], 0, x);
}

// `pair8` copies 8 bytes of `src` from `i` on and 8 from `j` on to the same places of `dst`; `pair16` copies 16 and 16.
fn pair8(dst: &mut [u8], src: &[u8], i: usize, j: usize)
    requires { (i + 8 ≤ length src.now) × (j + 8 ≤ length src.now) × (length src.now ≤ length dst.old) }
    ensures { dst.new ≡ over j (part j 8 src.now) (over i (part i 8 src.now) dst.old) }
{
    let lo = load::<u64>(src, i);
    let hi = load::<u64>(src, j);
    store(dst, i, lo);
    store(dst, j, hi);
}

fn pair16(dst: &mut [u8], src: &[u8], i: usize, j: usize)
    requires { (i + 16 ≤ length src.now) × (j + 16 ≤ length src.now) × (length src.now ≤ length dst.old) }
    ensures { dst.new ≡ over j (part j 16 src.now) (over i (part i 16 src.now) dst.old) }
{
    pair8(dst, src, i, i + 8);
    pair8(dst, src, j, j + 8);
}

fn short(dst: &mut [u8], src: &[u8])
    requires { (length src.now ≤ length dst.old) × (length src.now < 8) }
    ensures { dst.new ≡ src.now ++ drop (length src.now) dst.old }
{
    let n = src.len();
    if n < 1 {
        return;
    }
    if 4 <= n {
        let lo = load::<u32>(src, 0);
        let hi = load::<u32>(src, n - 4);
        store(dst, 0, lo);
        store(dst, n - 4, hi);
        return;
    }
    dst[0] = src[0];
    if n < 2 {
        return;
    }
    let lo = src[n - 2];
    let hi = src[n - 1];
    dst[n - 2] = lo;
    dst[n - 1] = hi;
}

fn long(dst: &mut [u8], src: &[u8])
    requires { (length src.now ≤ length dst.old) × (32 ≤ length src.now) }
    ensures { dst.new ≡ src.now ++ drop (length src.now) dst.old }
{
    let n = src.len();
    let mut i = 0;
    while 32 < n - i {
        pair16(dst, src, i, i + 16);
        i += 32;
    }
    pair16(dst, src, n - 32, n - 16);
}

fn whole(dst: &mut [u8], src: &[u8])
    requires { length src.now ≤ length dst.old }
    ensures { dst.new ≡ src.now ++ drop (length src.now) dst.old }
{
    let n = src.len();
    if n < 8 {
        short(dst, src);
        return;
    }
    if n <= 16 {
        pair8(dst, src, 0, n - 8);
        return;
    }
    if n <= 32 {
        pair16(dst, src, 0, n - 16);
        return;
    }
    long(dst, src);
}

// Copies `src` over the front of `dst`, as far as it fits; what lies past it stays.
pub fn copy(dst: &mut [u8], src: &[u8])
    ensures { dst.new ≡ lay 0 src.now dst.old }
{
    let n = src.len().min(dst.len());
    whole(dst, &src[0..n]);
}
