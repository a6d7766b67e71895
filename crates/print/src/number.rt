// Bytes, texts and numbers. Each function writes at a place and gives the place just behind what it wrote.
// A buffer with a place beside, and digits by hand, for speed. Where each function writes at the front of a slice and tells how many bytes,
// updates, questions and full256 take 1.3 to 1.4 % more instructions. In a copy in Rust the line of an entry takes 15 % more by a struct of
// a lent buffer and a place, 1.7 times as many by the kit's way in `itoa`, and 7 times as many by `write!`.
ghost use Rattle.std.specs.Prelude.{◌≡◌, [], ◌∷◌, ◌+◌, ◌<◌, ◌≤◌, length};
ghost use Rattle.print.specs.Text.{Wrote, decimal, pair, four, eight, packed};

// One byte.
pub fn put_byte(buf: &mut [u8], at: usize, b: u8) -> usize
    requires { at < length buf.old }
    ensures { Wrote 1 (b ∷ []) buf.old buf.new at result }
{
    buf[at] = b;
    at + 1
}

// A text.
pub fn put_text(buf: &mut [u8], at: usize, text: &[u8]) -> usize
    requires { at + length text.now ≤ length buf.old }
    ensures { Wrote (length text.now) text.now buf.old buf.new at result }
{
    let next = at + text.len();
    buf[at..next].copy_from_slice(text);
    next
}

// The two digits of a number below 100 in a word, the first in its lower byte. With the number in the upper one, 10 for each ten are taken
// from that byte and 1 is put into the other: 2559 is 10 * 256 - 1. So too below, in each lane; 6553599 is 100 * 65536 - 1.
fn pack_pair(n: u16) -> u16
    requires { n < 100 }
    ensures { result ≡ packed (pair n) }
{
    0x3030 + n * 256 - n / 10 * 2559
}

// The two digits of a number below 100.
fn put_pair(buf: &mut [u8], at: usize, n: u16) -> usize
    requires at_in_bounds { at + 2 ≤ length buf.old }
    requires n_bound { n < 100 }
    ensures { Wrote 2 (pair n) buf.old buf.new at result }
{
    put_text(buf, at, &pack_pair(n).to_le_bytes())
}

// The four digits of a number below 10,000 in a word, the first in its lowest byte: its two pairs lie side by side, in 16 bits each.
fn pack_four(n: u32) -> u32
    requires { n < 10000 }
    ensures { result ≡ packed (four n) }
{
    let high = n / 100;
    let low = n % 100;
    let tens = high / 10 + low / 10 * 0x1_0000;
    0x3030_3030 + (high + low * 0x1_0000) * 256 - tens * 2559
}

// The four digits of a number below 10,000.
fn put_four(buf: &mut [u8], at: usize, n: u32) -> usize
    requires at_in_bounds { at + 4 ≤ length buf.old }
    requires n_bound { n < 10000 }
    ensures { Wrote 4 (four n) buf.old buf.new at result }
{
    put_text(buf, at, &pack_four(n).to_le_bytes())
}

// A number below 10,000, with no zero in front.
fn put_small(buf: &mut [u8], at: usize, n: u32) -> usize
    requires at_in_bounds { at + 4 ≤ length buf.old }
    requires n_bound { n < 10000 }
    ensures { Wrote 4 (decimal n) buf.old buf.new at result }
{
    if n < 10 {
        return put_byte(buf, at, b'0' + n as u8);
    }
    if n < 100 {
        return put_pair(buf, at, n as u16);
    }
    if n < 1000 {
        let next = put_byte(buf, at, b'0' + (n / 100) as u8);
        return put_pair(buf, next, (n % 100) as u16);
    }
    put_four(buf, at, n)
}

// The eight digits of a number below 100,000,000 in a word, in lanes of 32, 16 and 8 bits: 5243 / 524288 is for 1 / 100, 103 / 1024 for 1 / 10.
fn pack_eight(n: u64) -> u64
    requires { n < 100000000 }
    ensures { result ≡ packed (eight n) }
{
    let halves = n / 10000 + n % 10000 * 0x1_0000_0000;
    let hundreds = (halves * 5243 / 524288) & 0x7f_0000_007f;
    let pairs = halves * 0x1_0000 - hundreds * 6553599;
    let tens = (pairs * 103 / 1024) & 0xf_000f_000f_000f;
    0x3030_3030_3030_3030 + pairs * 256 - tens * 2559
}

// The eight digits of a number below 100,000,000.
fn put_eight(buf: &mut [u8], at: usize, n: u64) -> usize
    requires at_in_bounds { at + 8 ≤ length buf.old }
    requires n_bound { n < 100000000 }
    ensures { Wrote 8 (eight n) buf.old buf.new at result }
{
    put_text(buf, at, &pack_eight(n).to_le_bytes())
}

// A number below 100,000,000, with no zero in front.
fn put_middle(buf: &mut [u8], at: usize, n: u32) -> usize
    requires at_in_bounds { at + 8 ≤ length buf.old }
    requires n_bound { n < 100000000 }
    ensures { Wrote 8 (decimal n) buf.old buf.new at result }
{
    if n < 10000 {
        return put_small(buf, at, n);
    }
    let next = put_small(buf, at, n / 10000);
    put_four(buf, next, n % 10000)
}

// The digits of an address in front of its last eight: one or two. The last two ways are for numbers that no box has.
// The first two ways are for speed: where `put_middle` alone does it, updates take 3 % more instructions.
fn put_head(buf: &mut [u8], at: usize, n: u64) -> usize
    requires at_in_bounds { at + 12 ≤ length buf.old }
    requires n_bound { n < 1000000000000 }
    ensures { Wrote 12 (decimal n) buf.old buf.new at result }
{
    if n < 10 {
        return put_byte(buf, at, b'0' + n as u8);
    }
    if n < 100 {
        return put_pair(buf, at, n as u16);
    }
    if n < 10000 {
        return put_middle(buf, at, n as u32);
    }
    let next = put_middle(buf, at, (n / 10000) as u32);
    put_four(buf, next, (n % 10000) as u32)
}

// Any number, with no zero in front.
pub fn put_number(buf: &mut [u8], at: usize, n: u64) -> usize
    requires { at + 20 ≤ length buf.old }
    ensures { Wrote 20 (decimal n) buf.old buf.new at result }
{
    if n < 100000000 {
        return put_middle(buf, at, n as u32);
    }
    let next = put_head(buf, at, n / 100000000);
    put_eight(buf, next, n % 100000000)
}

// Any number, with no zero in front: a number below 100, as a link's is, the shortest way. By `put_number` updates take 5 % more instructions.
pub fn put_short(buf: &mut [u8], at: usize, n: u64) -> usize
    requires { at + 20 ≤ length buf.old }
    ensures { Wrote 20 (decimal n) buf.old buf.new at result }
{
    if n < 10 {
        return put_byte(buf, at, b'0' + n as u8);
    }
    if n < 100 {
        return put_pair(buf, at, n as u16);
    }
    put_number(buf, at, n)
}
