// Fields of 1 to 16 bits in bytes, most significant bit first, across the borders of bytes.
#![tactic(auto)]

ghost use Rattle.std.specs.Prelude.{◌≡◌, ◌+◌, ◌*◌, ◌/◌, ◌%◌, ◌^◌, ◌≤◌, ◌<◌, length};
ghost use Rattle.bits.specs.Bits.{bit as bit_at, field as field_at, put_field};
ghost use Rattle.bits.specs.Sheet.{bytes_for};

/// How many bytes hold n bits.
pub fn bytes_for(n: usize) -> usize
    requires { n < 2 ^ 32 }
    ensures { result ≡ bytes_for n }
{
    n.div_ceil(8)
}

// The bit at `at`, and 0 past the end.
#[tactic(auto, using(crate::proofs::FieldLaws::field_laws))]
fn bit(s: &[u8], at: usize) -> u32
    ensures { result ≡ bit_at s.now at }
{
    match s.get(at / 8) {
        Some(byte) => (u32::from(*byte) >> (7 - at % 8)) & 1,
        None => 0,
    }
}

/// The number in the `width` bits from `at` on; bits past the end are 0.
#[tactic(auto, using(crate::proofs::FieldLaws::field_laws))]
pub fn field(s: &[u8], at: usize, width: usize) -> u32
    requires { (width ≤ 16) × (at < 2 ^ 32) }
    ensures { (result ≡ field_at s.now at width) × (result < 2 ^ width) }
{
    let mut value = 0;
    for i in 0..width {
        value = (value << 1) | bit(s, at + i);
    }
    value
}

// The number in the `count` bytes from `first` on.
#[tactic(auto, using(crate::proofs::FieldLaws::field_laws))]
fn load(s: &[u8], first: usize, count: usize) -> u32
    requires { (count ≤ 3) × (first + count ≤ length s.now) }
    ensures { result ≡ field_at s.now (8 * first) (8 * count) }
{
    let mut number = 0;
    for j in 0..count {
        number = (number << 8) | u32::from(s[first + j]);
    }
    number
}

// The byte of x that has k bytes below it.
#[tactic(auto, using(crate::proofs::FieldLaws::byte_laws))]
fn byte_of(x: u32, k: usize) -> u8
    requires { k ≤ 3 }
    ensures { result ≡ x / 2 ^ (8 * k) % 256 }
{
    ((x >> (8 * k)) & 255) as u8
}

// The number x, put into the `count` bytes from `first` on.
#[tactic(auto, using(crate::proofs::PutLaws::stored_laws))]
fn store(out: &mut [u8], first: usize, count: usize, x: u32)
    requires { (count ≤ 3) × (first + count ≤ length out.old) × (x < 2 ^ (8 * count)) }
    ensures { out.new ≡ put_field out.old (8 * first) (8 * count) x }
{
    for j in 0..count {
        out[first + j] = byte_of(x, count - 1 - j);
    }
}

// The number `old`, with `value` in the `width` bits that have `low` bits below them.
#[tactic(auto, using(crate::proofs::FieldLaws::splice_laws))]
fn splice(old: u32, width: usize, low: usize, value: u32) -> u32
    requires { (old < 2 ^ 24) × (width ≤ 16) × (low < 8) × (value < 2 ^ width) }
    ensures { result ≡ (old / 2 ^ (width + low) * 2 ^ width + value) * 2 ^ low + old % 2 ^ low }
{
    let high = ((old >> (width + low)) << width) | value;
    (high << low) | (old & ((1 << low) - 1))
}

/// The number `value`, put into the `width` bits from `at` on; all other bits stay.
#[tactic(auto, using(crate::proofs::PutLaws::put_laws))]
pub fn put(out: &mut [u8], at: usize, width: usize, value: u32)
    requires { (width ≤ 16) × (at + width ≤ 8 * length out.old) × (value < 2 ^ width) }
    ensures { out.new ≡ put_field out.old at width value }
{
    let first = at / 8;
    let end = at % 8 + width;
    let count = bytes_for(end);
    let old = load(out, first, count);
    store(
        out,
        first,
        count,
        splice(old, width, 8 * count - end, value),
    );
}
