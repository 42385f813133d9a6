// Fields side by side as one word, and what is tested of four at once.
ghost use Rattle.std.specs.Prelude.{◌≡◌, ◌+◌, ◌-◌, ◌*◌, ◌%◌, ◌^◌, bit_and, bit_or};

// Four fields of 16 bits. Sums of products, not shifts: compiled to one load.
pub fn of_16(a: u16, b: u16, c: u16, d: u16) -> u64
    ensures { result ≡ a + 65536 * b + 4294967296 * c + 281474976710656 * d }
{
    u64::from(a)
        + 0x1_0000 * u64::from(b)
        + 0x1_0000_0000 * u64::from(c)
        + 0x1_0000_0000_0000 * u64::from(d)
}

// Two fields of 32 bits.
pub fn of_32(a: u32, b: u32) -> u64
    ensures { result ≡ a + 4294967296 * b }
{
    u64::from(a) + 0x1_0000_0000 * u64::from(b)
}

// Four fields of 8 bits.
pub fn of_8(a: u8, b: u8, c: u8, d: u8) -> u64
    ensures { result ≡ a + 256 * b + 65536 * c + 16777216 * d }
{
    u64::from(a) + 0x100 * u64::from(b) + 0x1_0000 * u64::from(c) + 0x100_0000 * u64::from(d)
}

// Of four fields of 16 bits, those of the bits `tops` that two sums set. Less `least`, a field that is 0 borrows into its top bit; with `lift`
// added to that, which takes the most of each field to 32,767, a field above its most has its top bit set.
pub fn past_bounds(word: u64, least: u64, lift: u64, tops: u64) -> u64
    ensures { let low = (word + (2 ^ 64 - least)) % 2 ^ 64 in result ≡ bit_or (bit_and low tops) (bit_and ((low + lift) % 2 ^ 64) tops) }
{
    let low = word.wrapping_sub(least);
    let high = low.wrapping_add(lift);
    (low & tops) | (high & tops)
}
