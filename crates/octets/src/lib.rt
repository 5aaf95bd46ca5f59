// Runs of octets: numbers read and written at a position, a run written at an offset, and zeros up to the end.
#![tactic(auto)]

ghost use Rattle.std.specs.Prelude.{◌≡◌, ◌+◌, ◌-◌, ◌*◌, ◌/◌, ◌≤◌, length, drop, replicate};
ghost use Rattle.octets.specs.Octets.{number, number16, be32, be16, pairs, spread, sum_of, put};

// The number of 16 bits at a position. A line for each width, here and where numbers are written: one generic function would need a trait
// with a law for each.
pub fn number16_at(s: &[u8], at: usize) -> u16
    requires { at + 2 ≤ length s.now }
    ensures { result ≡ number16 (drop at s.now) }
{
    u16::from_be_bytes([s[at], s[at + 1]])
}

// The number of 32 bits at a position.
pub fn number_at(s: &[u8], at: usize) -> u32
    requires { at + 4 ≤ length s.now }
    ensures { result ≡ number (drop at s.now) }
{
    u32::from_be_bytes([s[at], s[at + 1], s[at + 2], s[at + 3]])
}

// The numbers of 16 bits that the octets hold, one behind another, and zeros behind them.
pub fn read_pairs<const N: usize>(octets: &[u8]) -> [u16; N]
    requires { length octets.now ≤ 2 * N }
    ensures { result ≡ put (replicate N 0) 0 (pairs (length octets.now / 2) octets.now) }
{
    let (pairs, _) = octets.as_chunks::<2>();
    let mut numbers = [0; N];
    for (j, pair) in pairs.iter().enumerate() {
        numbers[j] = u16::from_be_bytes(*pair);
    }
    numbers
}

// All of src, from `at` on. The place is a parameter, as in the definition `put`, which says that all else stays.
pub fn copy_into(to: &mut [u8], at: usize, src: &[u8])
    requires { at + length src.now ≤ length to.old }
    ensures { to.new ≡ put to.old at src.now }
{
    let end = at + src.len();
    to[at..end].copy_from_slice(src);
}

// The longest copy that is made at once, and the parts of a longer one: what is copied at once has to lie in the nearest cache
// (docs/SPEED.md).
const AT_ONCE: usize = 32768;

const PART: usize = 4096;

// All of src, which may be long, from `at` on.
pub fn copy_long(to: &mut [u8], at: usize, src: &[u8])
    requires { at + length src.now ≤ length to.old }
    ensures { to.new ≡ put to.old at src.now }
{
    let size = if src.len() <= AT_ONCE { AT_ONCE } else { PART };
    let mut end = at;
    for part in src.chunks(size) {
        copy_into(to, end, part);
        end += part.len();
    }
}

// N octets, from `at` on. An array goes by value, and the compiler makes one store of it.
pub fn put_array<const N: usize>(to: &mut [u8], at: usize, octets: [u8; N])
    requires { at + N ≤ length to.old }
    ensures { to.new ≡ put to.old at octets.entry }
{
    copy_into(to, at, &octets);
}

// A number of 32 bits, from `at` on.
pub fn put_number(to: &mut [u8], at: usize, n: u32)
    requires { at + 4 ≤ length to.old }
    ensures { to.new ≡ put to.old at (be32 n) }
{
    put_array::<4>(to, at, n.to_be_bytes());
}

// A number of 16 bits, from `at` on.
pub fn put_number16(to: &mut [u8], at: usize, n: u16)
    requires { at + 2 ≤ length to.old }
    ensures { to.new ≡ put to.old at (be16 n) }
{
    put_array::<2>(to, at, n.to_be_bytes());
}

// Numbers of 16 bits one behind another, from `at` on. By places, since `chunks_mut` does not say what the slice ends as.
pub fn put_pairs(to: &mut [u8], at: usize, numbers: &[u16])
    requires { at + 2 * length numbers.now ≤ length to.old }
    ensures { to.new ≡ put to.old at (spread numbers.now) }
{
    for (j, number) in numbers.iter().enumerate() {
        put_number16(to, at + j * 2, *number);
    }
}

pub fn sum_of(numbers: &[u16]) -> usize
    requires { length numbers.now ≤ 65536 }
    ensures { result ≡ sum_of numbers.now }
{
    numbers.iter().map(|n| *n as u32).sum::<u32>() as usize
}

// Zeros from `at` to the end.
pub fn zero_from(to: &mut [u8], at: usize)
    requires { at ≤ length to.old }
    ensures { to.new ≡ put to.old at (replicate (length to.old - at) 0) }
{
    to[at..].fill(0);
}
