// The pieces of one transfer in order of arrival, as a list of indexes and a list of lengths: searching, counting and joining them.
#![tactic(auto)]

ghost use Rattle.std.specs.Prelude.{◌≡◌, ◌&&◌, ◌+◌, ◌≤◌, ◌<◌, length, take, drop, replicate};
ghost use Rattle.octets.specs.Octets.{put, sum_of};
ghost use Rattle.pieces.specs.Pieces as Spec;
ghost use Rattle.pieces.specs.Pieces.{bundle_max};
ghost use Rattle.pieces.specs.Note.{absent, Right};
ghost use Rattle.pieces.specs.Search as Search;

// The most octets of a bundle: of the cell where its pieces lie, and the least output.
pub const BUNDLE_MAX: usize = 4096;

// The indexes go from 0 to 63.
pub const INDEX_COUNT: usize = 64;

// The order of index in which pieces are joined.
#[derive(Clone, Copy)]
pub enum Order {
    Rising,
    Falling,
}

// Whether an index is held, and whether one above it is.
#[derive(Clone, Copy)]
pub struct Scan {
    pub held: bool,
    pub above: bool,
}

// The start that is noted for an index that is not held. A number and no Option, as `absent` and the law `Right` have it.
const ABSENT: u16 = 65535;

// Looks for an index. One pass gives both answers, without an early exit: the compiler makes a vector loop of it.
pub fn scan_for(indexes: &[u8], index: u8) -> Scan
    ensures { Search.Scanned index indexes.now result }
{
    let mut held = false;
    let mut above = false;
    for x in indexes {
        held |= *x == index;
        above |= index < *x;
    }
    Scan { held, above }
}

// Where a search for an index begins, and every later search for a greater one: past the piece at a place, if its index is lower.
fn past_lower(indexes: &[u8], place: usize, index: u8) -> usize
    requires { place ≤ length indexes.now }
    ensures place { result ≡ Search.past_lower (length indexes.now) indexes.now place index }
    ensures within { result ≤ length indexes.now }
{
    if place < indexes.len() && indexes[place] < index {
        return place + 1;
    }
    place
}

// Whether every index from 0 to last is held: a search among the pieces for each, left by the label where one is missing.
fn all_held(indexes: &[u8], last: u8) -> bool
    ensures { result ≡ Spec.has_all (last + 1) indexes.now }
{
    let mut all = true;
    let mut place = 0;
    'search: for i in 0..=last {
        place = past_lower(indexes, place, i);
        for x in &indexes[place..] {
            if *x == i {
                continue 'search;
            }
        }
        all = false;
        break 'search;
    }
    all
}

// Notes one piece more; of an index that stands twice the first piece counts. The lists are lent, and not passed and returned for each piece.
fn note_piece(
    starts: &mut [u16; INDEX_COUNT],
    sizes: &mut [u16; INDEX_COUNT],
    index: u8,
    start: u16,
    n: u16,
)
    ensures starts_after { starts.new ≡ Search.noted starts.old index start starts.old }
    ensures sizes_after { sizes.new ≡ Search.noted starts.old index n sizes.old }
{
    let i = index as usize;
    if i >= INDEX_COUNT {
        return;
    }
    if starts[i] != ABSENT {
        return;
    }
    starts[i] = start;
    sizes[i] = n;
}

// Notes where each index lies, in one pass over the pieces. Two lists and no list of pairs: `Right` speaks of two.
fn note_pieces(
    indexes: &[u8],
    lengths: &[u16],
    starts: &mut [u16; INDEX_COUNT],
    sizes: &mut [u16; INDEX_COUNT],
)
    requires pieces { (length indexes.now ≡ length lengths.now) × (sum_of lengths.now ≤ bundle_max) }
    requires starts_value { (starts.old ≡ replicate 64 absent) × (sizes.old ≡ replicate 64 0) }
    ensures { Right indexes.now lengths.now starts.new sizes.new }
{
    let mut start = 0;
    for (index, n) in indexes.iter().zip(lengths) {
        note_piece(starts, sizes, *index, start, *n);
        start += *n;
    }
}

// Copies a piece of the cell to `at`; answers where the next one goes. An index that is not held has the size 0, as an empty piece has.
fn copy_piece(start: u16, n: u16, cell: &[u8], at: usize, out: &mut [u8]) -> usize
    requires { (0 < n → start + n ≤ length cell.now) × (at + n ≤ length out.old) × (n ≤ bundle_max) }
    ensures { (result ≡ at + n) × (out.new ≡ put out.old at (take n (drop start cell.now))) }
{
    if n == 0 {
        return at;
    }
    let from = start as usize;
    let to = from + n as usize;
    octets::copy_into(out, at, &cell[from..to]);
    at + n as usize
}

// Whether entries are zero. Without an early exit: the compiler makes a vector loop of it.
pub fn are_zero(indexes: &[u8], lengths: &[u16]) -> bool
    requires { length indexes.now ≡ length lengths.now }
    ensures { result ≡ Spec.zero_from 0 indexes.now lengths.now }
{
    let mut zero = true;
    for (index, n) in indexes.iter().zip(lengths) {
        zero &= (*index == 0) & (*n == 0);
    }
    zero
}

// Whether the indexes are at most 63 and differ.
pub fn distinct(indexes: &[u8]) -> bool
    ensures { result ≡ Spec.low_and_distinct indexes.now }
{
    let mut seen = [false; INDEX_COUNT];
    let mut twice = false;
    for index in indexes {
        let x = *index as usize;
        if 63 < x {
            return false;
        }
        twice |= seen[x];
        seen[x] = true;
    }
    !twice
}

// The index that is joined as the one of a place, from 0 on. Each order is one line, as in the definition: a closure would be no plainer.
fn ordered(order: Order, last: u8, place: u8) -> u8
    requires { place ≤ last }
    ensures { result ≡ Search.ordered order (last + 1) place }
{
    match order {
        Order::Rising => place,
        Order::Falling => last - place,
    }
}

// Joins the pieces from index 0 to last at the front of `out`, in an order of index; answers the length.
pub fn join(
    order: Order,
    indexes: &[u8],
    lengths: &[u16],
    last: u8,
    cell: &[u8],
    out: &mut [u8],
) -> usize
    requires pieces { (length indexes.now ≡ length lengths.now) × (last < 64) }
    requires lengths_in_bounds { (sum_of lengths.now ≤ length cell.now) × (sum_of lengths.now ≤ length out.old) × (sum_of lengths.now ≤ bundle_max) }
    ensures { Spec.Joined (Spec.joined order (last + 1) indexes.now lengths.now cell.now) out.old result out.new }
{
    let mut starts = [ABSENT; INDEX_COUNT];
    let mut sizes = [0u16; INDEX_COUNT];
    note_pieces(indexes, lengths, &mut starts, &mut sizes);
    let mut at = 0;
    for place in 0..=last {
        let k = ordered(order, last, place) as usize;
        at = copy_piece(starts[k], sizes[k], cell, at, out);
    }
    at
}

// Whether the final index is known, as a row has it, and every index up to it is held; a count of the pieces below it rules that out
// without a search.
pub fn is_complete(known: bool, last: u8, indexes: &[u8]) -> bool
    ensures { result ≡ (known && Spec.has_all (last + 1) indexes.now) }
{
    known && (last as usize) < indexes.len() && all_held(indexes, last)
}
