// The row of one transfer: its phase and pieces, the verdict of the row rules on a segment or an end, and what makes a row sound.
#![tactic(auto)]

ghost use Rattle.std.specs.Prelude.{◌≡◌, true, ◌≤◌};
ghost use Rattle.row.specs.Row as Spec;

use pieces::{BUNDLE_MAX, INDEX_COUNT, Scan};

// What a row is about. Abandoned is document 01's "Given up".
#[derive(Clone, Copy)]
pub enum Phase {
    Free,
    Open,
    Done,
    Cancelled,
    Abandoned,
}

// The pieces held, in order of arrival: the first `held` entries of indexes and lengths. Arrays and a count, and no vector, since memory
// is fixed and an image has all 64 entries. The count stands between the arrays: the compiler then copies each of them by itself,
// without a call. The final index has a meaning where it is known; the two stand apart, and are no Option: `sound_row` refuses a row in which
// they do not fit.
#[derive(Clone, Copy)]
pub struct Row {
    pub phase: Phase,
    pub known: bool,
    pub last: u8,
    pub indexes: [u8; INDEX_COUNT],
    pub held: usize,
    pub lengths: [u16; INDEX_COUNT],
}

// A row that is sound.
#[derive(Clone, Copy)]
pub struct SoundRow {
    pub row: Row,
    ghost sound: { Spec.sound_row row ≡ true },
}

// What the row rules say of a segment or an end. Accepts: its data goes to this offset of the cell.
#[derive(Clone, Copy)]
pub enum Verdict {
    Stays,
    Abandons,
    Accepts(usize),
}

// A row of a phase, with no pieces.
pub fn empty_row(phase: Phase) -> Row
    ensures { result ≡ Spec.empty_row phase }
{
    Row {
        phase,
        known: false,
        last: 0,
        held: 0,
        indexes: [0; INDEX_COUNT],
        lengths: [0; INDEX_COUNT],
    }
}

// Whether a row of this phase takes messages.
pub fn is_live(phase: Phase) -> bool
    ensures { result ≡ Spec.is_live phase }
{
    matches!(phase, Phase::Free | Phase::Open)
}

fn is_open(phase: Phase) -> bool
    ensures { result ≡ Spec.is_open phase }
{
    matches!(phase, Phase::Open)
}

// The four contradictions of a segment or an end with this index. The final index goes with its flag, as the row has it.
fn contradicts(known: bool, last: u8, scan: Scan, index: u8, ending: bool) -> bool
    ensures { result ≡ Spec.contradiction known last scan.held scan.above index ending }
{
    (known && last < index)
        || (ending && known && index != last)
        || (ending && scan.above)
        || (scan.held && ending != (known && last == index))
}

// Steps 2 to 6 of the row rules, for a row that takes messages.
fn judge_live(sound: SoundRow, index: u32, length: usize, ending: bool) -> Verdict
    ensures { result ≡ Spec.judge_live sound.row ending index length }
{
    let row = sound.row;
    if 63 < index {
        return Verdict::Abandons;
    }
    let i = index as u8;
    let scan = pieces::scan_for(&row.indexes[..row.held], i);
    if contradicts(row.known, row.last, scan, i, ending) {
        return Verdict::Abandons;
    }
    if scan.held {
        return Verdict::Stays;
    }
    let at = octets::sum_of(&row.lengths[..row.held]);
    if BUNDLE_MAX - at < length {
        return Verdict::Abandons;
    }
    Verdict::Accepts(at)
}

// Steps 1 to 6.
pub fn judge(row: Row, index: u32, length: usize, ending: bool) -> Verdict
    requires { Spec.sound_row row ≡ true }
    ensures { result ≡ Spec.judge row ending index length }
{
    if is_live(row.phase) {
        judge_live(SoundRow { row }, index, length, ending)
    } else {
        Verdict::Stays
    }
}

// ---- sound rows

// The final index of an open row.
fn sound_last(row: Row) -> bool
    requires { row.held ≤ 64 }
    ensures { result ≡ Spec.sound_last row.known row.last (Spec.indexes_of row) }
{
    if !row.known {
        return row.last == 0;
    }
    let indexes = &row.indexes[..row.held];
    let scan = pieces::scan_for(indexes, row.last);
    scan.held && !scan.above && !pieces::is_complete(row.known, row.last, indexes)
}

// The pieces of an open row.
fn sound_pieces(row: Row) -> bool
    requires { row.held ≤ 64 }
    ensures { result ≡ Spec.sound_pieces row }
{
    let held = row.held;
    pieces::distinct(&row.indexes[..held])
        && octets::sum_of(&row.lengths[..held]) <= BUNDLE_MAX
        && pieces::are_zero(&row.indexes[held..], &row.lengths[held..])
}

fn sound_open(row: Row) -> bool
    ensures { result ≡ Spec.sound_open row }
{
    (1..=INDEX_COUNT).contains(&row.held) && sound_pieces(row) && sound_last(row)
}

// A row that is not open has zero entries.
fn sound_empty(row: Row) -> bool
    ensures { result ≡ Spec.sound_empty row }
{
    !row.known && row.last == 0 && row.held == 0 && pieces::are_zero(&row.indexes, &row.lengths)
}

// Whether a row is sound, for any numbers in it.
pub fn sound_row(row: Row) -> bool
    ensures { result ≡ Spec.sound_row row }
{
    if is_open(row.phase) {
        sound_open(row)
    } else {
        sound_empty(row)
    }
}
