// What a cancel, a segment or an end does to a row and its cell, and the bundle that it completes.
#![tactic(auto)]

ghost use Rattle.std.specs.Prelude.{◌≡◌, true, ◌+◌, ◌≤◌, ◌<◌, length};
ghost use Rattle.octets.specs.Octets.{put, sum_of};
ghost use Rattle.pieces.specs.Pieces.{bundle_max};
ghost use Rattle.row.specs.Row.{lengths_of, sound_row};
ghost use Rattle.reassembly.specs.Rules as Spec;

use pieces::Order;
use row::{Phase, Row, Verdict};

// What a segment or an end leaves of its row, and the length of the bundle that it completes, if it does.
#[derive(Clone, Copy)]
pub struct Taken {
    pub delivery: Option<usize>,
    pub row: Row,
}

// A cancel: a Free row becomes Cancelled too.
pub fn cancelled(row: Row) -> Row
    ensures { result ≡ Spec.cancelled row }
{
    if row::is_live(row.phase) {
        row::empty_row(Phase::Cancelled)
    } else {
        row
    }
}

// The final index after a piece.
fn last_after(last: u8, index: u8, ending: bool) -> u8
    ensures { result ≡ Spec.last_after last index ending }
{
    if ending { index } else { last }
}

// The row and the cell with one piece more, whose octets lie from `at` on. Where that completes the row, its bundle goes to the front
// of `out`, and the row is done. (Cell and output are parts of what hosts lend, so their lengths stand in clauses.)
fn accept(
    order: Order,
    row: Row,
    cell: &mut [u8],
    at: usize,
    index: u8,
    payload: &[u8],
    ending: bool,
    out: &mut [u8],
) -> Taken
    requires held_bound { (row.held < 64) × (at + length payload.now ≤ bundle_max) × (length cell.old ≡ bundle_max) × (bundle_max ≤ length out.old) }
    requires ending_bound { (Spec.last_after row.last index ending < 64) × (sum_of (lengths_of (Spec.with_piece row ending index (length payload.now))) ≤ bundle_max) }
    ensures { Spec.Answers (Spec.settle order (Spec.with_piece row ending index (length payload.now)) (put cell.old at payload.now)) out.old result cell.new out.new }
{
    let held = row.held;
    let n = payload.len();
    let mut indexes = row.indexes;
    let mut lengths = row.lengths;
    indexes[held] = index;
    lengths[held] = n as u16;
    octets::copy_into(cell, at, payload);
    let known = row.known || ending;
    let last = last_after(row.last, index, ending);
    if pieces::is_complete(known, last, &indexes[..=held]) {
        let size = pieces::join(order, &indexes[..=held], &lengths[..=held], last, cell, out);
        return Taken {
            delivery: Some(size),
            row: row::empty_row(Phase::Done),
        };
    }
    Taken {
        delivery: None,
        row: Row {
            phase: Phase::Open,
            known,
            last,
            held: held + 1,
            indexes,
            lengths,
        },
    }
}

// A segment or an end with this index and this payload; a complete row's pieces are joined in the order.
pub fn take_piece(
    order: Order,
    row: Row,
    cell: &mut [u8],
    index: u32,
    payload: &[u8],
    ending: bool,
    out: &mut [u8],
) -> Taken
    requires { (sound_row row ≡ true) × (length cell.old ≡ bundle_max) × (bundle_max ≤ length out.old) }
    ensures { Spec.Answers (Spec.piece_step order ending index payload.now row cell.old) out.old result cell.new out.new }
{
    match row::judge(row, index, payload.len(), ending) {
        Verdict::Stays => Taken {
            delivery: None,
            row,
        },
        Verdict::Abandons => Taken {
            delivery: None,
            row: row::empty_row(Phase::Abandoned),
        },
        Verdict::Accepts(at) => accept(order, row, cell, at, index as u8, payload, ending, out),
    }
}
