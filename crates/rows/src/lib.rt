// A receiver's state: the greatest number, a row for each number of the window, and the settings. Which states are sound, which rows a new
// number frees, and where a message goes (document 01, "Transfer window" and "Sound state").
#![tactic(auto)]

ghost use Rattle.std.specs.Prelude.{◌≡◌, true, length};
ghost use Rattle.wire.specs.Layout.{fitting, message};
ghost use Rattle.window.specs.Window.{is_window, standing_of};
ghost use Rattle.rows.specs.State as Spec;
ghost use Rattle.rows.specs.Message as Message;
ghost use Rattle.rows.specs.Message.{freed_from};
ghost use Rattle.rows.specs.Visit as Visits;

use pieces::Order;
use row::{Phase, Row};
use window::Standing;
use wire::{Kind, Version};

// What is chosen at start and stays. The window is a number, since `is_sound` refuses a state with another than 4, 8 and 16.
#[derive(Clone, Copy)]
pub struct Settings {
    pub version: Version,
    pub window: u32,
}

// The greatest transfer number, where there is one yet, a row for each number of the window, and the settings. Rows beyond the window carry
// no meaning and are free. `present` and `greatest` stand apart, and are no Option: a state in which they do not fit is one that `is_sound`
// refuses.
#[derive(Clone, Copy)]
pub struct State {
    pub present: bool,
    pub greatest: u32,
    pub rows: [Row; 16],
    pub settings: Settings,
}

// What a visit goes by: the window's size, and the greatest number, which has a meaning where there is one yet.
#[derive(Clone, Copy)]
struct Window {
    size: u32,
    present: bool,
    greatest: u32,
    ghost sized: { is_window size ≡ true },
}

// What a message does: nothing, where it is passed over or outside the window; or hand out its content; or bring its row a piece, of an
// end or of a segment; or cancel its row.
#[derive(Clone, Copy)]
pub enum Act {
    Pass,
    HandOut,
    Piece(bool),
    Cancel,
}

// What a message does, the row that it goes to, how many numbers enter the window for it, the window after it, and the origin of its
// bundle: the number of its transfer, or none for a bundle message. The window is given back as the state has it, a flag and a number.
#[derive(Clone, Copy)]
pub struct Visit {
    pub act: Act,
    pub slot: usize,
    pub entered: u32,
    pub present: bool,
    pub greatest: u32,
    pub origin: Option<u32>,
}

// The order of index in which a draft joins pieces. No From: neither crate of the two types stands on the other.
pub fn order_of(version: Version) -> Order
    ensures { result ≡ Message.order_of version }
{
    match version {
        Version::Draft00 => Order::Falling,
        Version::Draft02 => Order::Rising,
    }
}

// A row is sound, and free where no number has it.
fn sound_in(row: Row, present: bool) -> bool
    ensures { result ≡ Spec.sound_in present row }
{
    row::sound_row(row) && (present || matches!(row.phase, Phase::Free))
}

pub fn is_sound(state: &State) -> bool
    ensures { result ≡ Spec.sound state.now }
{
    let window = state.settings.window;
    let present = state.present;
    let mut rows = state.rows.iter().enumerate();
    window::is_window(window)
        && (present || state.greatest == 0)
        && rows.all(|(k, row)| sound_in(*row, present && k < window as usize))
}

// The rows of the numbers that entered, so many after the greatest, become free.
pub fn freed(rows: [Row; 16], window: u32, greatest: u32, entered: u32) -> [Row; 16]
    requires { is_window window ≡ true }
    ensures { result ≡ freed_from window 0 greatest entered rows }
{
    let free = row::empty_row(Phase::Free);
    let first = greatest % window + 1;
    let mut next = rows;
    for j in 0..entered.min(window) {
        let slot = window::row_of(window, first + j);
        next[slot] = free;
    }
    next
}

fn stay(window: Window, act: Act) -> Visit
    ensures { result ≡ Visits.stay window.present window.greatest act }
{
    Visit {
        act,
        slot: 0,
        entered: 0,
        present: window.present,
        greatest: window.greatest,
        origin: None,
    }
}

// Where a transfer message goes.
fn transfer_visit(window: Window, act: Act, number: u32) -> Visit
    ensures { result ≡ Visits.transfer_visit window.size (standing_of window.size window.present window.greatest number) window.present window.greatest act number }
{
    let slot = window::row_of(window.size, number);
    let origin = Some(number);
    match window::standing_of(window.size, window.present, window.greatest, number) {
        Standing::Inside => Visit {
            slot,
            origin,
            ..stay(window, act)
        },
        Standing::New(entered) => Visit {
            act,
            slot,
            entered,
            present: true,
            greatest: number,
            origin,
        },
        Standing::Outside => stay(window, Act::Pass),
    }
}

// Where a message goes.
pub fn visit_of(window: u32, present: bool, greatest: u32, kind: Kind, content: &[u8]) -> Visit
    requires { (is_window window ≡ true) × (fitting kind (length content.now) ≡ true) }
    ensures { result ≡ Visits.visit_of window present greatest (message kind content.now) }
{
    let window = Window {
        size: window,
        present,
        greatest,
    };
    match kind {
        Kind::Skipped => stay(window, Act::Pass),
        Kind::Bundle => stay(window, Act::HandOut),
        Kind::Segment => {
            transfer_visit(window, Act::Piece(false), octets::number_at(content, 0))
        }
        Kind::End => transfer_visit(window, Act::Piece(true), octets::number_at(content, 0)),
        Kind::Cancel => transfer_visit(window, Act::Cancel, octets::number_at(content, 0)),
    }
}
