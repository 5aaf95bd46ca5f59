// The message loop: messages of a frame treated one after the other (document 01, "Receiving call").
#![tactic(auto)]

ghost use Rattle.std.specs.Prelude.{◌≡◌, true, ◌&&◌, ◌+◌, ◌*◌, ◌≤◌, ◌<◌, ◌^◌, length, set, ltb, List};
ghost use Rattle.wire.specs.Frame.{checked, frame_max};
ghost use Rattle.pieces.specs.Pieces.{bundle_max};
ghost use Rattle.reassembly.specs.Rules.{Answers};
ghost use Rattle.rows.specs.Message.{order_of, draft_of, cell_at};
ghost use Rattle.messages.specs.Run as Loop;

use pieces::{BUNDLE_MAX, Order};
use reassembly::Taken;
use row::{Phase, SoundRow};
use rows::{Act, Settings, State, Visit};
use wire::{Kind, Version};

// Messages treated, bundles handed out, their octets, the next message's start, and the last bundle's origin.
#[derive(Clone, Copy)]
pub struct Progress {
    pub treated: usize,
    pub count: usize,
    pub used: usize,
    pub next: usize,
    pub origin: Option<u32>,
}

// The most messages and the most bundles.
#[derive(Clone, Copy)]
pub struct Limits {
    pub messages: usize,
    pub bundles: usize,
}

// A message with its content, for its row; a bundle goes to the front of `out`. (That the row has 64 entries is known only of a parameter.)
// What it does is an enum of the definitions, and each arm does another thing with the row.
fn row_turn(
    order: Order,
    sound: SoundRow,
    act: Act,
    cell: &mut [u8],
    content: &[u8],
    out: &mut [u8],
) -> Taken
    requires { (Loop.admits act (length content.now) ≡ true) × (length cell.old ≡ bundle_max) × (bundle_max ≤ length out.old) }
    ensures { (Answers (Loop.row_step order act content.now sound.row cell.old) out.old result cell.new out.new) × (length sound.row.indexes ≡ 64) × (length sound.row.lengths ≡ 64) }
{
    let row = sound.row;
    match act {
        Act::Pass => Taken {
            delivery: None,
            row,
        },
        Act::HandOut => {
            octets::copy_into(out, 0, content);
            Taken {
                delivery: Some(content.len()),
                row,
            }
        }
        Act::Piece(ending) => {
            let index = octets::number_at(content, 4);
            reassembly::take_piece(order, row, cell, index, &content[8..], ending, out)
        }
        Act::Cancel => Taken {
            delivery: None,
            row: reassembly::cancelled(row),
        },
    }
}

// A message for the row that it goes to: the row's cell is lent on, and what the bundles have left of the output.
fn cell_turn(
    version: Version,
    sound: SoundRow,
    v: Visit,
    pool: &mut [u8],
    content: &[u8],
    output: &mut [u8],
    used: usize,
) -> Taken
    requires { (Loop.admits v.act (length content.now) ≡ true) × (v.slot * bundle_max + bundle_max ≤ length pool.old) × (used + bundle_max ≤ length output.old) }
    ensures { (Loop.Lands (Loop.row_step (order_of version) v.act content.now sound.row (cell_at pool.old v.slot)) v.slot pool.old used output.old result pool.new output.new) × (length sound.row.indexes ≡ 64) × (length sound.row.lengths ≡ 64) }
{
    let base = v.slot * BUNDLE_MAX;
    let top = base + BUNDLE_MAX;
    let act = v.act;
    row_turn(
        rows::order_of(version),
        sound,
        act,
        &mut pool[base..top],
        content,
        &mut output[used..],
    )
}

// The transfer number, or one that no transfer has: in a list for C a number stands for none.
pub fn origin_number(origin: Option<u32>) -> u64
    ensures { result ≡ Loop.origin_number origin }
{
    match origin {
        None => 4294967296,
        Some(number) => number as u64,
    }
}

// An entry, where the list has it. By its place, since `get_mut` does not say what the list ends as.
pub fn put_entry<T: Copy>(entries: &mut [T], at: usize, x: T)
    ensures { entries.new ≡ set entries.old at x }
{
    if at < entries.len() {
        entries[at] = x;
    }
}

// The length and the number of a bundle in the lists, which are two in the C interface.
fn list_bundle(
    lengths: &mut [u16],
    numbers: &mut [u64],
    at: usize,
    delivery: Option<usize>,
    origin: Option<u32>,
)
    requires { Loop.size delivery ≤ bundle_max }
    ensures { (lengths.new ≡ Loop.listed at delivery lengths.old) × (numbers.new ≡ Loop.numbered at delivery origin numbers.old) }
{
    if let Some(n) = delivery {
        put_entry(lengths, at, n as u16);
        put_entry(numbers, at, origin_number(origin));
    }
}

// Before the first message, at a place.
pub fn begun(place: usize) -> Progress
    ensures { result ≡ Loop.begun place }
{
    Progress {
        treated: 0,
        count: 0,
        used: 0,
        next: place,
        origin: None,
    }
}

// After a message, with the next one's start.
fn progressed(p: Progress, delivery: Option<usize>, next: usize, origin: Option<u32>) -> Progress
    requires { (p.treated + 1 < 2 ^ 64) × (p.count + 1 < 2 ^ 64) × (p.used + Loop.size delivery < 2 ^ 64) }
    ensures { result ≡ Loop.progressed p delivery next origin }
{
    let treated = p.treated + 1;
    match delivery {
        None => Progress { treated, next, ..p },
        Some(n) => Progress {
            treated,
            count: p.count + 1,
            used: p.used + n,
            next,
            origin,
        },
    }
}

// Whether the limits, and the room in an output of this length, allow a further message.
pub fn roomy(p: Progress, limits: Limits, output: usize) -> bool
    requires { p.used ≤ output }
    ensures { result ≡ Loop.roomy p limits output }
{
    p.treated < limits.messages && p.count < limits.bundles && BUNDLE_MAX <= output - p.used
}

// Whether a further message of a frame of this length is treated.
fn more(p: Progress, limits: Limits, frame: usize, output: usize) -> bool
    requires { p.used ≤ output }
    ensures { result ≡ (ltb p.next frame && Loop.roomy p limits output) }
{
    p.next < frame && roomy(p, limits, output)
}

// What its type says of a state. It is known of a parameter by value alone, and not of a state that is lent.
fn typed(_state: State)
    ensures { (length _state.rows ≡ 16) × (_state.greatest < 2 ^ 32) }
{}

// Goes on from a progress with the messages of a frame, until a limit is reached or the output lacks room for a further bundle.
pub fn run(
    state: &mut State,
    pool: &mut [u8],
    frame: &[u8],
    from: Progress,
    output: &mut [u8],
    lengths: &mut [u16],
    numbers: &mut [u64],
    limits: Limits,
) -> Progress
    requires { (Loop.Able state.old pool.old output.old from)
        × (length frame.now ≤ frame_max)
        × (checked (draft_of state.old).read frame.now from.next ≡ Ok tt) }
    ensures { (Loop.going state.new pool.new output.new lengths.new numbers.new result
        ≡ Loop.run_from limits (Loop.going state.old pool.old output.old lengths.old numbers.old from) frame.now)
        × (Loop.Able state.new pool.new output.new result) }
{
    typed(*state);
    let settings = state.settings;
    let version = settings.version;
    let mut progress = from;
    // The place of the next message is the loop's variable: no count, and no iterator knows where a message ends.
    while more(progress, limits, frame.len(), output.len()) {
        let Ok(m) = wire::read_message(version, frame, progress.next) else {
            break;
        };
        let end = m.end;
        if let Kind::Skipped = m.kind {
            progress = progressed(progress, None, end, None);
            continue;
        }
        let content = &frame[m.start..end];
        let size = settings.window;
        let v = rows::visit_of(size, state.present, state.greatest, m.kind, content);
        if 1 < v.entered {
            state.rows = rows::freed(state.rows, size, state.greatest, v.entered);
        }
        state.present = v.present;
        state.greatest = v.greatest;
        let slot = v.slot;
        if 0 < v.entered {
            state.rows[slot] = row::empty_row(Phase::Free);
        }
        let sound = SoundRow {
            row: state.rows[slot],
        };
        let t = cell_turn(version, sound, v, pool, content, output, progress.used);
        state.rows[slot] = t.row;
        list_bundle(lengths, numbers, progress.count, t.delivery, v.origin);
        progress = progressed(progress, t.delivery, end, v.origin);
    }
    progress
}
