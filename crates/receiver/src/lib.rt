// The receiver: start and the receiving call (document 01, "Receiving call").
#![tactic(auto)]

ghost use Rattle.std.specs.Prelude.{◌≡◌, ◌*◌};
ghost use Rattle.octets.specs.Admission.{admission};
ghost use Rattle.wire.specs.declared.Version.TheVariants.{Draft02};
ghost use Rattle.window.specs.Window.{plain_window};
ghost use Rattle.pieces.specs.Pieces.{bundle_max};
ghost use Rattle.rows.specs.State as Spec;
ghost use Rattle.rows.specs.State.{window_of};
ghost use Rattle.rows.specs.Message.{draft, draft_of};
ghost use Rattle.receiver.specs.Receive as Call;
ghost use Rattle.receiver.specs.Steps as Steps;

use messages::{Limits, Progress};
use pieces::BUNDLE_MAX;
use row::Phase;
pub use rows::{Settings, State};
use wire::{FRAME_MAX, Fault, Rejection, Version};

// Refusals 1, 2, 3, 4 to 8 with the first bad message's start, and 9.
#[derive(Clone, Copy)]
pub enum Refusal {
    Unsound,
    BufferSize,
    FrameSize,
    Malformed(Fault, usize),
    Misplaced,
}

// Delivered: a bundle of this length, the next place, and the number of the bundle's transfer, or none for a bundle message.
#[derive(Clone, Copy)]
pub enum Answer {
    Delivered {
        length: usize,
        next: usize,
        origin: Option<u32>,
    },
    Finished,
}

// Refusal 21: a window that is not 4, 8 or 16.
#[derive(Clone, Copy)]
pub struct WrongWindow;

// Document 01's number of a refusal.
impl From<Refusal> for u32 {
    ghost from_gives = { λ refusal n. n ≡ Call.refusal_number refusal };

    fn from(refusal: Refusal) -> u32 {
        match refusal {
            Refusal::Unsound => 1,
            Refusal::BufferSize => 2,
            Refusal::FrameSize => 3,
            Refusal::Malformed(fault, _) => u32::from(fault),
            Refusal::Misplaced => 9,
        }
    }
}

impl From<WrongWindow> for u32 {
    ghost from_gives = { λ refusal n. n ≡ Call.window_refusal };

    fn from(_refusal: WrongWindow) -> u32 {
        21
    }
}

impl From<Rejection> for Refusal {
    ghost from_gives = { λ rejection refusal. refusal ≡ Call.rejected rejection };

    fn from(rejection: Rejection) -> Refusal {
        match rejection {
            Rejection::Malformed(fault, at) => Refusal::Malformed(fault, at),
            Rejection::Misplaced => Refusal::Misplaced,
        }
    }
}

fn fresh(version: Version, window: u32) -> State
    ensures { result ≡ Spec.fresh version window }
{
    let free = row::empty_row(Phase::Free);
    State {
        present: false,
        greatest: 0,
        rows: [free; 16],
        settings: Settings { version, window },
    }
}

// A receiver of either draft, with a window of 4, 8 or 16.
#[tactic(auto, unfolding(crate::specs::Receive::start))]
pub fn start_as(version: Version, window: u32) -> Result<State, WrongWindow>
    ensures { result ≡ Call.start version window }
{
    if window::is_window(window) {
        return Ok(fresh(version, window));
    }
    Err(WrongWindow)
}

// A receiver of draft 02 with the plain window.
pub fn start() -> State
    ensures { result ≡ Spec.fresh Draft02 plain_window }
{
    fresh(Version::Draft02, window::PLAIN)
}

// Refusals 3 to 9.
#[tactic(auto, unfolding(octets::specs::Admission::admission, crate::specs::Receive::frame_refusal))]
pub fn admit_frame(version: Version, frame: &[u8], place: usize) -> Result<(), Refusal>
    ensures { result ≡ admission (Call.unfit (draft version) frame.now place) }
{
    if frame.is_empty() || FRAME_MAX < frame.len() {
        return Err(Refusal::FrameSize);
    }
    wire::check_frame(version, frame, place)?;
    Ok(())
}

// The octets of a pool: 4,096 for each row.
pub fn pool_size(window: u32) -> usize
    ensures { result ≡ window * bundle_max }
{
    window as usize * BUNDLE_MAX
}

// The first refusal that applies. The burst call shares the first two tests; what they refuse with is of another type there.
#[tactic(auto, unfolding(octets::specs::Admission::admission, crate::specs::Receive::refusal))]
fn admit(
    state: &State,
    pool: &[u8],
    frame: &[u8],
    place: usize,
    output: &[u8],
) -> Result<(), Refusal>
    ensures { result ≡ admission (Call.refusal (draft_of state.now) (window_of state.now) (record { state = state.now; pool = pool.now }) frame.now place output.now) }
{
    if !rows::is_sound(state) {
        return Err(Refusal::Unsound);
    }
    if pool.len() != pool_size(state.settings.window) || output.len() < BUNDLE_MAX {
        return Err(Refusal::BufferSize);
    }
    admit_frame(state.settings.version, frame, place)
}

// Finished where no bundle is out.
fn answer_of(p: Progress) -> Answer
    ensures { result ≡ Steps.answer_of p }
{
    if p.count == 0 {
        return Answer::Finished;
    }
    Answer::Delivered {
        length: p.used,
        next: p.next,
        origin: p.origin,
    }
}

// Takes the messages of a frame from a place on, up to the first bundle handed out, which goes to the front of the output.
pub fn receive(
    state: &mut State,
    pool: &mut [u8],
    frame: &[u8],
    place: usize,
    output: &mut [u8],
) -> Result<Answer, Refusal>
    ensures { Call.reply result state.new pool.new output.new
        ≡ Call.receive (record { state = state.old; pool = pool.old }) frame.now place output.old }
{
    admit(state, pool, frame, place, output)?;
    let limits = Limits {
        messages: FRAME_MAX,
        bundles: 1,
    };
    let mut lengths = [0u16; 1];
    let mut numbers = [0u64; 1];
    let progress = messages::run(
        state,
        pool,
        frame,
        messages::begun(place),
        output,
        &mut lengths,
        &mut numbers,
        limits,
    );
    Ok(answer_of(progress))
}
