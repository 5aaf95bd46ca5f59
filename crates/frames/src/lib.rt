// Frames one after another, as their lengths and their joined octets: the loop under the burst call and under playback.
#![tactic(auto)]

ghost use Rattle.std.specs.Prelude.{◌≡◌, ◌+◌, ◌≤◌, length, set};
ghost use Rattle.octets.specs.Octets.{sum_of};
ghost use Rattle.rows.specs.State.{window_of};
ghost use Rattle.rows.specs.Message.{draft_of};
ghost use Rattle.messages.specs.Run as Loop;
ghost use Rattle.frames.specs.Frames as Frames;
ghost use Rattle.frames.specs.Frames.{frames_of};

use messages::{Limits, Progress};
use rows::State;

// How far the frames were taken: the frame to go on with, the place in it in the progress, and how many were refused.
#[derive(Clone, Copy)]
pub struct Reached {
    pub progress: Progress,
    pub frame: u32,
    pub refused: usize,
}

// A refused frame in the lists, which are two in the C interface.
fn note(places: &mut [u32], reasons: &mut [u32], at: usize, frame: u32, reason: u32)
    ensures { (places.new ≡ set places.old at frame) × (reasons.new ≡ set reasons.old at reason) }
{
    messages::put_entry(places, at, frame);
    messages::put_entry(reasons, at, reason);
}

// Frames from the progress's place in the first one on, until a limit is reached or the output lacks room for a further bundle. `first` is
// the first frame's place in the whole list.
pub fn run_frames(
    state: &mut State,
    pool: &mut [u8],
    frames: wire::Frames,
    first: u32,
    from: Progress,
    output: &mut [u8],
    lengths: &mut [u16],
    numbers: &mut [u64],
    places: &mut [u32],
    reasons: &mut [u32],
    limits: Limits,
) -> Reached
    requires { (Loop.Able state.old pool.old output.old from)
        × (sum_of frames.sizes.now ≤ length frames.octets.now)
        × (first + length frames.sizes.now ≤ 65536) }
    ensures { Frames.reached result state.new pool.new output.new lengths.new numbers.new
        places.new reasons.new
        ≡ Frames.through (draft_of state.old) (window_of state.old) limits
        (Frames.set_out (Loop.going state.old pool.old output.old lengths.old numbers.old from)
        places.old reasons.old first)
        (frames_of frames.entry.sizes.now frames.entry.octets.now) }
{
    let version = state.settings.version;
    let mut progress = from;
    let mut refused = 0;
    let mut frame = first;
    let mut at = 0;
    for size in frames.sizes {
        if !messages::roomy(progress, limits, output.len()) {
            break;
        }
        let end = at + *size as usize;
        let pdu = &frames.octets[at..end];
        if let Err(refusal) = receiver::admit_frame(version, pdu, progress.next) {
            note(places, reasons, refused, frame, u32::from(refusal));
            refused += 1;
        } else {
            progress = messages::run(state, pool, pdu, progress, output, lengths, numbers, limits);
            if progress.next < pdu.len() {
                break;
            }
        }
        progress.next = 0;
        frame += 1;
        at = end;
    }
    Reached {
        progress,
        frame,
        refused,
    }
}
