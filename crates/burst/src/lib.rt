// The burst call: up to 64 frames in one call (document 02, E3).
#![tactic(auto)]

ghost use Rattle.std.specs.Prelude.{◌≡◌, ◌≤◌, length, drop};
ghost use Rattle.octets.specs.Octets.{sum_of};
ghost use Rattle.octets.specs.Admission.{admission};
ghost use Rattle.rows.specs.State.{window_of};
ghost use Rattle.rows.specs.Message.{draft, draft_of};
ghost use Rattle.frames.specs.Frames.{frames_of};
ghost use Rattle.burst.specs.Burst as Spec;

use messages::Limits;
use pieces::BUNDLE_MAX;
use rows::State;
use wire::{Frames, Version};

pub const FRAMES_MAX: usize = 64;

pub const BUNDLES_MAX: usize = 256;

// Of messages there are fewer than octets, and 64 lengths of 16 bits come to fewer octets than this.
const MESSAGES_LIMIT: usize = 4194304;

// Refusals 1, 2, 3, 19 and 9, in this order.
#[derive(Clone, Copy)]
pub enum Refusal {
    Unsound,
    BufferSize,
    FrameCount,
    OctetCount,
    Misplaced,
}

// How many bundles are out and how many octets they have, the frame and the place where the next call goes on, and how many frames were
// refused.
#[derive(Clone, Copy)]
pub struct Taken {
    pub bundles: usize,
    pub octets: usize,
    pub frame: usize,
    pub place: usize,
    pub refused: usize,
}

// The number of a refusal.
impl From<Refusal> for u32 {
    ghost from_gives = { λ refusal n. n ≡ Spec.refusal_number refusal };

    fn from(refusal: Refusal) -> u32 {
        match refusal {
            Refusal::Unsound => 1,
            Refusal::BufferSize => 2,
            Refusal::FrameCount => 3,
            Refusal::OctetCount => 19,
            Refusal::Misplaced => 9,
        }
    }
}

// Whether a burst can't start at a place of a frame that there is, or behind all frames.
fn misplaced(version: Version, frames: Frames, frame: usize, place: usize) -> bool
    requires { (length frames.sizes.now ≤ Spec.frames_max) × (length frames.octets.now ≡ sum_of frames.sizes.now) × (frame ≤ length frames.sizes.now) }
    ensures { result ≡ Spec.misplaced_in (draft version) (drop frame (frames_of frames.entry.sizes.now frames.entry.octets.now)) place }
{
    if frame == frames.sizes.len() {
        return place != 0;
    }
    let start = octets::sum_of(&frames.sizes[..frame]);
    let end = start + frames.sizes[frame] as usize;
    match receiver::admit_frame(version, &frames.octets[start..end], place) {
        Ok(()) => false,
        Err(refusal) => matches!(refusal, receiver::Refusal::Misplaced),
    }
}

// Refusals 3, 19 and 9.
#[tactic(auto, unfolding(octets::specs::Admission::admission, crate::specs::Burst::unfitting))]
fn admit_frames(version: Version, frames: Frames, frame: usize, place: usize) -> Result<(), Refusal>
    ensures { result ≡ admission (Spec.unfitting (draft version) frames.entry.sizes.now frames.entry.octets.now frame place) }
{
    if FRAMES_MAX < frames.sizes.len() {
        return Err(Refusal::FrameCount);
    }
    if frames.octets.len() != octets::sum_of(frames.sizes) {
        return Err(Refusal::OctetCount);
    }
    if frames.sizes.len() < frame || misplaced(version, frames, frame, place) {
        return Err(Refusal::Misplaced);
    }
    Ok(())
}

// The first refusal that applies. The first two tests are the receiver's; what they refuse with is of another type there.
#[tactic(auto, unfolding(octets::specs::Admission::admission, crate::specs::Burst::refusal))]
fn admit(
    state: &State,
    pool: &[u8],
    frames: Frames,
    frame: usize,
    place: usize,
    output: &[u8],
) -> Result<(), Refusal>
    ensures { result ≡ admission (Spec.refusal (draft_of state.now) (window_of state.now) (record { state = state.now; pool = pool.now }) frames.entry.sizes.now frames.entry.octets.now frame place output.now) }
{
    if !rows::is_sound(state) {
        return Err(Refusal::Unsound);
    }
    if pool.len() != receiver::pool_size(state.settings.window) || output.len() < BUNDLE_MAX {
        return Err(Refusal::BufferSize);
    }
    admit_frames(state.settings.version, frames, frame, place)
}

// Takes frames, given by their lengths and their joined octets, from a frame and a place on, until all are taken, 256 bundles are out or
// the output lacks room for one more. Lengths and octets are lent by themselves, as in the C interface.
pub fn receive_burst(
    state: &mut State,
    pool: &mut [u8],
    sizes: &[u16],
    joined: &[u8],
    frame: usize,
    place: usize,
    output: &mut [u8],
    lengths: &mut [u16; BUNDLES_MAX],
    numbers: &mut [u64; BUNDLES_MAX],
    places: &mut [u32; FRAMES_MAX],
    reasons: &mut [u32; FRAMES_MAX],
) -> Result<Taken, Refusal>
    ensures { Spec.reply result state.new pool.new (Spec.lists output.new lengths.new numbers.new places.new reasons.new)
        ≡ Spec.receive_burst (draft_of state.old) (window_of state.old) (record { state = state.old; pool = pool.old })
        sizes.now joined.now frame place
        (Spec.lists output.old lengths.old numbers.old places.old reasons.old) }
{
    let frames = Frames {
        sizes,
        octets: joined,
    };
    admit(state, pool, frames, frame, place, output)?;
    let limits = Limits {
        messages: MESSAGES_LIMIT,
        bundles: BUNDLES_MAX,
    };
    let start = octets::sum_of(&sizes[..frame]);
    let r = frames::run_frames(
        state,
        pool,
        Frames {
            sizes: &sizes[frame..],
            octets: &joined[start..],
        },
        frame as u32,
        messages::begun(place),
        output,
        lengths,
        numbers,
        places,
        reasons,
        limits,
    );
    let p = r.progress;
    Ok(Taken {
        bundles: p.count,
        octets: p.used,
        frame: r.frame as usize,
        place: p.next,
        refused: r.refused,
    })
}
