// Recordings: frames in a file (document 02, E1).
#![tactic(auto)]

ghost use Rattle.std.specs.Prelude.{◌≡◌, ◌+◌, ◌*◌, ◌^◌, ◌<◌, ◌≤◌, length, drop};
ghost use Rattle.octets.specs.Octets.{put};
ghost use Rattle.recording.specs.Recording as Spec;

use wire::{FRAME_MAX, Frames};

// The most frames and the most octets of a recording.
pub const FRAMES_MAX: usize = 1024;

pub const OCTETS_MAX: usize = 61440;

// Refusals 16 to 20, and 24.
#[derive(Clone, Copy)]
pub enum Refusal {
    CutShort,
    OverLimit,
    FrameLength,
    OctetCount,
    LeftOver,
    ShortOutput,
}

impl From<Refusal> for u32 {
    ghost from_gives = { λ refusal n. n ≡ Spec.refusal_number refusal };

    fn from(refusal: Refusal) -> u32 {
        match refusal {
            Refusal::CutShort => 16,
            Refusal::OverLimit => 17,
            Refusal::FrameLength => 18,
            Refusal::OctetCount => 19,
            Refusal::LeftOver => 20,
            Refusal::ShortOutput => 24,
        }
    }
}

// A recording that was read: the lengths of its frames with zeros behind them, and how many frames and octets there are. An array
// and a count, since memory is fixed and C is given all 1,024 entries.
#[derive(Clone, Copy)]
pub struct Opened {
    pub lengths: [u16; FRAMES_MAX],
    pub frames: usize,
    pub octets: usize,
}

// Whether every length is 1 to 2,048. Without an early exit: the compiler makes a vector loop of it.
fn all_sized(lengths: &[u16]) -> bool
    ensures { result ≡ Spec.sized lengths.now }
{
    let mut good = true;
    for length in lengths {
        good &= (1 <= *length) & (*length as usize <= FRAME_MAX);
    }
    good
}

// Refusals 18 and 19.
#[tactic(auto, unfolding(crate::specs::Recording::uneven, crate::specs::Recording::verdict))]
fn weigh(lengths: &[u16], count: usize) -> Result<(), Refusal>
    requires { length lengths.now ≤ Spec.frames_max }
    ensures { result ≡ Spec.verdict (Spec.uneven lengths.now count) }
{
    if !all_sized(lengths) {
        return Err(Refusal::FrameLength);
    }
    if count != octets::sum_of(lengths) {
        return Err(Refusal::OctetCount);
    }
    Ok(())
}

// A count at a position, and refusals 16 and 17.
#[tactic(auto, unfolding(crate::specs::Recording::count_at))]
fn count_at(recording: &[u8], at: usize, limit: usize) -> Result<usize, Refusal>
    requires { at < 2 ^ 32 }
    ensures { result ≡ Spec.count_at at limit recording.now }
{
    if recording.len() < at + 4 {
        return Err(Refusal::CutShort);
    }
    let count = octets::number_at(recording, at) as usize;
    if limit < count {
        return Err(Refusal::OverLimit);
    }
    Ok(count)
}

// Where the octets start in a recording of so many frames: behind two counts of four octets and the lengths.
pub fn octets_start(frames: usize) -> usize
    requires { 8 + frames * 2 < 2 ^ 64 }
    ensures { result ≡ 8 + frames * 2 }
{
    8 + frames * 2
}

pub fn open(recording: &[u8]) -> Result<Opened, Refusal>
    ensures { result ≡ Spec.opened (Spec.read recording.now) }
{
    let frames = count_at(recording, 0, FRAMES_MAX)?;
    let start = octets_start(frames);
    let octets = count_at(recording, start - 4, OCTETS_MAX)?;
    let size = recording.len();
    let end = start + octets;
    if size < end {
        return Err(Refusal::CutShort);
    }
    let lengths = octets::read_pairs::<FRAMES_MAX>(&recording[4..start - 4]);
    weigh(&lengths[..frames], octets)?;
    if end < size {
        return Err(Refusal::LeftOver);
    }
    Ok(Opened {
        lengths,
        frames,
        octets,
    })
}

// The octets of a recording of so many frames.
pub fn octets_of(recording: &[u8], frames: usize) -> &[u8]
    requires { 8 + frames * 2 ≤ length recording.now }
    ensures { result.now ≡ drop (8 + frames * 2) recording.now }
{
    let start = octets_start(frames);
    &recording[start..]
}

// Refusals 17 to 19.
fn unwritable(frames: Frames) -> Result<(), Refusal>
    ensures { result ≡ Spec.verdict (Spec.unwritable
        (record { lengths = frames.entry.sizes.now; octets = frames.entry.octets.now })) }
{
    if FRAMES_MAX < frames.sizes.len() || OCTETS_MAX < frames.octets.len() {
        return Err(Refusal::OverLimit);
    }
    weigh(frames.sizes, frames.octets.len())
}

// Frames from their lengths and their joined octets, lent by themselves as in the C interface. Gives how many octets are written.
pub fn write(lengths: &[u16], joined: &[u8], output: &mut [u8]) -> Result<usize, Refusal>
    ensures { ◌≡◌ {A = Spec.Wrote} (record { answer = result; output = output.new })
        (Spec.write (record { lengths = lengths.now; octets = joined.now }) output.old) }
{
    unwritable(Frames {
        sizes: lengths,
        octets: joined,
    })?;
    let n = lengths.len();
    let m = joined.len();
    let start = octets_start(n);
    let total = start + m;
    if output.len() < total {
        return Err(Refusal::ShortOutput);
    }
    octets::put_number(output, 0, n as u32);
    octets::put_pairs(output, 4, lengths);
    octets::put_number(output, start - 4, m as u32);
    octets::copy_long(output, start, joined);
    Ok(total)
}
