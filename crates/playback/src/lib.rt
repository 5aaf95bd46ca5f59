// Playback of a recording on a fresh receiver (document 02, E1).
#![tactic(auto)]

ghost use Rattle.std.specs.Prelude.{◌≡◌, ◌≤◌, length, Ok};
ghost use Rattle.octets.specs.Octets.{sum_of};
ghost use Rattle.recording.specs.Recording.{frames_max, octets_max};
ghost use Rattle.frames.specs.Frames.{frames_of};
ghost use Rattle.playback.specs.Call as Call;
ghost use Rattle.playback.specs.declared.Refusal.TheVariants.{Unreadable};

use frames::Reached;
use messages::Limits;
use recording::{FRAMES_MAX, OCTETS_MAX};
use wire::{Frames, Version};

// A playback's window and pool.
const WINDOW: u32 = 16;

const POOL: usize = 65536;

// The most bundles: each takes up four octets of a recording at least. So the limit is never reached.
const BUNDLES_MAX: usize = 15360;

const BUNDLES_LIMIT: usize = 15361;

// Room for the bundles of a whole playback, and for one more, which the message loop asks for before each message.
const BUFFER: usize = 65536;

// Refusals 16 to 20, then 2, then 24.
#[derive(Clone, Copy)]
pub enum Refusal {
    Unreadable(recording::Refusal),
    PoolSize,
    ShortOutput,
}

impl From<recording::Refusal> for Refusal {
    ghost from_gives = { λ reading refusal. refusal ≡ Unreadable reading };

    fn from(reading: recording::Refusal) -> Refusal {
        Refusal::Unreadable(reading)
    }
}

impl From<Refusal> for u32 {
    ghost from_gives = { λ refusal n. n ≡ Call.refusal_number refusal };

    fn from(refusal: Refusal) -> u32 {
        match refusal {
            Refusal::Unreadable(reading) => u32::from(reading),
            Refusal::PoolSize => 2,
            Refusal::ShortOutput => 24,
        }
    }
}

// How many messages were treated, how many bundles and octets of them are out, and how many frames were refused.
#[derive(Clone, Copy)]
pub struct Played {
    pub messages: usize,
    pub bundles: usize,
    pub octets: usize,
    pub refused: usize,
}

// Frames on a fresh receiver, with the bundles into a buffer.
fn play_frames(
    frames: Frames,
    limit: usize,
    pool: &mut [u8],
    buffer: &mut [u8],
    lengths: &mut [u16],
    places: &mut [u32],
    reasons: &mut [u32],
) -> Reached
    requires { (Call.Enough frames.sizes.now frames.octets.now pool.old
        (Call.results buffer.old lengths.old places.old reasons.old))
        × (length buffer.old ≡ Call.buffer_size) }
    ensures { (Call.came result pool.new (Call.results buffer.new lengths.new places.new reasons.new)
        ≡ Call.answered
        (Call.played_fresh limit pool.old (frames_of frames.entry.sizes.now frames.entry.octets.now))
        (Call.results buffer.old lengths.old places.old reasons.old))
        × (result.progress.used ≤ octets_max) }
{
    let mut numbers = [0u64; 1];
    let limits = Limits {
        messages: limit,
        bundles: BUNDLES_LIMIT,
    };
    let mut state = receiver::start_as(Version::Draft02, WINDOW).unwrap();
    frames::run_frames(
        &mut state,
        pool,
        frames,
        0,
        messages::begun(0),
        buffer,
        lengths,
        &mut numbers,
        places,
        reasons,
        limits,
    )
}

// The same, with the bundles copied from the buffer to the output.
fn play_buffered(
    frames: Frames,
    limit: usize,
    buffer: &mut [u8],
    pool: &mut [u8],
    output: &mut [u8],
    lengths: &mut [u16],
    places: &mut [u32],
    reasons: &mut [u32],
) -> Played
    requires { (Call.Enough frames.sizes.now frames.octets.now pool.old
        (Call.results output.old lengths.old places.old reasons.old))
        × (length buffer.old ≡ Call.buffer_size)
        × (octets_max ≤ length output.old) }
    ensures { Call.reply (Ok result) pool.new (Call.results output.new lengths.new places.new reasons.new)
        ≡ Call.answered
        (Call.played_fresh limit pool.old (frames_of frames.entry.sizes.now frames.entry.octets.now))
        (Call.results output.old lengths.old places.old reasons.old) }
{
    let reached = play_frames(frames, limit, pool, buffer, lengths, places, reasons);
    let progress = reached.progress;
    octets::copy_into(output, 0, &buffer[..progress.used]);
    Played {
        messages: progress.treated,
        bundles: progress.count,
        octets: progress.used,
        refused: reached.refused,
    }
}

// The same, if enough is lent for the results.
fn play_open(
    frames: Frames,
    limit: usize,
    pool: &mut [u8],
    output: &mut [u8],
    lengths: &mut [u16],
    places: &mut [u32],
    reasons: &mut [u32],
) -> Result<Played, Refusal>
    requires { (length frames.sizes.now ≤ frames_max)
        × (sum_of frames.sizes.now ≤ length frames.octets.now)
        × (length frames.octets.now ≤ octets_max) }
    ensures { Call.reply result pool.new (Call.results output.new lengths.new places.new reasons.new)
        ≡ Call.play_frames
        (record { lengths = frames.entry.sizes.now; octets = frames.entry.octets.now }) limit pool.old
        (Call.results output.old lengths.old places.old reasons.old) }
{
    if pool.len() != POOL {
        return Err(Refusal::PoolSize);
    }
    if output.len() < OCTETS_MAX
        || lengths.len() < BUNDLES_MAX
        || places.len() < FRAMES_MAX
        || reasons.len() < FRAMES_MAX
    {
        return Err(Refusal::ShortOutput);
    }
    let mut buffer = [0u8; BUFFER];
    Ok(play_buffered(
        frames,
        limit,
        &mut buffer,
        pool,
        output,
        lengths,
        places,
        reasons,
    ))
}

// Plays a recording, up to so many messages. Takes 65,536 octets of the stack for the bundles.
pub fn play(
    recording: &[u8],
    limit: usize,
    pool: &mut [u8],
    output: &mut [u8],
    lengths: &mut [u16],
    places: &mut [u32],
    reasons: &mut [u32],
) -> Result<Played, Refusal>
    ensures { Call.reply result pool.new (Call.results output.new lengths.new places.new reasons.new)
        ≡ Call.play recording.now limit pool.old
        (Call.results output.old lengths.old places.old reasons.old) }
{
    let opened = recording::open(recording)?;
    let sizes = &opened.lengths[..opened.frames];
    let octets = recording::octets_of(recording, opened.frames);
    play_open(
        Frames { sizes, octets },
        limit,
        pool,
        output,
        lengths,
        places,
        reasons,
    )
}
