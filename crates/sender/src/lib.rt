// The sending calls of document 01, "Sending calls".
#![tactic(auto)]

ghost use Rattle.std.specs.Prelude.{◌≡◌, ◌≤◌, ◌<◌, []};
ghost use Rattle.wire.specs.declared.Version.TheVariants.{Draft02};
ghost use Rattle.framing.specs.Answers.{outcome};
ghost use Rattle.framing.specs.Placing.{bundle_max};
ghost use Rattle.sender.specs.Answers.{start_reply, given, first_of};
ghost use Rattle.sender.specs.Sound as Sound;
ghost use Rattle.sender.specs.Calls as Calls;

pub use framing::{Answer, Refusal, State};
use wire::Version;

const BUNDLE_MAX: usize = 4096;

fn sized(size: usize) -> bool
    ensures { result ≡ Sound.sized size }
{
    (128..=2048).contains(&size)
}

fn ranges(s: State) -> bool
    ensures { result ≡ Sound.ranges s }
{
    sized(s.size) && s.fill < s.size
}

fn cleared(s: State) -> bool
    ensures { result ≡ Sound.cleared s }
{
    s.number == 0 && s.length == 0 && s.placed == 0 && s.index == 0
}

fn under_way(s: State) -> bool
    requires { 4 ≤ s.size }
    ensures { result ≡ Sound.under_way s }
{
    s.fill == 0
        && s.size - 4 < s.length
        && s.length <= BUNDLE_MAX
        && 1 <= s.placed
        && s.placed < s.length
}

fn pieces_left(s: State) -> usize
    requires { (13 ≤ s.size) × (s.placed < s.length) × (s.length ≤ bundle_max) }
    ensures { (result ≡ Sound.pieces_left s) × (1 ≤ result) × (result ≤ 8192) }
{
    (s.length - s.placed).div_ceil(s.size - 12)
}

fn indexed(s: State) -> bool
    requires { (13 ≤ s.size) × (s.placed < s.length) × (s.length ≤ bundle_max) }
    ensures { result ≡ Sound.indexed s }
{
    let left = pieces_left(s);
    let index = s.index as usize;
    match s.version {
        Version::Draft00 => index == left - 1,
        Version::Draft02 => 1 <= index && index + left <= 64,
    }
}

pub fn sound(s: State) -> bool
    ensures { result ≡ Sound.sound s }
{
    ranges(s)
        && if s.begun {
            under_way(s) && indexed(s)
        } else {
            cleared(s)
        }
}

// A sender of either draft.
pub fn start_as(version: Version, size: usize, first: u32) -> Result<State, Refusal>
    ensures { start_reply result ≡ Calls.start version size first }
{
    if !sized(size) {
        return Err(Refusal::FrameSize);
    }
    Ok(State {
        size,
        fill: 0,
        next: first,
        begun: false,
        number: 0,
        length: 0,
        placed: 0,
        index: 0,
        version,
    })
}

pub fn start(size: usize, first: u32) -> Result<State, Refusal>
    ensures { start_reply result ≡ Calls.start Draft02 size first }
{
    start_as(Version::Draft02, size, first)
}

// The cases that all calls on a state share.
fn admit(s: State, frame: &[u8]) -> Result<(), Refusal>
    ensures { given result ≡ first_of (Calls.common s frame.now []) }
{
    if !sound(s) {
        return Err(Refusal::Unsound);
    }
    if frame.len() != s.size {
        return Err(Refusal::WrongBuffer);
    }
    Ok(())
}

fn admit_bundle(s: State, bundle: &[u8], frame: &[u8]) -> Result<(), Refusal>
    ensures { given result ≡ first_of (Calls.place_cases s bundle.now frame.now) }
{
    admit(s, frame)?;
    if bundle.is_empty() || bundle.len() > BUNDLE_MAX {
        return Err(Refusal::BundleSize);
    }
    if s.begun && bundle.len() != s.length {
        return Err(Refusal::OtherLength);
    }
    Ok(())
}

fn admit_cancel(s: State, frame: &[u8]) -> Result<(), Refusal>
    ensures { given result ≡ first_of (Calls.cancel_cases s frame.now) }
{
    admit(s, frame)?;
    if !s.begun {
        return Err(Refusal::NoTransfer);
    }
    Ok(())
}

pub fn place(s: &mut State, bundle: &[u8], frame: &mut [u8]) -> Result<Answer, Refusal>
    ensures { outcome result s.new frame.new ≡ Calls.place s.old bundle.now frame.old }
{
    admit_bundle(*s, bundle, frame)?;
    Ok(framing::placing(s, bundle, frame))
}

pub fn cancel(s: &mut State, frame: &mut [u8]) -> Result<Answer, Refusal>
    ensures { outcome result s.new frame.new ≡ Calls.cancel s.old frame.old }
{
    admit_cancel(*s, frame)?;
    Ok(framing::cancelling(s, frame))
}

pub fn flush(s: &mut State, frame: &mut [u8]) -> Result<Answer, Refusal>
    ensures { outcome result s.new frame.new ≡ Calls.flush s.old frame.old }
{
    admit(*s, frame)?;
    if s.fill == 0 {
        return Ok(Answer::Nothing);
    }
    Ok(framing::close(s, frame))
}
