// The receiver's calls, on an image of its state.
ghost use Rattle.std.specs.Prelude.{◌≡◌, List, ℕ};
ghost use Rattle.wire.specs.declared.Version.TheVariants.{Draft00, Draft02};
ghost use Rattle.window.specs.Window.{plain_window};
ghost use Rattle.board.specs.Receiver as Spec;

use images::receiving::IMAGE_SIZE;
use wire::Version;

// Makes the image of a fresh receiver of a draft, with a window of 4, 8 or 16. A trait over this and a sender's, with other images, would
// be longer than both.
fn begin(version: Version, state: &mut [u8; IMAGE_SIZE], window: u32) -> u32
    ensures { ◌≡◌ {A = ℕ × List ℕ} (result, state.new) (Spec.started version state.old window) }
{
    match receiver::start_as(version, window) {
        Ok(fresh) => {
            images::receiving::put_state(state, fresh);
            0
        }
        Err(refusal) => u32::from(refusal),
    }
}

// A receiver of draft 02 with the plain window. Each start has a name of its own in C.
pub fn btpu_receiver_start(state: &mut [u8; IMAGE_SIZE]) -> u32
    ensures { ◌≡◌ {A = ℕ × List ℕ} (result, state.new) (Spec.started Draft02 state.old plain_window) }
{
    begin(Version::Draft02, state, window::PLAIN)
}

pub fn btpu_receiver_start_window(state: &mut [u8; IMAGE_SIZE], window: u32) -> u32
    ensures { ◌≡◌ {A = ℕ × List ℕ} (result, state.new) (Spec.started Draft02 state.old window) }
{
    begin(Version::Draft02, state, window)
}

pub fn btpu_receiver_start_00(state: &mut [u8; IMAGE_SIZE], window: u32) -> u32
    ensures { ◌≡◌ {A = ℕ × List ℕ} (result, state.new) (Spec.started Draft00 state.old window) }
{
    begin(Version::Draft00, state, window)
}

// Whether an image is a sound state.
#[tactic(auto, unfolding(crate::specs::Receiver::checked))]
pub fn btpu_receiver_check(state: &[u8; IMAGE_SIZE]) -> u32
    ensures { result ≡ Spec.checked state.now }
{
    if images::receiving::is_image(state) && rows::is_sound(&images::receiving::state_of(state)) {
        0
    } else {
        1
    }
}

// The receiving call on an image.
pub fn btpu_receive(
    state: &mut [u8; IMAGE_SIZE],
    pool: &mut [u8],
    frame: &[u8],
    place: u64,
    output: &mut [u8],
    res: &mut [u64; 4],
) -> u32
    ensures { record { status = result; image = state.new; pool = pool.new; output = output.new; result = res.new }
        ≡ Spec.received state.old pool.old frame.now place output.old res.old }
{
    // Read as an Option, the state would be copied twice more, and a call would take a third longer.
    if !images::receiving::is_image(state) {
        return 1;
    }
    let mut s = images::receiving::state_of(state);
    let answer = receiver::receive(&mut s, pool, frame, place as usize, output);
    answers::receiving::finish(state, answer, s, res)
}
