// The sender's calls, on an image of its state.
ghost use Rattle.std.specs.Prelude.{◌≡◌, List, ℕ};
ghost use Rattle.wire.specs.declared.Version.TheVariants.{Draft00, Draft02};
ghost use Rattle.board.specs.Sender as Spec;

use images::sending::IMAGE_SIZE;
use wire::Version;

// Makes the image of a fresh sender of a draft. Each start has a name of its own in C.
fn begin(version: Version, state: &mut [u8; IMAGE_SIZE], size: u64, first: u32) -> u32
    ensures { ◌≡◌ {A = ℕ × List ℕ} (result, state.new) (Spec.started version state.old size first) }
{
    match sender::start_as(version, size as usize, first) {
        Ok(made) => {
            images::sending::put_state(state, made);
            0
        }
        Err(refusal) => u32::from(refusal),
    }
}

pub fn btpu_sender_start(state: &mut [u8; IMAGE_SIZE], size: u64, first: u32) -> u32
    ensures { ◌≡◌ {A = ℕ × List ℕ} (result, state.new) (Spec.started Draft02 state.old size first) }
{
    begin(Version::Draft02, state, size, first)
}

pub fn btpu_sender_start_00(state: &mut [u8; IMAGE_SIZE], size: u64, first: u32) -> u32
    ensures { ◌≡◌ {A = ℕ × List ℕ} (result, state.new) (Spec.started Draft00 state.old size first) }
{
    begin(Version::Draft00, state, size, first)
}

// Whether an image is a sound state.
pub fn btpu_sender_check(state: &[u8; IMAGE_SIZE]) -> u32
    ensures { result ≡ Spec.checked state.now }
{
    let Some(s) = images::sending::read(state) else {
        return 1;
    };
    if sender::sound(s) { 0 } else { 1 }
}

// Placing a bundle, on an image.
pub fn btpu_place(
    state: &mut [u8; IMAGE_SIZE],
    bundle: &[u8],
    frame: &mut [u8],
    res: &mut [u64; 4],
) -> u32
    ensures { record { status = result; image = state.new; frame = frame.new; result = res.new }
        ≡ Spec.placed_by state.old bundle.now frame.old res.old }
{
    let Some(mut s) = images::sending::read(state) else {
        return 1;
    };
    let answer = sender::place(&mut s, bundle, frame);
    answers::sending::finish(state, answer, s, res)
}

// Cancelling the transfer begun, on an image.
pub fn btpu_cancel(state: &mut [u8; IMAGE_SIZE], frame: &mut [u8], res: &mut [u64; 4]) -> u32
    ensures { record { status = result; image = state.new; frame = frame.new; result = res.new }
        ≡ Spec.cancelled_by state.old frame.old res.old }
{
    let Some(mut s) = images::sending::read(state) else {
        return 1;
    };
    let answer = sender::cancel(&mut s, frame);
    answers::sending::finish(state, answer, s, res)
}

// Flushing, on an image.
pub fn btpu_flush(state: &mut [u8; IMAGE_SIZE], frame: &mut [u8], res: &mut [u64; 4]) -> u32
    ensures { record { status = result; image = state.new; frame = frame.new; result = res.new }
        ≡ Spec.flushed_by state.old frame.old res.old }
{
    let Some(mut s) = images::sending::read(state) else {
        return 1;
    };
    let answer = sender::flush(&mut s, frame);
    answers::sending::finish(state, answer, s, res)
}
