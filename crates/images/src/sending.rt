// The sender's state as an image.
ghost use Rattle.std.specs.Prelude.{◌≡◌, ◌+◌, ◌≤◌, length};
ghost use Rattle.octets.specs.Octets.{put, be16};
ghost use Rattle.images.specs.Sender as Spec;

use crate::receiving::{version_code, version_of};
use framing::State;

pub const IMAGE_SIZE: usize = 24;

pub fn is_image(image: &[u8; IMAGE_SIZE]) -> bool
    ensures { result ≡ Spec.is_image image.now }
{
    image[8] <= 1 && image[9] <= 1 && image[10] == 0 && image[11] == 0
}

pub fn state_of(image: &[u8; IMAGE_SIZE]) -> State
    ensures { result ≡ Spec.state_of image.now }
{
    State {
        size: octets::number16_at(image, 0) as usize,
        fill: octets::number16_at(image, 2) as usize,
        next: octets::number_at(image, 4),
        begun: image[8] == 1,
        number: octets::number_at(image, 12),
        length: octets::number16_at(image, 16) as usize,
        placed: octets::number16_at(image, 18) as usize,
        index: octets::number_at(image, 20),
        version: version_of(image[9]),
    }
}

// The state, if the octets are the image of one, sound or not.
pub fn read(image: &[u8; IMAGE_SIZE]) -> Option<State>
    ensures { result ≡ Spec.read image.now }
{
    is_image(image).then(|| state_of(image))
}

// The last 16 bits of a number, from `at` on. By the remainder: a cast that loses bits is not proved.
fn put_low(to: &mut [u8], at: usize, n: usize)
    requires { at + 2 ≤ length to.old }
    ensures { to.new ≡ put to.old at (be16 n) }
{
    octets::put_number16(to, at, (n % 65536) as u16);
}

pub fn put_state(image: &mut [u8; IMAGE_SIZE], state: State)
    ensures { image.new ≡ Spec.image_of state }
{
    let begun = u8::from(state.begun);
    let draft = version_code(state.version);
    put_low(image, 0, state.size);
    put_low(image, 2, state.fill);
    octets::put_number(image, 4, state.next);
    octets::put_array(image, 8, [begun, draft, 0, 0]);
    octets::put_number(image, 12, state.number);
    put_low(image, 16, state.length);
    put_low(image, 18, state.placed);
    octets::put_number(image, 20, state.index);
}
