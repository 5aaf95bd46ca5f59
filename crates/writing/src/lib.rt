// Writing the messages of a sender at an offset of a frame buffer.
#![tactic(auto)]

ghost use Rattle.std.specs.Prelude.{◌≡◌, ◌+◌, ◌-◌, ◌≤◌, ◌<◌, length};
ghost use Rattle.wire.specs.declared.Version.{Version};
ghost use Rattle.octets.specs.Octets.{put};
ghost use Rattle.wire.specs.Message.{bundle, cancel};
ghost use Rattle.writing.specs.Written.{type_of, piece_kind, header, written, piece, padding};

use wire::Version;

const PADDING: u8 = 1;

const BUNDLE: u8 = 2;

const CANCEL: u8 = 5;

// The two drafts exchange the types of a segment, and of an end or a start.
fn piece_type(version: Version, ending: bool) -> u8
    ensures { result ≡ type_of version (piece_kind ending) }
{
    match (version, ending) {
        (Version::Draft00, true) | (Version::Draft02, false) => 3,
        (Version::Draft00, false) | (Version::Draft02, true) => 4,
    }
}

fn put_header(frame: &mut [u8], at: usize, a: u8, n: usize)
    requires { (at + 4 ≤ length frame.old) × (n < 1048576) }
    ensures { frame.new ≡ put frame.old at (header a n) }
{
    let [_, b, c, d] = (n as u32).to_be_bytes();
    octets::put_array(frame, at, [a, b, c, d]);
}

// Alike in both drafts.
pub fn put_bundle(frame: &mut [u8], at: usize, content: &[u8])
    requires { (at + 4 + length content.now ≤ length frame.old) × (length content.now < 1048576) }
    ensures { (v : Version) → frame.new ≡ put frame.old at (written v (bundle content.now)) }
{
    put_header(frame, at, BUNDLE, content.len());
    octets::copy_into(frame, at + 4, content);
}

// A transfer end, in draft 00 the start, or a transfer segment.
pub fn put_piece(
    version: Version,
    frame: &mut [u8],
    at: usize,
    ending: bool,
    number: u32,
    index: u32,
    part: &[u8],
)
    requires { (at + 12 + length part.now ≤ length frame.old) × (8 + length part.now < 1048576) }
    ensures { frame.new ≡ put frame.old at (written version (piece ending number index part.now)) }
{
    put_header(frame, at, piece_type(version, ending), 8 + part.len());
    octets::put_number(frame, at + 4, number);
    octets::put_number(frame, at + 8, index);
    octets::copy_into(frame, at + 12, part);
}

// Alike in both drafts.
pub fn put_cancel(frame: &mut [u8], at: usize, number: u32)
    requires { at + 8 ≤ length frame.old }
    ensures { (v : Version) → frame.new ≡ put frame.old at (written v (cancel number)) }
{
    put_header(frame, at, CANCEL, 4);
    octets::put_number(frame, at + 4, number);
}

// Closes the frame from `at` on.
pub fn put_padding(frame: &mut [u8], at: usize)
    requires { (at ≤ length frame.old) × (length frame.old ≤ 1048576) }
    ensures { frame.new ≡ put frame.old at (padding (length frame.old - at)) }
{
    let room = frame.len() - at;
    if room < 4 {
        octets::zero_from(frame, at);
        return;
    }
    put_header(frame, at, PADDING, room - 4);
    octets::zero_from(frame, at + 4);
}
