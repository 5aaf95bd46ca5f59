// A sender's state, the answers of its calls, and the steps that add one message or one padding to its frame (document 01, "Sending calls").
#![tactic(auto)]

ghost use Rattle.std.specs.Prelude.{◌≡◌, ℕ, ◌+◌, ◌-◌, ◌<◌, ◌≤◌, List, length, Ok};
ghost use Rattle.wire.specs.Message as Message;
ghost use Rattle.framing.specs.Answers.{refusal_number, outcome};
ghost use Rattle.framing.specs.Placing as Placing;

use wire::Version;

// A sender: frame size P, fill f, the next transfer number, the transfer begun if there is one, and the draft. The transfer is no Option: a
// state in which its entries do not fit `begun` is one that `sender::sound` refuses.
#[derive(Clone, Copy)]
pub struct State {
    pub size: usize,
    pub fill: usize,
    pub next: u32,
    pub begun: bool,
    pub number: u32,
    pub length: usize,
    pub placed: usize,
    pub index: u32,
    pub version: Version,
}

// Refusals 1 and 10 to 14 of document 01, in that order.
#[derive(Clone, Copy)]
pub enum Refusal {
    Unsound,
    WrongBuffer,
    BundleSize,
    OtherLength,
    NoTransfer,
    FrameSize,
}

#[derive(Clone, Copy)]
pub enum Answer {
    Placed,
    PlacedReady,
    Ready,
    Nothing,
}

// Document 01's number of a refusal.
impl From<Refusal> for u32 {
    ghost from_gives = { λ refusal n. n ≡ refusal_number refusal };

    fn from(refusal: Refusal) -> u32 {
        match refusal {
            Refusal::Unsound => 1,
            Refusal::WrongBuffer => 10,
            Refusal::BundleSize => 11,
            Refusal::OtherLength => 12,
            Refusal::NoTransfer => 13,
            Refusal::FrameSize => 14,
        }
    }
}

impl State {
    fn ended(self) -> State
        ensures { result ≡ Placing.ended self }
    {
        State {
            begun: false,
            number: 0,
            length: 0,
            placed: 0,
            index: 0,
            ..self
        }
    }

    // The transfer begun, or one that takes the next number. By value: a piece is marked by the state before and numbered by the one after.
    fn numbered(self) -> State
        ensures { result ≡ Placing.numbered self }
    {
        if self.begun {
            return self;
        }
        State {
            next: self.next.wrapping_add(1),
            begun: true,
            number: self.next,
            ..self
        }
    }

    // n octets more of a bundle of a length, and the index of the next piece.
    fn continued(self, length: usize, n: usize, index: u32) -> State
        requires { self.placed + n ≤ Placing.bundle_max }
        ensures { result ≡ Placing.continued self length n index }
    {
        State {
            begun: true,
            length,
            placed: self.placed + n,
            index,
            ..self
        }
    }

    // The index of the next piece of a bundle.
    fn piece_index(self, length: usize) -> u32
        requires { (self.fill + 13 ≤ self.size) × (self.size < length + 4) × (length ≤ Placing.bundle_max) × (self.index ≤ 64) }
        ensures { (result ≡ Placing.piece_index self length) × (result ≤ 8192) }
    {
        match self.version {
            Version::Draft00 if !self.begun => {
                start_index(self.size, self.size - self.fill - 12, length)
            }
            _ => self.index,
        }
    }
}

// The index of a start, which carries `most` octets.
fn start_index(size: usize, most: usize, length: usize) -> u32
    requires { (13 ≤ size) × (most ≤ length) × (length ≤ Placing.bundle_max) }
    ensures { (result ≡ Placing.rounded_up (length - most) (size - 12)) × (result ≤ 8192) }
{
    (length - most).div_ceil(size - 12) as u32
}

fn next_index(version: Version, index: u32) -> u32
    requires { index ≤ 8192 }
    ensures { result ≡ Placing.next_index version index }
{
    match version {
        Version::Draft00 => index.saturating_sub(1),
        Version::Draft02 => index + 1,
    }
}

// Whether a piece is an end, or a start.
fn marks(version: Version, begun: bool, last: bool) -> bool
    ensures { result ≡ Placing.marks version begun last }
{
    match version {
        Version::Draft00 => !begun,
        Version::Draft02 => last,
    }
}

// Counts n octets more in the frame, which is ready where they fill it. No step refuses: the calls of `sender` have tested before.
fn advanced(s: &mut State, n: usize) -> Answer
    requires { s.old.fill + n ≤ s.old.size }
    ensures { (d : List ℕ) → outcome (Ok result) s.new d ≡ Placing.advanced s.old n d }
{
    s.fill += n;
    if s.fill == s.size {
        s.fill = 0;
        return Answer::PlacedReady;
    }
    Answer::Placed
}

// The bounds stand in clauses, here and below, and in no type: a State holds what `sender::sound` refuses.
pub fn close(s: &mut State, frame: &mut [u8]) -> Answer
    requires { (s.old.fill ≤ s.old.size) × (s.old.size ≤ 2048) × (length frame.old ≡ s.old.size) }
    ensures { outcome (Ok result) s.new frame.new ≡ Placing.closed s.old frame.old }
{
    writing::put_padding(frame, s.fill);
    s.fill = 0;
    Answer::Ready
}

// The next piece of the bundle, in a room for its header, number and index.
fn place_piece(s: &mut State, bundle: &[u8], frame: &mut [u8]) -> Answer
    requires fill_bound { (s.old.fill + 13 ≤ s.old.size) × (s.old.size ≤ length frame.old) × (s.old.size < length bundle.now + 4) }
    requires placed_in_bounds { (s.old.placed < length bundle.now) × (length bundle.now ≤ Placing.bundle_max) × (s.old.index ≤ 64) }
    ensures { outcome (Ok result) s.new frame.new ≡ Placing.place_piece s.old bundle.now frame.old }
{
    let rest = &bundle[s.placed..];
    let most = s.size - s.fill - 12;
    let t = s.numbered();
    let index = s.piece_index(bundle.len());
    if rest.len() <= most {
        let ending = marks(s.version, s.begun, true);
        writing::put_piece(s.version, frame, s.fill, ending, t.number, index, rest);
        *s = t.ended();
        return advanced(s, rest.len() + 12);
    }
    let ending = marks(s.version, s.begun, false);
    writing::put_piece(
        s.version,
        frame,
        s.fill,
        ending,
        t.number,
        index,
        &rest[..most],
    );
    let next = next_index(s.version, index);
    *s = t.continued(bundle.len(), most, next);
    advanced(s, most + 12)
}

fn tight(room: usize) -> bool
    ensures { result ≡ Placing.tight room }
{
    room < 13
}

pub fn placing(s: &mut State, bundle: &[u8], frame: &mut [u8]) -> Answer
    requires fill_lt_size { (s.old.fill < s.old.size) × (s.old.size ≤ 2048) × (length frame.old ≡ s.old.size) }
    requires placed_in_bounds { (s.old.placed < length bundle.now) × (length bundle.now ≤ Placing.bundle_max) × (s.old.index ≤ 64) }
    ensures { outcome (Ok result) s.new frame.new ≡ Placing.placing s.old bundle.now frame.old }
{
    let n = bundle.len() + 4;
    let room = s.size - s.fill;
    if n <= room {
        writing::put_bundle(frame, s.fill, bundle);
        advanced(s, n)
    } else if n <= s.size || tight(room) {
        close(s, frame)
    } else {
        place_piece(s, bundle, frame)
    }
}

// A cancel for the transfer begun, which ends.
pub fn cancelling(s: &mut State, frame: &mut [u8]) -> Answer
    requires { (s.old.fill + 8 ≤ s.old.size) × (s.old.size ≤ length frame.old) }
    ensures { outcome (Ok result) s.new frame.new ≡ Placing.added (Placing.ended s.old) (Message.cancel s.old.number) frame.old }
{
    writing::put_cancel(frame, s.fill, s.number);
    *s = s.ended();
    advanced(s, 8)
}
