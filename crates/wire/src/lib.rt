// The messages of a frame: reading one, checking a whole frame (document 01, "Octets of a frame").
#![tactic(auto)]

ghost use Rattle.std.specs.Prelude.{◌≡◌, ◌+◌, ◌≤◌, ◌<◌, length, drop};
ghost use Rattle.wire.specs.Message.{answer, fault_number};
ghost use Rattle.wire.specs.Layout.{zeros, kind_of, length_field, chain, hints, left, walked, fitting, bodied, read};
ghost use Rattle.wire.specs.Layout as Layout;
ghost use Rattle.wire.specs.Frame.{checked, reading_checked};

// The most octets of a frame.
pub const FRAME_MAX: usize = 2048;

// The drafts of the protocol: document 000, and document 003 as document 01 narrows it.
#[derive(Clone, Copy)]
pub enum Version {
    Draft00,
    Draft02,
}

#[derive(Clone, Copy)]
pub enum Kind {
    Skipped,
    Bundle,
    Segment,
    End,
    Cancel,
}

// Refusals 4, 6, 7 and 8 of document 01, in that order; 5 is never given.
#[derive(Clone, Copy)]
pub enum Fault {
    ShortHeader,
    PastFrame,
    PastMessage,
    BadContent,
}

// A message whose content is frame[start..end]; the next message starts at end.
#[derive(Clone, Copy)]
pub struct Span {
    pub kind: Kind,
    pub start: usize,
    pub end: usize,
}

// Frames one behind another: their sizes and their joined octets.
#[derive(Clone, Copy)]
pub struct Frames<'a> {
    pub sizes: &'a [u16],
    pub octets: &'a [u8],
}

// What speaks against a frame. Malformed: refusals 4 to 8, with the first bad message's start. Misplaced: refusal 9.
#[derive(Clone, Copy)]
pub enum Rejection {
    Malformed(Fault, usize),
    Misplaced,
}

impl From<Fault> for u32 {
    ghost from_gives = { λ fault n. n ≡ fault_number fault };

    fn from(fault: Fault) -> u32 {
        match fault {
            Fault::ShortHeader => 4,
            Fault::PastFrame => 6,
            Fault::PastMessage => 7,
            Fault::BadContent => 8,
        }
    }
}

// How many zero octets stand at the head.
fn zeros(s: &[u8]) -> usize
    ensures { result ≡ zeros s.now }
{
    s.iter().position(|octet| *octet != 0).unwrap_or(s.len())
}

// Types 0, 1 and 6 to 255 are passed over. Document 000, section 7: the start, of type 3, stands for an end.
#[tactic(auto, unfolding(crate::specs::Layout::kind_of))]
fn kind_of(version: Version, code: u8) -> Kind
    ensures { result ≡ kind_of version code }
{
    match version {
        Version::Draft00 => match code {
            2 => Kind::Bundle,
            3 => Kind::End,
            4 => Kind::Segment,
            5 => Kind::Cancel,
            _ => Kind::Skipped,
        },
        Version::Draft02 => match code {
            2 => Kind::Bundle,
            3 => Kind::Segment,
            4 => Kind::End,
            5 => Kind::Cancel,
            _ => Kind::Skipped,
        },
    }
}

// Whether hints follow a header, by its second octet.
fn is_hinted(version: Version, octet: u8) -> bool
    ensures { result ≡ Layout.hinted version octet }
{
    match version {
        Version::Draft00 => false,
        Version::Draft02 => 128 <= octet,
    }
}

// Three octets, of which draft 02 has four bits for flags. (Cut at the end, since the next message waits for the length.)
fn length_field(version: Version, frame: &[u8], at: usize) -> usize
    requires { at + 4 ≤ length frame.now }
    ensures { result ≡ length_field version (drop at frame.now) }
{
    let n = u32::from_be_bytes([0, frame[at + 1], frame[at + 2], frame[at + 3]]) as usize;
    match version {
        Version::Draft00 => n,
        Version::Draft02 => n % 1048576,
    }
}

// Walks the hint chain at the start of s: one more than the octets that it leaves, or 0 where it runs past the end. The walk calls itself on
// what one hint leaves: document 01 names that form. (A number comes back in a register, and the compiler makes a loop of the calls. Of an
// Option or a Result it makes none, and each hint takes 16 octets of the stack.)
fn walk_hints(s: &[u8]) -> usize
    ensures { result ≡ walked (chain (length s.now) s.now) }
{
    if s.len() < 2 {
        return 0;
    }
    let value = s[1] as usize;
    if s.len() - 2 < value {
        return 0;
    }
    if s[0] % 2 == 0 {
        return s.len() - 2 - value + 1;
    }
    let from = 2 + value;
    walk_hints(&s[from..])
}

// How many octets the hints leave of a message, if their chain stays within it.
#[tactic(auto, unfolding(crate::specs::Layout::hints, crate::specs::Layout::left))]
fn after_hints(s: &[u8], hinted: bool) -> Option<usize>
    ensures { result ≡ left (hints hinted s.now) }
{
    if hinted {
        walk_hints(s).checked_sub(1)
    } else {
        Some(s.len())
    }
}

// Whether a content of a length fits its kind.
#[tactic(auto, unfolding(crate::specs::Layout::fitting))]
fn fits(kind: Kind, left: usize) -> bool
    ensures { result ≡ fitting kind left }
{
    match kind {
        Kind::Segment | Kind::End => 8 <= left,
        Kind::Cancel => left == 4,
        Kind::Skipped | Kind::Bundle => true,
    }
}

// The message at a position whose header says that size octets follow it, and they do.
fn read_body(version: Version, frame: &[u8], at: usize, size: usize) -> Result<Span, Fault>
    requires { at + 4 + size ≤ length frame.now }
    ensures { result ≡ answer at (bodied version (drop at frame.now) size) }
{
    let start = at + 4;
    let end = start + size;
    let kind = kind_of(version, frame[at]);
    if let Kind::Skipped = kind {
        return Ok(Span {
            kind,
            start: end,
            end,
        });
    }
    let h = after_hints(&frame[start..end], is_hinted(version, frame[at + 1]));
    let Some(left) = h else {
        return Err(Fault::PastMessage);
    };
    if fits(kind, left) {
        return Ok(Span {
            kind,
            start: end - left,
            end,
        });
    }
    Err(Fault::BadContent)
}

// The message that starts at a position of the frame. Not in the rest of the frame: what is answered names positions.
pub fn read_message(version: Version, frame: &[u8], at: usize) -> Result<Span, Fault>
    requires { at < length frame.now }
    ensures { result ≡ answer at (read version (drop at frame.now)) }
{
    if frame[at] == 0 {
        let end = at + zeros(&frame[at..]);
        return Ok(Span {
            kind: Kind::Skipped,
            start: end,
            end,
        });
    }
    if frame.len() - at < 4 {
        return Err(Fault::ShortHeader);
    }
    let size = length_field(version, frame, at);
    if frame.len() - at - 4 < size {
        return Err(Fault::PastFrame);
    }
    read_body(version, frame, at, size)
}

// What one reading says of its frame.
fn reading_checked(r: Result<Span, Fault>, at: usize) -> Result<(), Rejection>
    ensures { result ≡ reading_checked r at }
{
    match r {
        Ok(_) => Ok(()),
        Err(fault) => Err(Rejection::Malformed(fault, at)),
    }
}

// Reads every message of a frame of any length, and sees whether one starts at the place.
pub fn check_frame(version: Version, frame: &[u8], place: usize) -> Result<(), Rejection>
    ensures { result ≡ checked (read version) frame.now place }
{
    let mut at = 0;
    let mut seen = place == frame.len();
    // A message says where the next one starts, so this is no loop over a range.
    while at < frame.len() {
        seen |= at == place;
        let r = read_message(version, frame, at);
        let Ok(m) = r else {
            return reading_checked(r, at);
        };
        at = m.end;
    }
    if seen {
        return Ok(());
    }
    Err(Rejection::Misplaced)
}
