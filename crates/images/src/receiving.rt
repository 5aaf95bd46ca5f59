// The receiver's state as an image.
ghost use Rattle.std.specs.Prelude.{◌≡◌, ◌+◌, ◌*◌, ◌≤◌, length, drop};
ghost use Rattle.octets.specs.Octets.{put};
ghost use Rattle.rows.specs.State.{row_max};
ghost use Rattle.images.specs.Receiver as Spec;
ghost use Rattle.images.specs.Receiver.{row_size};

use pieces::INDEX_COUNT;
use row::{Phase, Row};
use rows::{Settings, State};
use wire::Version;

// The octets of an image and of a row in it, where the first row starts, and how many rows there are.
pub const IMAGE_SIZE: usize = 3144;

const ROW_SIZE: usize = 196;

const ROWS: usize = 8;

const ROW_COUNT: usize = 16;

// Codes of an image alone, so no From or TryFrom of the types, which know no image.
fn phase_of(code: u8) -> Phase
    ensures { result ≡ Spec.phase_of code }
{
    match code {
        1 => Phase::Open,
        2 => Phase::Done,
        3 => Phase::Cancelled,
        4 => Phase::Abandoned,
        _ => Phase::Free,
    }
}

fn phase_code(phase: Phase) -> u8
    ensures { result ≡ Spec.phase_code phase }
{
    match phase {
        Phase::Free => 0,
        Phase::Open => 1,
        Phase::Done => 2,
        Phase::Cancelled => 3,
        Phase::Abandoned => 4,
    }
}

pub fn version_of(code: u8) -> Version
    ensures { result ≡ Spec.version_of code }
{
    match code {
        1 => Version::Draft00,
        _ => Version::Draft02,
    }
}

pub fn version_code(version: Version) -> u8
    ensures { result ≡ Spec.version_code version }
{
    match version {
        Version::Draft00 => 1,
        Version::Draft02 => 0,
    }
}

fn indexes_of(octets: &[u8]) -> [u8; INDEX_COUNT]
    requires { length octets.now ≡ 64 }
    ensures { result ≡ octets.now }
{
    let mut indexes = [0; INDEX_COUNT];
    indexes.copy_from_slice(octets);
    indexes
}

fn is_row(octets: &[u8; ROW_SIZE]) -> bool
    ensures { result ≡ Spec.is_row octets.now }
{
    octets[0] <= 4 && octets[1] <= 1
}

fn row_of(octets: &[u8; ROW_SIZE]) -> Row
    ensures { result ≡ Spec.row_of octets.now }
{
    Row {
        phase: phase_of(octets[0]),
        known: octets[1] == 1,
        last: octets[2],
        held: octets[3] as usize,
        indexes: indexes_of(&octets[4..68]),
        lengths: octets::read_pairs(&octets[68..]),
    }
}

pub fn is_image(image: &[u8; IMAGE_SIZE]) -> bool
    ensures { result ≡ Spec.is_image image.now }
{
    let (parts, _) = image[ROWS..].as_chunks::<ROW_SIZE>();
    image[0] <= 1 && image[2] <= 1 && image[3] == 0 && parts.iter().all(is_row)
}

// The rows are stored where they stay: an array of them that goes by value is copied.
pub fn state_of(image: &[u8; IMAGE_SIZE]) -> State
    ensures { result ≡ Spec.state_of image.now }
{
    let mut state = State {
        present: image[0] == 1,
        greatest: octets::number_at(image, 4),
        rows: [row::empty_row(Phase::Free); ROW_COUNT],
        settings: Settings {
            version: version_of(image[2]),
            window: image[1] as u32,
        },
    };
    let (parts, _) = image[ROWS..].as_chunks::<ROW_SIZE>();
    for (k, row) in state.rows.iter_mut().enumerate() {
        *row = row_of(&parts[k]);
    }
    state
}

// The remainder says which bits stay: a cast that loses bits is not proved.
fn put_row(image: &mut [u8], at: usize, row: Row)
    requires { at + row_size ≤ length image.old }
    ensures { (image.new ≡ put image.old at (Spec.row_image row)) × (length (Spec.row_image row) ≡ row_size) }
{
    let code = phase_code(row.phase);
    let known = u8::from(row.known);
    let held = (row.held % 256) as u8;
    octets::put_array(image, at, [code, known, row.last, held]);
    octets::copy_into(image, at + 4, &row.indexes);
    octets::put_pairs(image, at + 68, &row.lengths);
}

// By places, since `chunks_mut` does not say what the image ends as.
fn put_rows(image: &mut [u8; IMAGE_SIZE], rows: [Row; ROW_COUNT])
    ensures { (image.new ≡ put image.old 8 (Spec.rows_image rows)) × (length (Spec.rows_image rows) ≡ row_max * row_size) }
{
    for (k, row) in rows.iter().enumerate() {
        put_row(image, ROWS + k * ROW_SIZE, *row);
    }
}

pub fn put_state(image: &mut [u8; IMAGE_SIZE], state: State)
    ensures { image.new ≡ Spec.image_of state }
{
    let present = u8::from(state.present);
    let window = (state.settings.window % 256) as u8;
    let draft = version_code(state.settings.version);
    octets::put_array(image, 0, [present, window, draft, 0]);
    octets::put_number(image, 4, state.greatest);
    put_rows(image, state.rows);
}
