// The transfer window: how a transfer number stands to the greatest number, and the row that it owns.
#![tactic(auto)]

ghost use Rattle.std.specs.Prelude.{◌≡◌, ◌≤◌, true};
ghost use Rattle.window.specs.Window as Spec;

// New: so many numbers enter the window, this one the last of them.
#[derive(Clone, Copy)]
pub enum Standing {
    Inside,
    New(u32),
    Outside,
}

// A plain start's window.
pub const PLAIN: u32 = 8;

pub fn is_window(window: u32) -> bool
    ensures { result ≡ Spec.is_window window }
{
    matches!(window, 4 | 8 | 16)
}

fn distance(greatest: u32, number: u32) -> u32
    ensures { result ≡ Spec.distance greatest number }
{
    number.wrapping_sub(greatest)
}

// The window's table, by the distance.
fn standing_at(window: u32, d: u32) -> Standing
    requires { (1 ≤ window) × (window ≤ 16) }
    ensures { result ≡ Spec.standing window d }
{
    if d == 0 {
        return Standing::Inside;
    }
    if d <= 2147483647 + window / 2 {
        return Standing::New(d);
    }
    if d <= 4294967295 - (window - 1) {
        return Standing::Outside;
    }
    Standing::Inside
}

// Where a number stands. The window is a number with a clause, here and in `row_of`, and no type that carries it: callers have a number.
pub fn standing_of(window: u32, present: bool, greatest: u32, number: u32) -> Standing
    requires { Spec.is_window window ≡ true }
    ensures { result ≡ Spec.standing_of window present greatest number }
{
    if present {
        return standing_at(window, distance(greatest, number));
    }
    Standing::New(window)
}

// The row that a number owns. By cases, since a remainder by a variable would be a division.
pub fn row_of(window: u32, number: u32) -> usize
    requires { Spec.is_window window ≡ true }
    ensures { result ≡ Spec.row_of window number }
{
    match window {
        16 => (number % 16) as usize,
        8 => (number % 8) as usize,
        _ => (number % 4) as usize,
    }
}
