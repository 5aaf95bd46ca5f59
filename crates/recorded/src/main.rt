// Writes six frames as a recording, reads it back, and plays it with several limits; then octets that are no recording, refused with 16 to 20.
#![tactic(auto)]

ghost use Rattle.std.specs.Prelude.{◌≤◌, length, IfOk};

use std::io;

// As in `marked`: the two programs share no crate that prints.
fn show_octet(rt: &impl Print, octet: u8) -> io::Result<()> {
    print!(rt; " {octet:02x}")
}

fn show_octets(rt: &impl Print, octets: &[u8]) -> io::Result<()> {
    for octet in octets {
        show_octet(rt, *octet)?;
    }
    println!(rt)
}

fn show_size(rt: &impl Print, size: u16) -> io::Result<()> {
    print!(rt; " {size}")
}

// So many of a list, here and below: `take` asks for no proof that it has them.
fn show_sizes(rt: &impl Print, sizes: &[u16], frames: usize) -> io::Result<()> {
    print!(rt; "sizes")?;
    for size in sizes.iter().take(frames) {
        show_size(rt, *size)?;
    }
    println!(rt)
}

// Shows a bundle of n octets; answers where the next one starts.
fn show_bundle(rt: &impl Print, output: &[u8], at: usize, n: u16) -> io::Result<usize>
    requires { at ≤ length output.now }
    ensures { IfOk result (λ next. next ≤ length output.now) }
{
    let size = n as usize;
    if output.len() - at < size {
        return Ok(at);
    }
    let end = at + size;
    print!(rt; "bundle:")?;
    show_octets(rt, &output[at..end])?;
    Ok(end)
}

fn show_bundles(rt: &impl Print, output: &[u8], lengths: &[u16], bundles: usize) -> io::Result<()> {
    let mut at = 0;
    for n in lengths.iter().take(bundles) {
        at = show_bundle(rt, output, at, *n)?;
    }
    Ok(())
}

fn show_note(rt: &impl Print, place: u32, reason: u32) -> io::Result<()> {
    println!(rt; "frame {place} refused {reason}")
}

fn show_notes(rt: &impl Print, places: &[u32], reasons: &[u32], refused: usize) -> io::Result<()> {
    for (place, reason) in places.iter().zip(reasons).take(refused) {
        show_note(rt, *place, *reason)?;
    }
    Ok(())
}

fn play(rt: &impl Print, file: &[u8], limit: usize) -> io::Result<()> {
    let mut pool = [0u8; 65536];
    let mut output = [0u8; 61440];
    let mut lengths = [0u16; 15360];
    let mut places = [0u32; 1024];
    let mut reasons = [0u32; 1024];
    print!(rt; "play {limit}: ")?;
    let answer = playback::play(
        file,
        limit,
        &mut pool,
        &mut output,
        &mut lengths,
        &mut places,
        &mut reasons,
    );
    match answer {
        Ok(played) => {
            println!(rt;
                "messages {} bundles {} octets {} refused {}",
                played.messages, played.bundles, played.octets, played.refused,
            )?;
            show_bundles(rt, &output, &lengths, played.bundles)?;
            show_notes(rt, &places, &reasons, played.refused)
        }
        Err(refusal) => println!(rt; "refused {}", u32::from(refusal)),
    }
}

// Plays the first n octets.
fn play_part(rt: &impl Print, file: &[u8], n: usize) -> io::Result<()> {
    if n < file.len() {
        play(rt, &file[..n], 5)?;
    }
    Ok(())
}

fn open(rt: &impl Print, file: &[u8]) -> io::Result<()> {
    match recording::open(file) {
        Ok(opened) => {
            println!(rt; "frames {} octets {}", opened.frames, opened.octets)?;
            show_sizes(rt, &opened.lengths, opened.frames)
        }
        Err(refusal) => println!(rt; "refused {}", u32::from(refusal)),
    }
}

fn main(rt: HostRuntime) -> io::Result<()> {
    let sizes = [7u16, 3, 13, 15, 4, 7];
    let joined =
        b"\x02\x00\x00\x03\x41\x42\x43\x03\x00\x00\x03\x00\x00\x09\x00\x00\x00\x05\x00\x00\x00\x00\x41\x00\x00\x04\x00\x00\x09\x00\x00\x00\x05\x00\x00\x00\x01\x42\x02\x00\x00\x00\x05\x00\x00\x03\x00\x00\x00";
    let mut file = [0u8; 69];
    let Ok(octets) = recording::write(&sizes, joined, &mut file) else {
        return Ok(());
    };
    print!(rt; "octets written {octets}:")?;
    show_octets(&rt, &file)?;
    open(&rt, &file)?;
    play(&rt, &file, usize::MAX)?;
    play(&rt, &file, 5)?;
    play(&rt, &file, 4)?;
    play(&rt, &file, 3)?;
    play(&rt, &file, 1)?;
    play(&rt, &file, 0)?;
    play_part(&rt, &file, 68)?;
    open(&rt, b"\x00\x00\x00")?;
    open(&rt, b"\x00\x00\x04\x01")?;
    open(&rt, b"\x00\x00\x00\x01\x00\x00\x00\x00\x00\x00")?;
    open(&rt, b"\x00\x00\x00\x01\x00\x02\x00\x00\x00\x01\x00")?;
    open(&rt, b"\x00\x00\x00\x00\x00\x00\x00\x00\x00")
}
