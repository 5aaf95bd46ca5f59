// The frames of document 01's marked cases taken by a fresh receiver from place 0: M1 to M12 by one as a plain start leaves it; M5 takes two
// frames in a row. M13 by one of window 16, and by one of the plain window, of which 9 behind is outside: first 3 is the greatest number,
// then comes 4,294,967,290.
#![tactic(auto)]

use receiver::{Answer, Refusal, State};
use std::io;
use wire::Version;

fn show_origin(rt: &impl Print, origin: Option<u32>) -> io::Result<()> {
    match origin {
        None => print!(rt; " unnumbered"),
        Some(number) => print!(rt; " transfer {number}"),
    }
}

// As in `recorded`: the two programs share no crate that prints.
fn show_octet(rt: &impl Print, octet: u8) -> io::Result<()> {
    print!(rt; " {octet:02x}")
}

// The first octets, as many as the length says: `take` asks for no proof that there are so many.
fn show_octets(rt: &impl Print, octets: &[u8], length: usize) -> io::Result<()> {
    for octet in octets.iter().take(length) {
        show_octet(rt, *octet)?;
    }
    Ok(())
}

fn show_refusal(rt: &impl Print, refusal: Refusal) -> io::Result<()> {
    print!(rt; " refused {}", u32::from(refusal))?;
    if let Refusal::Malformed(_, at) = refusal {
        print!(rt; " at {at}")?;
    }
    Ok(())
}

fn show(rt: &impl Print, answer: Result<Answer, Refusal>, output: &[u8]) -> io::Result<()> {
    match answer {
        Ok(
            Answer::Delivered {
                length,
                next,
                origin,
            },
        ) => {
            print!(rt; " bundle of {length}")?;
            show_origin(rt, origin)?;
            print!(rt; " next {next}:")?;
            show_octets(rt, output, length)?;
        }
        Ok(Answer::Finished) => print!(rt; " finished")?,
        Err(refusal) => show_refusal(rt, refusal)?,
    }
    println!(rt)
}

fn take_with(
    rt: &impl Print,
    name: &str,
    state: &mut State,
    pool: &mut [u8],
    frame: &[u8],
) -> io::Result<()> {
    let mut output = [0u8; 4096];
    let answer = receiver::receive(state, pool, frame, 0, &mut output);
    print!(rt; "{name}")?;
    show(rt, answer, &output)
}

// By a fresh receiver.
fn take(rt: &impl Print, name: &str, frame: &[u8]) -> io::Result<()> {
    let mut pool = [0u8; 32768];
    take_with(rt, name, &mut receiver::start(), &mut pool, frame)
}

fn behind(rt: &impl Print, state: &mut State, pool: &mut [u8]) -> io::Result<()> {
    take_with(rt, "M13", state, pool, b"\x05\x00\x00\x04\x00\x00\x00\x03")?;
    take_with(
        rt,
        "M13",
        state,
        pool,
        b"\x04\x00\x00\x09\xff\xff\xff\xfa\x00\x00\x00\x00\x41",
    )
}

fn main(rt: HostRuntime) -> io::Result<()> {
    let end = b"\x04\x00\x00\x09\x00\x00\x00\x05\x00\x00\x00\x00\x41";
    let cancel = b"\x05\x00\x00\x04\x00\x00\x00\x05";
    take(&rt, "M1", b"\x02\x00\x00\x03\x41\x42\x43")?;
    take(&rt, "M2", b"\x00\x00\x00")?;
    take(&rt, "M3", b"\x01\x00\x00\x00")?;
    take(&rt, "M4", end)?;
    let mut state = receiver::start();
    let mut pool = [0u8; 32768];
    take_with(&rt, "M5", &mut state, &mut pool, cancel)?;
    take_with(&rt, "M5", &mut state, &mut pool, end)?;
    take(&rt, "M6", b"\x02\x80\x00\x05\x02\x01\xff\x41\x42")?;
    take(&rt, "M7", b"\x02\x10\x00\x00")?;
    take(&rt, "M8", b"\x02\x00\x00\x04\x41")?;
    take(&rt, "M9", b"\x03\x00\x00")?;
    take(&rt, "M10", b"\x02\x80\x00\x01\x02")?;
    take(&rt, "M11", b"\x05\x00\x00\x03\x00\x00\x00")?;
    take(&rt, "M12", b"\x00\x02\x00\x00\x00")?;
    let Ok(mut wide) = receiver::start_as(Version::Draft02, 16) else {
        return Ok(());
    };
    let mut wide_pool = [0u8; 65536];
    behind(&rt, &mut wide, &mut wide_pool)?;
    let mut plain_pool = [0u8; 32768];
    behind(&rt, &mut receiver::start(), &mut plain_pool)
}
