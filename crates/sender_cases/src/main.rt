// Runs the cases of document 01, "Marked cases", "By program": each call's answer, the fill that it leaves, and the frame.
#![tactic(auto)]

use sender::{Answer, State};
use std::io;

// Octet i of a bundle is 37 i + 11 (i / 256) modulo 256.
fn bundle() -> [u8; 300] {
    let mut octets = [0u8; 300];
    for (i, octet) in octets.iter_mut().enumerate() {
        *octet = ((37 * i + 11 * (i / 256)) % 256) as u8;
    }
    octets
}

fn write_hex(rt: &impl Print, octets: &[u8]) -> io::Result<()> {
    for octet in octets {
        print!(rt; "{octet:02x}")?;
    }
    println!(rt)
}

fn place(rt: &impl Print, s: &mut State, bundle: &[u8], frame: &mut [u8]) -> io::Result<()> {
    let text = match sender::place(s, bundle, frame) {
        Ok(Answer::Placed) => "Placed",
        Ok(Answer::PlacedReady) => "Placed and ready",
        Ok(Answer::Ready) => "Ready",
        Ok(Answer::Nothing) => "Nothing",
        Err(_) => "Refused",
    };
    println!(rt; "{:03}: {text}, fill {:03}", bundle.len(), s.fill)?;
    write_hex(rt, frame)
}

// A bundle in three pieces, and then another one.
fn pieces_then(rt: &impl Print, first: State, bundle: &[u8], other: &[u8]) -> io::Result<()> {
    let mut frame = [7u8; 128];
    let mut s = first;
    for _ in 0..3 {
        place(rt, &mut s, bundle, &mut frame)?;
    }
    place(rt, &mut s, other, &mut frame)
}

fn main(rt: HostRuntime) -> io::Result<()> {
    let octets = bundle();
    let Ok(s) = sender::start(128, u32::MAX) else {
        return Ok(());
    };
    pieces_then(&rt, s, &octets, &octets[..44])?;
    pieces_then(&rt, s, &octets, &octets[..45])?;
    let mut frame = [7u8; 128];
    let mut whole = s;
    place(&rt, &mut whole, &octets[..124], &mut frame)?;
    let mut cut = s;
    place(&rt, &mut cut, &octets[..125], &mut frame)
}
