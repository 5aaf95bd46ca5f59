// Answers for hosts in other languages: a number, the entries of an array, and the image of the state, which a refused call leaves. Each
// end, and a burst, has a `finish` of its own: images and entries differ, and what they share is one `match`.
#![tactic(auto)]

pub mod bursts;
pub mod receiving;
pub mod sending;
