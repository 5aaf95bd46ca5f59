// The receiver, the sender and recordings for hosts in other languages: calls on images of states, answers through an array, the refusal's
// number returned. include/btpu.h documents them.
#![tactic(auto)]

pub mod bursts;
pub mod receiving;
pub mod recordings;
pub mod sending;
