// The states of a receiver and of a sender as images of octets, read and written.
#![tactic(auto)]

pub mod receiving;
pub mod sending;
