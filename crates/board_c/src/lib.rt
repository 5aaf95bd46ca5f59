// The calls of `board` for hosts in other languages, each under its name and with its clauses: a crate that others stand on exports nothing.
// include/btpu.h documents them.
#![tactic(auto)]

mod bursts;
mod receiving;
mod recordings;
mod sending;
