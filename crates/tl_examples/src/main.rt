//! Small uses of the libraries, one file each, run one after another.
#![tactic(auto)]

mod journal;
mod proof;
mod signature;
mod tiles;
mod witness;

use proof::prove_an_entry;
use signature::sign_a_note;
use std::io;
use tiles::read_from_a_liar;
use witness::ask_a_witness;

fn main(rt: HostRuntime) -> Result<(), anyhow::Error> {
    let alloc = rt.alloc();
    prove_an_entry(&rt, alloc)?;
    sign_a_note(&rt, alloc)?;
    read_from_a_liar(&rt, alloc)?;
    ask_a_witness(&rt, alloc)?;
    Ok(())
}
