//! Makes calls on an octagon, and says of each whether it was refused memory, and whether what it then left is what is promised. `bench/refused_memory.py` refuses one allocation of a run after the other.
#![tactic(auto)]

mod catching;
mod finishing;
mod octagon;
mod offering;
mod running;
mod settling;
mod trial;
mod turning;

use catching::try_catch;
use finishing::try_finish;
use host_io::{StdSink, put_all};
use offering::{try_move, try_pack, try_row, try_swap};
use running::try_run;
use settling::try_settle;
use std::alloc::{AllocError, Global};
use std::sync::Wait;
use std::{env, io};
use trial::{Trial, text_of};
use turning::try_turn;

// Makes the call of this name. Where there is no memory for what it is made on, there is no trial.
fn try_call<R: Wait>(rt: &R, alloc: Global, name: &str) -> Result<Trial, AllocError> {
    match name {
        "offer-move" => try_move(alloc),
        "offer-swap" => try_swap(alloc),
        "offer-row" => try_row(alloc),
        "offer-pack" => try_pack(alloc),
        "catch" => try_catch(alloc),
        "turn-walk" => try_turn(rt, alloc, 0),
        "turn-row" => try_turn(rt, alloc, 1),
        "turn-descend" => try_turn(rt, alloc, 4),
        "settle" => try_settle(alloc),
        "finish" => try_finish(alloc),
        "run" => try_run(alloc),
        _ => Ok(Trial::Broken),
    }
}

// Prints what came of the call of this name, which may wait by the second handle.
fn show<R: Wait>(rt: &HostRuntime, waits: &R, name: &str) {
    let text = text_of(try_call(waits, rt.alloc(), name));
    let mut out = StdSink::make(rt);
    let _ = put_all(&mut out, name.as_bytes());
    let _ = put_all(&mut out, text.as_bytes());
}

fn main(rt: HostRuntime) -> io::Result<()> {
    for name in env::args(&rt)?.skip(1) {
        show(&rt, &rt, name.as_str());
    }
    Ok(())
}
