//! The program `refused`: one list of commands, carried out while allocations are refused.
//!
//! It carries out the commands over disks in memory, by a call for each, as one list, and as lines,
//! and prints the answers and what the store shows. When it meets a refusal, it checks whether
//! anything was lost, asks once more, and says on its standard error what was refused. Its output
//! is the same each time. `tools/faults/refuse_allocations.sh` refuses it one allocation after
//! another.
#![tactic(auto)]

mod calls;
mod commands;
mod lines;
mod lists;
mod memory_faults;
mod merge_commands;
mod sight;
mod stores;

use memory_faults::{Wanting, Wrong};
use std::alloc::Global;
use std::io::{self, ErrorKind};

/// How the commands are carried out.
#[derive(Clone, Copy)]
enum Way {
    Calls,
    List,
    Lines,
    Closing,
}

const WAYS: [Way; 4] = [Way::Calls, Way::List, Way::Lines, Way::Closing];

fn try_way(alloc: Global, way: Way, wanting: &mut Wanting) -> Result<String, Wrong> {
    match way {
        Way::Calls => calls::carry_out(alloc, wanting),
        Way::List => lists::carry_out(alloc, wanting),
        Way::Lines => lines::carry_out(alloc, wanting),
        Way::Closing => merge_commands::carry_out(alloc, wanting),
    }
}

/// Starts over when that is asked for, for example because the memory that was refused is this
/// program's own.
fn carry_out(alloc: Global, way: Way, wanting: &mut Wanting) -> Result<String, Wrong> {
    match try_way(alloc, way, wanting) {
        Err(Wrong::Again) => {
            if wanting.is_none() {
                wanting.note("memory of the test");
            }
            try_way(alloc, way, wanting)
        }
        carried_out => carried_out,
    }
}

fn main(rt: HostRuntime) -> io::Result<()> {
    for way in WAYS {
        let mut wanting = Wanting::default();
        let trace = match carry_out(rt.alloc(), way, &mut wanting) {
            Ok(trace) => trace,
            Err(wrong) => {
                eprintln!(rt; "{wrong:?}, after {wanting:?}")?;
                return Err(io::Error::from(ErrorKind::Other));
            }
        };
        print!(rt; "{trace}")?;
        if !wanting.is_none() {
            eprintln!(rt; "refused: {}, {}", wanting.what, wanting.times)?;
        }
    }
    Ok(())
}
