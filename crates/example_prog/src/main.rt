//! Plays the examples in the folder that it is run in, and says of each whether all is well with it.
#![tactic(auto)]

mod files;
mod plays;

use std::io;

fn main(rt: HostRuntime) -> io::Result<()> {
    for name in files::names(&rt)? {
        let example = files::read_example(&rt, name)?;
        let said = match plays::fault_of(&rt, rt.alloc(), &example)? {
            Some(fault) => fault,
            None => "well",
        };
        println!(rt; "{}: {said}", example.name)?;
    }
    Ok(())
}
