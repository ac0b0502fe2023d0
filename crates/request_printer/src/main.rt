//! Prints what each line of its input asks for, read as words of the planner with a blank between each two: the command, its files,
//! what else it takes in the order of the words, and its settings in the order of the table of options. Where the words are not taken,
//! nothing stands after the arrow.
#![tactic(auto)]

mod asked;

use requests::laws::laws;
use std::io;

fn main(rt: HostRuntime) -> io::Result<()> {
    laws();
    for line in rt.lines(rt.alloc()) {
        asked::print_line(&rt, rt.alloc(), line?.as_str())?;
    }
    Ok(())
}
