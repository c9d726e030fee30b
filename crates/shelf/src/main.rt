// The program `shelf`: a rule table and a cost table driven from standard input, a command a line, an answer a line.
#![tactic(auto)]

mod turns; // turns.rt: which command a line is, and the lines in turn

use std::io;

fn main(rt: HostRuntime) -> io::Result<()> {
    turns::run(&rt)
}
