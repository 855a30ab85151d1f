// Plays a stream of records from standard input, and prints a line for each.
#![tactic(auto)]

mod lines;
mod stream;

use std::io::{self, ErrorKind};

fn main(rt: HostRuntime) -> io::Result<()> {
    match stream::play(&mut rt.stdin(), &mut rt.stdout()) {
        // A reader that has seen enough is no failure.
        Err(error) if error.kind() == ErrorKind::BrokenPipe => Ok(()),
        ended => ended,
    }
}
