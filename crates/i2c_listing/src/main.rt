// Turns command lists from standard input, one a line, into records: a line of hex for each, or minus the number it is refused with.
#![tactic(auto)]

mod listing;

use std::io::{self, ErrorKind};

fn main(rt: HostRuntime) -> io::Result<()> {
    match listing::list(&mut rt.stdin(), &mut rt.stdout()) {
        // A reader that has seen enough is no failure.
        Err(error) if error.kind() == ErrorKind::BrokenPipe => Ok(()),
        ended => ended,
    }
}
