// Reads a script from standard input and prints its transcript.
#![tactic(auto)]

use session::{LONGEST, transcript};
use std::io;
use std::io::{Read, Write};

// One byte more than the longest script that is answered, so that a longer one is seen to be too long.
const READ: u64 = LONGEST as u64 + 1;

fn main(rt: HostRuntime) -> io::Result<()> {
    let mut script = Vec::new(rt.alloc());
    rt.stdin().take(READ).read_to_end(&mut script)?;
    let answers = transcript(rt.alloc(), &script)?;
    rt.stdout().write_all(answers.as_bytes())
}
