// Prints the transcripts of a script from standard input and of scripts that are as long as they may be, too long and empty.
#![tactic(auto)]

use session::transcript;
use std::io;
use std::io::{Read, Write};

// The longest script that is answered: written out again, so that another limit in the library shows in what is printed.
const LONGEST: usize = 65_536;

fn print_transcript(rt: &HostRuntime, script: &[u8]) -> io::Result<()> {
    let answers = transcript(rt.alloc(), script)?;
    rt.stdout().write_all(answers.as_bytes())
}

fn main(rt: HostRuntime) -> io::Result<()> {
    let mut script = Vec::new(rt.alloc());
    rt.stdin().read_to_end(&mut script)?;
    print_transcript(&rt, &script)?;
    for size in [LONGEST, LONGEST + 1, 0] {
        let script = vec![in rt.alloc(); b'a'; size]?;
        print_transcript(&rt, &script)?;
    }
    Ok(())
}
