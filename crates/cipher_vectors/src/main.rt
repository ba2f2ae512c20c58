//! Answers cases of the ciphers and of the signatures of PACs, one a line, so that they can be compared with those of other
//! implementations. Bytes are hex, and `-` is none.
#![tactic(auto)]

mod cases;
mod words;

use cases::answer;
use std::io;

fn main(rt: HostRuntime) -> io::Result<()> {
    for line in rt.lines(rt.alloc()) {
        let line = line?;
        match answer(rt.alloc(), line.as_str()) {
            Some(bytes) => {
                for byte in &bytes {
                    print!(rt; "{byte:02x}")?;
                }
                println!(rt; "")?;
            }
            None => println!(rt; "none")?,
        }
    }
    Ok(())
}
