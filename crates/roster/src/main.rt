// Reads a set and a roster on standard input and prints the verdict.
#![tactic(auto)]

mod check; // check.rt: from text to verdict

use std::io;
use std::io::Write;

fn main(rt: HostRuntime) -> io::Result<()> {
    let mut text = [0u8; 65537];
    let got = streams::read_full(&mut rt.stdin(), &mut text)?;
    let mut work = [0i32; 16384];
    let mut out = [0u8; 64];
    let n = check::check_text(&text[..got], &mut work, &mut out);
    rt.stdout().write_all(&out[..n])
}
