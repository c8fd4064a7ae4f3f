// Reads a set on standard input and prints the listing of its answer.
#![tactic(auto)]

mod list; // list.rt: from text to listing

use std::io;
use std::io::Write;

fn main(rt: HostRuntime) -> io::Result<()> {
    let mut text = [0u8; 65537];
    let got = streams::read_full(&mut rt.stdin(), &mut text)?;
    let mut output = [0i32; 16384];
    let mut work = [0i32; 16384];
    let mut out = [0u8; 262144];
    let n = list::list_text(&text[..got], &mut output, &mut work, &mut out);
    rt.stdout().write_all(&out[..n])
}
