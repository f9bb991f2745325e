// The verdict program: document 01, "The verdict program". It reads, calls and writes; all between is `verdict_line`, whose contract
// is the paragraph.
//
// Not proved, for a contract cannot say what a program reads and writes: that the bytes handed to `verdict_line` are the first 300 of
// standard input, that its line is what is written, once and to standard output, and that nothing else is. The gate runs the
// built program on every line of verdict.txt and more (tests/host/verdict.c). A read that fails counts as the end of the input, and a
// write that fails is not told: there is no exit status to tell it by.
#![tactic(auto)]

ghost use Rattle.std.specs.Prelude.{◌≤◌, length};

use std::io;
use std::io::{Read, Write};

fn main(rt: HostRuntime) {
    let mut input = [0u8; 300];
    let n = read_front(&mut rt.reader(), &mut input);
    let line = program::verdict_line(&input[..n]);
    let _ = io::writer(&rt).write_all(&line.bytes[..line.count]);
}

// Fills buf from an input until it is full, the input ends or a read fails: how many bytes came.
fn read_front<R: Read>(input: &mut R, buf: &mut [u8]) -> usize
    ensures { result ≤ length buf.old }
{
    let mut n = 0;
    // A `while`: each read says how far it came.
    while n < buf.len() {
        match input.read(&mut buf[n..]) {
            Ok(0) => return n,
            Ok(more) => n += more,
            Err(_) => return n,
        }
    }
    n
}
