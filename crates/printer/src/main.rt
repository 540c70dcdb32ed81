// Prints the book on standard input: its lines, or REFUSED 50, or REFUSED 57 for an input over 65,536 bytes.
#![tactic(auto)]

ghost use Rattle.std.specs.Prelude.{◌≤◌, ◌<◌, length, IfOk};

use std::io::{self, Print, Read, Stdin};

// Reads until the input ends or the buffer is full, in whatever pieces it comes. The buffer has room for one byte more than a book to print, so that a longer input shows.
fn read_input(mut from: Stdin, buffer: &mut [u8]) -> io::Result<usize>
    requires { 65536 < length buffer.old }
    ensures { IfOk result (λ have. have ≤ length buffer.new) }
{
    let mut have = 0;
    while have < buffer.len() {
        let more = from.read(&mut buffer[have..])?;
        if more == 0 {
            break;
        }
        have += more;
    }
    Ok(have)
}

// What the printer writes for an input.
fn print_input(rt: &HostRuntime, input: &[u8]) {
    let mut out = [0u8; 196608];
    let length = print::print_book(input, &mut out);
    if rt.stdout().write_all(&out[..length]).is_err() {
        tell(rt, b"printer: standard output can't be written\n");
    }
}

// To standard error; where that fails too, nothing is left to say.
fn tell(rt: &HostRuntime, line: &[u8]) {
    let _told = rt.stderr().write_all(line);
}

fn main(rt: HostRuntime) {
    let mut buffer = [0u8; 65537];
    match read_input(rt.stdin(), &mut buffer) {
        Ok(have) => print_input(&rt, &buffer[..have]),
        Err(_) => tell(&rt, b"printer: standard input can't be read\n"),
    }
}
