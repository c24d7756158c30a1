// The program: it reads rules.txt and policy.txt in the working directory, rules first, and prints the verdict and the listing, or
// what is refused, or which file cannot be read. The output is made by `report`, whose contract says that it is document 01's run
// for the bytes that were read. What is left here are the calls to the system, of which nothing can be proved.

#![tactic(auto)]

ghost use Rattle.std.specs.Prelude.{◌≡◌, ◌≤◌, length, IfOk, IfSome, OnErr};

use report::{MOST_OUTPUT, MOST_READ};
use std::fs::File;
use std::io;
use std::io::{Eprint, Print, Read};
use std::rt::Files;

// Reads the two files and prints, with a buffer for each and one for the output.
fn main(rt: HostRuntime) {
    let mut rules = [0; MOST_READ];
    let mut policy = [0; MOST_READ];
    let mut output = [0; MOST_OUTPUT];
    let table = read_file(&rt, "rules.txt", &mut rules);
    let asked = read_file(&rt, "policy.txt", &mut policy);
    let length = report::report(table, asked, &mut output);
    write(&rt, &output[..length]);
}

// Writes to standard output; if that fails, standard error has why.
fn write(rt: &(impl Print + Eprint + Alloc), output: &[u8]) {
    if let Err(error) = rt.write_all(output) {
        fail(rt, "standard output", error);
    }
}

// Reads a file, or as much of it as the buffer takes. If it cannot be read, standard error has why.
fn read_file<'a>(
    rt: &(impl Files + Eprint + Alloc),
    name: &str,
    buffer: &'a mut [u8],
) -> Option<&'a [u8]>
    ensures { IfSome result (λ read. length read.now ≤ length buffer.old) }
{
    match open_and_read(rt, name, buffer) {
        Ok(length) => Some(&buffer[..length]),
        Err(error) => {
            fail(rt, name, error);
            None
        }
    }
}

// Opens a file and reads it, or as much of it as the buffer takes. The one error is that of opening or of a read; other bytes may stand
// in the buffer then.
fn open_and_read(rt: &impl Files, name: &str, buffer: &mut [u8]) -> io::Result<usize>
    ensures ok { IfOk result (λ end. end ≤ length buffer.new) }
    ensures err { OnErr result (length buffer.new ≡ length buffer.old) }
{
    let mut file = File::open(rt, name)?;
    read_all(&mut file, buffer)
}

// Reads what is left of an open file, or as much of it as the buffer takes, and gives how much that is. The one error is that of a read;
// other bytes may stand in the buffer then. The loop is written out: std reads to the end of a file only into a `Vec`, and the gateway
// box is small, so the buffers are fixed.
fn read_all(file: &mut impl Read, buffer: &mut [u8]) -> io::Result<usize>
    ensures ok { IfOk result (λ end. end ≤ length buffer.new) }
    ensures err { OnErr result (length buffer.new ≡ length buffer.old) }
{
    let mut end: usize = 0;
    while end < buffer.len() {
        let more = file.read(&mut buffer[end..])?;
        if more == 0 {
            break;
        }
        end += more;
    }
    Ok(end)
}

// Writes a line to standard error: what failed, a colon and the system's reason.
fn fail(rt: &(impl Eprint + Alloc), what: &str, error: io::Error) {
    let _ = match format!(in rt.alloc(); "{error}") {
        Ok(text) => eprintln!(rt; "{what}: {}", reason(text.as_str())),
        Err(_) => eprintln!(rt; "{what}: {error}"),
    };
}

// The system's reason without its number, which an error's text adds.
fn reason(text: &str) -> &str {
    text.split_once(" (os error ")
        .map_or(text, |(reason, _)| reason)
}
