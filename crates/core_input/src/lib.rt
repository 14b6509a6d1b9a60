// What the programs read, standard input or a file, to the start of a buffer.
#![tactic(auto)]

ghost use Rattle.std.specs.Prelude.{◌<◌, ◌≤◌, IfOk, length, take};
ghost use Rattle.std.specs.Io.KnownBytes.{Consumes, IsAtEnd};

use std::fs::File;
use std::io::Read;
use std::rt::Files;
use std::{io, str};

// Reads until the buffer is full or the input ends, and returns how many bytes now stand at the
// buffer's start. Of a reader whose bytes are known those are its next ones, and none are left where
// the buffer isn't full.
pub fn read_full<R: Read>(reader: &mut R, buf: &mut [u8]) -> io::Result<usize>
    ensures within { IfOk result (λ n. n ≤ length buf.new) }
    ensures bytes { IfOk result (λ n.
        Consumes (R.remaining reader.old) (R.remaining reader.new) (take n buf.new)) }
    ensures end { IfOk result (λ n. n < length buf.new → IsAtEnd (R.remaining reader.new)) }
{
    let mut done = 0;
    while done < buf.len() {
        let n = reader.read(&mut buf[done..])?;
        if n == 0 {
            break;
        }
        done += n;
    }
    Ok(done)
}

// The first bytes of a file, as many as the buffer has at most. A file that can't be opened is read
// as empty, and so is a path that isn't UTF-8.
pub fn read_file(rt: &impl Files, path: &[u8], buf: &mut [u8]) -> io::Result<usize>
    ensures { IfOk result (λ n. n ≤ length buf.new) }
{
    let Ok(path) = str::from_utf8(path) else {
        return Ok(0);
    };
    match File::open(rt, path) {
        Ok(mut file) => read_full(&mut file, buf),
        Err(_) => Ok(0),
    }
}
