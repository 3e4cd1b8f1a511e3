// Bytes of a file or a stream at the front of a buffer, for the programs. A read that fails ends the input.
#![tactic(auto)]

ghost use Rattle.std.specs.Prelude.{◌≡◌, ◌≤◌, length, take};
ghost use Rattle.std.specs.Io.KnownBytes.{Consumes};

use std::fs;
use std::io::Read;
use std::rt::Files;

// The bytes of one read; none where it fails.
fn read_some<R: Read>(from: &mut R, buffer: &mut [u8]) -> usize
    ensures fits { result ≤ length buffer.new }
    ensures given { Consumes (R.remaining from.old) (R.remaining from.new) (take result buffer.new) }
{
    from.read(buffer).unwrap_or(0)
}

// Reads until the buffer is full, the input ends or a read fails: how many bytes. They are the next that the reader gives, in order.
pub fn read_full<R: Read>(from: &mut R, buffer: &mut [u8]) -> usize
    ensures fits { result ≤ length buffer.new }
    ensures front { result ≡ length (take result buffer.new) }
    ensures given { Consumes (R.remaining from.old) (R.remaining from.new) (take result buffer.new) }
{
    let mut done = 0;
    // Kept: it goes by what each read gave; a `for` would say no more.
    while done < buffer.len() {
        let n = read_some(from, &mut buffer[done..]);
        if n == 0 {
            break;
        }
        done += n;
    }
    done
}

// As many bytes of a file as fit; none where it is missing, unreadable or a folder.
pub fn read_path(rt: &impl Files, path: &str, buffer: &mut [u8]) -> usize
    ensures fits { result ≤ length buffer.new }
    ensures front { result ≡ length (take result buffer.new) }
{
    match fs::open(rt, path) {
        Ok(mut file) => read_full(&mut file, buffer),
        Err(_) => 0,
    }
}
