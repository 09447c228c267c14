// Reads the input of a program into places that are lent. What was read counts as the input, also where a read fails.
#![tactic(auto)]

ghost use Rattle.std.specs.Prelude.{◌≡◌, ◌≤◌, length, take};
ghost use Rattle.std.specs.Io.KnownBytes.{Consumes};

use std::io::Read;

// Reads once, and gives how many bytes came; none where the read fails.
fn read_some<R: Read>(from: &mut R, places: &mut [u8]) -> usize
    ensures within { result ≤ length places.new }
    ensures bytes { Consumes (R.remaining from.old) (R.remaining from.new) (take result places.new) }
{
    match from.read(places) {
        Ok(count) => count,
        Err(_) => 0,
    }
}

// Reads until the places are full, the input ends or a read fails, and gives how many of them hold what was read.
pub fn read_full<R: Read>(from: &mut R, places: &mut [u8]) -> usize
    ensures within { result ≤ length places.new }
    ensures front { result ≡ length (take result places.new) }
    ensures bytes { Consumes (R.remaining from.old) (R.remaining from.new) (take result places.new) }
{
    let mut done = 0;
    // A `while`: each read brings as many bytes as come.
    while done < places.len() {
        let count = read_some(from, &mut places[done..]);
        if count == 0 {
            return done;
        }
        done += count;
    }
    done
}
