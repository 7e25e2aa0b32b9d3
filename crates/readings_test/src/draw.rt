// Numbers drawn without a state: one for each place of each stream. sets_test has the same: a crate for
// these lines, with contracts and edits of its own, would be longer than they are.
ghost use Rattle.std.specs.Prelude.{◌<◌};

// One step of a linear congruence modulo 2^32.
fn step(x: u32) -> u32 {
    x.wrapping_mul(1664525).wrapping_add(1013904223)
}

// A number of 32 bits.
pub fn draw(stream: u32, place: u32) -> u32 {
    let x = step(step(stream).wrapping_add(place));
    step(x).wrapping_add(x / 65536)
}

// A number from 0 to n - 1; 0 where n is 0.
pub fn below(stream: u32, place: u32, n: u32) -> u32
    ensures { 0 < n → result < n }
{
    if n == 0 {
        return 0;
    }
    draw(stream, place) / 65536 % n
}
