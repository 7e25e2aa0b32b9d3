// Reads one octet for the number of channels, then a frame, from standard input, and prints the
// frame's sizes, counts and quality words, or its refusal.
#![tactic(auto)]

ghost use Rattle.std.specs.Io.{ReadsAtMost};

use std::io;
use std::io::Read;

// Reads until buf is full or the input ends, and answers how many octets it put at the start of buf. Each
// turn puts one at least, so there are no more turns than octets.
fn read_full(reader: &mut impl Read, buf: &mut [u8]) -> io::Result<usize>
    ensures { ReadsAtMost result buf.new }
{
    let mut done = 0;
    for _ in 0..buf.len() {
        let n = reader.read(&mut buf[done..])?;
        if n == 0 {
            break;
        }
        done += n;
    }
    Ok(done)
}

fn main(rt: HostRuntime) -> io::Result<()> {
    // One octet more than the longest input that is read, so that a longer one is told apart.
    let mut input = [0; svread_text::MAX_INPUT + 1];
    let n = read_full(&mut rt.stdin(), &mut input)?;
    let mut text = [0; svread_text::MAX_TEXT];
    let size = svread_text::svread_text(&input[..n], &mut text);
    rt.write_all(&text[..size])
}
