// Inputs of svread and what is printed for each: the file stdout has the texts of document 01, one
// after the other.
#![tactic(auto)]

ghost use Rattle.std.specs.Prelude.{◌<◌};

use std::io;

// Channel number 1, and the frame of document 01.
const FRAME: [u8; 54] =
    *b"\x01\x01\x0c\xcd\x04\x00\x01\x00\x00\x00\x00\x00\x02\x88\xba\x40\x00\x00\x27\x00\x00\x00\x00\x60\x1d\x80\x01\x01\xa2\x18\x30\x16\x80\x01\x41\x82\x01\x05\x83\x01\x01\x85\x01\x02\x87\x08\x00\x00\x03\xe8\x00\x00\x00\x00";

// What stands before the ASDUs of the largest frame, after a header of 22 octets of zeros.
const OPENING: [u8; 11] = *b"\x60\x82\x06\x97\x80\x01\x08\xa2\x82\x06\x90";

// What stands before the samples of each of its ASDUs.
const ASDU: [u8; 18] = *b"\x30\x81\xcf\x80\x01\x41\x82\x01\x05\x83\x01\x01\x85\x01\x02\x87\x81\xc0";

fn main(rt: HostRuntime) -> io::Result<()> {
    lengths(&rt)?;
    channels(&rt)?;
    cut_short(&rt)?;
    refused(&rt)?;
    samples(&rt)?;
    largest(&rt, 24)?;
    largest(&rt, 0)
}

// Prints the text for an input.
fn show(rt: &impl Print, input: &[u8]) -> io::Result<()> {
    let mut text = [0; svread_text::MAX_TEXT];
    let size = svread_text::svread_text(input, &mut text);
    rt.write_all(&text[..size])
}

// Inputs of no octet, of one, of the most that are read, and of one more.
fn lengths(rt: &impl Print) -> io::Result<()> {
    let zeros = [0; svread_text::MAX_INPUT + 1];
    for input in [&zeros[..0], &zeros[..1], &zeros[..2049], &zeros[..]] {
        show(rt, input)?;
    }
    Ok(())
}

// The frame with the channel number n, and with another octet at a place of the frame.
fn changed(rt: &impl Print, n: u8, place: usize, octet: u8) -> io::Result<()>
    requires { place < 53 }
{
    let mut input = FRAME;
    input[0] = n;
    input[place + 1] = octet;
    show(rt, &input)
}

fn channels(rt: &impl Print) -> io::Result<()> {
    for n in [0, 1, 24, 25, 255] {
        changed(rt, n, 0, 0x01)?;
    }
    Ok(())
}

// 1: in the header, in a tag, in content, in the samples.
fn cut_short(rt: &impl Print) -> io::Result<()> {
    for input in [&FRAME[..18], &FRAME[..24], &FRAME[..34], &FRAME[..53]] {
        show(rt, input)?;
    }
    Ok(())
}

// 2, at the tags 60 and 87; 3, at smpCnt; 4, at noASDU.
fn refused(rt: &impl Print) -> io::Result<()> {
    changed(rt, 1, 23, 0x80)?;
    changed(rt, 1, 44, 0x84)?;
    changed(rt, 1, 35, 0x04)?;
    changed(rt, 1, 26, 0x09)
}

// The frame with another count.
fn counted(rt: &impl Print, count: i32) -> io::Result<()> {
    let mut input = FRAME;
    input[46..50].copy_from_slice(&count.to_be_bytes());
    show(rt, &input)
}

// Counts of 0, -1, the most and the least; a quality word whose upper bits are cleared.
fn samples(rt: &impl Print) -> io::Result<()> {
    for count in [0, -1, i32::MAX, i32::MIN] {
        counted(rt, count)?;
    }
    changed(rt, 1, 51, 0xff)
}

// Octet o of sample k.
fn sample_octet(k: u32, o: u32) -> u8
    requires { (k < 192) × (o < 8) }
{
    ((k * 37 + o * 128 + o / 2 * 11 + 0x89) % 256) as u8
}

// Eight ASDUs of 24 channels. Without channels its first sample is read as a gmIdentity of 9
// octets: 5.
fn largest(rt: &(impl Print + AllocGlobal), n: u8) -> io::Result<()> {
    let mut input = Vec::from_slice(rt.alloc(), &[n])?;
    input.extend_from_slice(&[0; 22])?;
    input.extend_from_slice(&OPENING)?;
    for asdu in 0..8 {
        input.extend_from_slice(&ASDU)?;
        for channel in 0..24 {
            for o in 0..8 {
                input.push(sample_octet(asdu * 24 + channel, o))?;
            }
        }
    }
    show(rt, &input)
}
