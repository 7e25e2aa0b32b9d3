// One line, `KIND REQUEST ANSWER`.
use crate::answer::Theirs;
use crate::class::Class;
use crate::octets::Octets;
use crate::{of_ber, of_reading, of_scaling, of_types, of_writing};

// The octets of a request, and of an answer, are at most so many.
const LONGEST: usize = 16384;

// The octets that a word stands for, `-` or pairs of hexadecimal digits in lower case, in a buffer.
fn octets_of<'a>(word: &str, buffer: &'a mut [u8; LONGEST]) -> Option<Octets<'a>> {
    if word == "-" {
        return Some(Octets::new(b""));
    }
    if word.is_empty() || !word.bytes().all(|c| matches!(c, b'0'..=b'9' | b'a'..=b'f')) {
        return None;
    }
    let octets = buffer.get_mut(..word.len() / 2)?;
    hex::decode_to_slice(word, octets).ok()?;
    Some(Octets::new(octets))
}

// The class of a request. A kind is a letter, as the line has it: an enum would only add a second match of the same kinds.
fn judge(kind: u8, request: Octets, theirs: Theirs) -> Option<Class> {
    if let Theirs::NotAsked = theirs {
        // Only a description can be one that the Rust can't hold, with a text that isn't UTF-8.
        return matches!(kind, b'e' | b's').then_some(Class::NotAsked);
    }
    match kind {
        b'q' => of_types::quality(request, theirs),
        b'b' => of_types::time_quality(request, theirs),
        b'd' => of_types::timestamp(request, theirs),
        b'n' => of_types::nanoseconds(request, theirs),
        b'w' => of_types::timestamp_octets(request, theirs),
        b'c' => of_scaling::count(request, theirs),
        b'v' => of_scaling::value(request, theirs),
        b'k' => of_scaling::le_92(theirs),
        b't' => of_ber::head(request, theirs),
        b'r' => of_ber::integer(request, theirs),
        b'l' => of_ber::tag_length(request, theirs),
        b'u' => of_ber::integer_octets(request, theirs),
        b'f' => of_reading::frame(request, theirs),
        b'p' => of_reading::pdu(request, theirs),
        b'h' => of_reading::header(request, theirs),
        b'i' => of_reading::frame_test(request, theirs),
        b'e' => of_writing::encode(request, theirs),
        b's' => of_writing::size(request, theirs),
        _ => None,
    }
}

// The class of a line.
pub fn class_of(line: &str) -> Option<Class> {
    let (kind, words) = line.split_once(' ')?;
    let (request, answer) = words.split_once(' ')?;
    let [kind] = kind.as_bytes() else {
        return None;
    };
    // Each word has a buffer of fixed length: a Vec would hand an allocator and its error through.
    let mut asked = [0; LONGEST];
    let mut answered = [0; LONGEST];
    let request = octets_of(request, &mut asked)?.padded();
    let theirs = octets_of(answer, &mut answered)?;
    judge(*kind, request, Theirs::of(theirs))
}
