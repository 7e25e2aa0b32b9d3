// Reads lines `KIND REQUEST ANSWER` (oracle/README.md), puts each request to this project's code, holds its answer against
// the Rust's, and prints how many lines there are of each kind and class. What stands after the last newline isn't read.
#![tactic(auto)]

mod answer;
mod class;
mod description;
mod line;
mod octets;
mod of_ber;
mod of_reading;
mod of_scaling;
mod of_types;
mod of_writing;
mod reading_class;
mod writing_class;

use crate::class::Class;
use std::io;
use std::io::Read;

// The octets of a line are at most so many.
const LONGEST: usize = 65536;

// How many unexplained differences are shown.
const SHOWN: u64 = 5;

// How many groups a kind can have: the unexplained lines, and those of each class.
const GROUPS: usize = 1 + Class::ALL.len();

// How many lines there are in all, how many of them are unexplained differences, and how many there are of each kind and
// class: an array, since a judge that runs out of memory judges nothing.
#[derive(Clone, Copy)]
struct Tally {
    lines: u64,
    unexplained: u64,
    groups: [[u64; GROUPS]; 256],
}

// The place of a class among the groups of a kind.
fn place_of(class: Option<Class>) -> usize {
    class.map_or(0, |class| 1 + class as usize)
}

impl Tally {
    const EMPTY: Tally = Tally {
        lines: 0,
        unexplained: 0,
        groups: [[0; GROUPS]; 256],
    };

    // Counts a line of a kind and class, and shows the first unexplained differences.
    fn count(&mut self, rt: &impl Print, kind: u8, class: Option<Class>) -> io::Result<()> {
        self.lines = self.lines.saturating_add(1);
        if let Some(group) = self.groups[kind as usize].get_mut(place_of(class)) {
            *group = group.saturating_add(1);
        }
        if class.is_none() {
            self.unexplained = self.unexplained.saturating_add(1);
            if self.unexplained <= SHOWN {
                print!(rt; "unexplained difference: ")?;
                rt.write_all(&[kind])?;
                println!(rt; ", line {}", self.lines)?;
            }
        }
        Ok(())
    }

    // Nothing else shows these numbers, so a Display would be longer.
    fn print(&self, rt: &impl Print) -> io::Result<()> {
        for (kind, groups) in (0..=u8::MAX).zip(self.groups.iter()) {
            let names = std::iter::once(None).chain(Class::ALL.into_iter().map(Some));
            for (class, n) in names.zip(groups.iter()) {
                print_group(rt, kind, class, *n)?;
            }
        }
        println!(rt;
            "{} inputs, {} unexplained differences",
            self.lines, self.unexplained
        )
    }
}

// How many lines there are of a kind and class, where there are any.
fn print_group(rt: &impl Print, kind: u8, class: Option<Class>, n: u64) -> io::Result<()> {
    if n == 0 {
        return Ok(());
    }
    rt.write_all(&[kind])?;
    match class {
        Some(class) => println!(rt; " {class}: {n}"),
        None => println!(rt; " unexplained: {n}"),
    }
}

// What is read of a line: its length, and as many octets as there is room for.
#[derive(Clone, Copy)]
struct Buffer {
    octets: [u8; LONGEST],
    len: usize,
}

impl Buffer {
    const EMPTY: Buffer = Buffer {
        octets: [0; LONGEST],
        len: 0,
    };

    // Adds what is read next, of a line that is too long the length alone. No piece is longer than a line can be, so the first
    // octet is always kept.
    fn add(&mut self, piece: &[u8]) {
        let len = self.len.saturating_add(piece.len());
        if len <= LONGEST {
            self.octets[self.len..len].copy_from_slice(piece);
        }
        self.len = len;
    }

    // The kind of the line; an empty one has that of the line before it.
    fn kind(&self) -> u8 {
        self.octets[0]
    }

    // The class of the line; None where the difference is unexplained.
    fn class(&self) -> Option<Class> {
        let line = self.octets.get(..self.len)?;
        line::class_of(std::str::from_utf8(line).ok()?)
    }
}

// Takes what is read next: the end of a line, whole lines, and the start of one.
fn take(rt: &impl Print, chunk: &[u8], line: &mut Buffer, tally: &mut Tally) -> io::Result<()> {
    for (i, piece) in chunk.split(|octet| *octet == b'\n').enumerate() {
        if 0 < i {
            tally.count(rt, line.kind(), line.class())?;
            line.len = 0;
        }
        line.add(piece);
    }
    Ok(())
}

fn main(rt: HostRuntime) -> io::Result<()> {
    let mut tally = Tally::EMPTY;
    let mut line = Buffer::EMPTY;
    let mut chunk = [0; LONGEST];
    let mut input = rt.stdin();
    for _ in 0..u64::MAX {
        let n = input.read(&mut chunk)?;
        if n == 0 {
            break;
        }
        take(&rt, &chunk[..n], &mut line, &mut tally)?;
    }
    tally.print(&rt)
}
