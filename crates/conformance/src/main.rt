// Reads a conformance list from standard input, makes every call that it names, and prints how many
// answers differ from what the list says. The list's format stands in its first lines. An input that fills
// its space counts as a difference more.
#![tactic(auto)]

ghost use Rattle.std.specs.Prelude.{◌≡◌, length};
ghost use Rattle.std.specs.Io.{ReadsAtMost};

mod answer;
mod call;
mod case;
mod description;
mod lent;
mod line;
mod numbers;
mod reading;
mod sets;
mod writing;

use crate::answer::{Answer, Value};
use crate::call::Call;
use crate::case::{Case, LONGEST};
use crate::line::{Line, LineError};
use std::io;
use std::io::Read;

// Octets of a list, one more than it can have.
const INPUT: usize = 1048576;

// Differences that are printed.
const SHOWN: usize = 20;

// What is counted; the case whose lines are taken; and what the last writer left in its buffer.
#[derive(Drop)]
struct Run {
    lines: usize,
    cases: usize,
    answers: usize,
    differ: usize,
    case: Case,
    buffer: [u8; LONGEST],
}

impl Run {
    fn new() -> Run {
        Run {
            lines: 0,
            cases: 0,
            answers: 0,
            differ: 0,
            case: Case::before_the_first(),
            buffer: [0; LONGEST],
        }
    }

    // Takes a line; one that is empty or a comment says nothing.
    fn take(&mut self, rt: &impl Print, text: &str) -> io::Result<()> {
        self.lines = self.lines.saturating_add(1);
        if text.is_empty() || text.starts_with('#') {
            return Ok(());
        }
        match self.take_line(rt, Line::new(text)) {
            Ok(()) => Ok(()),
            Err(LineError::Io(e)) => Err(e),
            Err(LineError::NotUnderstood) => self.not_understood(rt),
        }
    }

    // Takes a line that isn't empty or a comment.
    fn take_line(&mut self, rt: &impl Print, mut line: Line) -> Result<(), LineError> {
        if line.name == "case" {
            self.case = Case::new();
            self.cases = self.cases.saturating_add(1);
            return Ok(());
        }
        if let Some(call) = Call::parse(&mut line, &mut self.case)? {
            self.take_call(rt, &call, line)?;
            return Ok(());
        }
        self.case.take(line)
    }

    // Makes a call, and holds its answer against the one that its line says.
    fn take_call(&mut self, rt: &impl Print, call: &Call, line: Line) -> io::Result<()> {
        self.answers = self.answers.saturating_add(1);
        let outcome = call.make(&mut self.case, &mut self.buffer);
        let said = call.form(&self.case).said(line);
        if outcome.is_right && said.is_ok_and(|said| said == outcome.answer) {
            return Ok(());
        }
        if self.differ < SHOWN {
            self.print_answer(rt, call, outcome.answer)?;
        }
        self.differ = self.differ.saturating_add(1);
        Ok(())
    }

    // An answer that a line doesn't say. Printed part by part: the octets of a writer are the run's.
    fn print_answer(&self, rt: &impl Print, call: &Call, answer: Answer) -> io::Result<()> {
        print!(rt; "line {}: answered ", self.lines)?;
        match answer {
            Ok(value) => {
                print!(rt; "accepted {value}")?;
                self.print_written(rt, call, value)?;
            }
            Err(refused) => print!(rt; "refused {} {}", refused.number, refused.place)?,
        }
        println!(rt)
    }

    // The octets that a writer wrote.
    fn print_written(&self, rt: &impl Print, call: &Call, value: Value) -> io::Result<()> {
        if let (Call::Write(_), Value::Number(n)) = (call, value) {
            print!(rt; " ")?;
            for octet in &self.buffer[..n.min(LONGEST)] {
                print!(rt; "{octet:02x}")?;
            }
        }
        Ok(())
    }

    // A line that isn't of the format.
    fn not_understood(&mut self, rt: &impl Print) -> io::Result<()> {
        if self.differ < SHOWN {
            println!(rt; "line {}: not understood", self.lines)?;
        }
        self.differ = self.differ.saturating_add(1);
        Ok(())
    }

    // Nothing else shows these numbers, so a Display would be longer.
    fn print(&self, rt: &impl Print) -> io::Result<()> {
        println!(rt; "{} cases", self.cases)?;
        println!(rt; "{} answers", self.answers)?;
        println!(rt; "{} differ", self.differ)
    }
}

// The octets of a list before they are read.
fn space() -> [u8; INPUT]
    ensures { length result ≡ 1048576 }
{
    [0; INPUT]
}

// Reads until buf is full or the input ends, and answers how many octets it put at the start of buf. Each
// turn puts one at least, so there are no more turns than octets.
fn read_full(reader: &mut impl Read, buf: &mut [u8]) -> io::Result<usize>
    ensures { ReadsAtMost result buf.new }
{
    let mut done = 0;
    for _ in 0..buf.len() {
        let n = reader.read(&mut buf[done..])?;
        if n == 0 {
            break;
        }
        done += n;
    }
    Ok(done)
}

// The text of a list. No word of the format has an octet that isn't ASCII, nor the mark that stands for
// one here.
fn text_of(list: &mut [u8]) -> &str {
    for octet in list.iter_mut() {
        if !octet.is_ascii() {
            *octet = b'?';
        }
    }
    std::str::from_utf8(list).unwrap_or_default()
}

fn main(rt: HostRuntime) -> io::Result<()> {
    let mut input = space();
    let n = read_full(&mut rt.stdin(), &mut input)?;
    let mut run = Run::new();
    for line in text_of(&mut input[..n]).split('\n') {
        run.take(&rt, line)?;
    }
    if INPUT <= n {
        println!(rt; "the list is too long")?;
        run.differ = run.differ.saturating_add(1);
    }
    run.print(&rt)
}
