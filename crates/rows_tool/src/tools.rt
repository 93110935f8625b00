//! The program's work on words and streams: how it ends, and what it writes.
use crate::sinks::ByteSink;
use crate::streams::script;
use repl_disk::MemoryDisk;
use repl_io::{Sink, Source, SteadyLink};
use repl_top::{Status, run_tool, status_line, status_number};
use rows_table::{Answer, Call, Miss, debug, joined, number, said, text};
use std::alloc::{AllocError, Global};

pub fn answer(alloc: Global, call: &Call) -> Answer {
    if let Some([status]) = call.words("status") {
        return status_of(alloc, status, b"0");
    }
    if let Some([status, count]) = call.words("status") {
        return status_of(alloc, status, count);
    }
    if let Some([count]) = call.words("lines") {
        return lines(alloc, count);
    }
    let (words, call) = call.apart()?;
    ran(alloc, words, &call)
}

/// A run of the tool: its words stand before a `:`, and what it reads and writes after it.
fn ran(alloc: Global, words: &[Vec<u8>], call: &Call) -> Answer {
    if let Some([input]) = call.words("tool") {
        return steady(alloc, words, input);
    }
    if let Some([input]) = call.words("left") {
        return left(alloc, words, input);
    }
    if let Some(steps) = call.words("scripted") {
        return scripted(alloc, words, steps);
    }
    if let Some([limit, input]) = call.words("limited") {
        return limited(alloc, words, limit, input);
    }
    if let Some([input]) = call.words("failing") {
        return failing(alloc, words, input);
    }
    if let Some([input]) = call.words("fronts") {
        return fronts(alloc, words, input);
    }
    if let Some([input]) = call.words("flips") {
        return flips(alloc, words, input);
    }
    Err(Miss::Call)
}

/// The words of a command line.
pub fn owned(alloc: Global, words: &[Vec<u8>]) -> Result<Vec<String>, Miss> {
    let mut all = Vec::new(alloc);
    for word in words {
        all.push(String::from_str(alloc, text(word)?)?)?;
    }
    Ok(all)
}

/// The status of a run beside an empty disk.
fn ran_over<S: Source, K: Sink>(
    alloc: Global,
    words: &[Vec<u8>],
    input: &mut S,
    out: &mut K,
) -> Result<Status, Miss> {
    let disk = MemoryDisk::new(alloc, Vec::new(alloc));
    let (status, _disk) = run_tool(alloc, &owned(alloc, words)?, input, out, disk);
    Ok(status)
}

/// The status, and what was written.
pub fn told(alloc: Global, status: &Status, written: &[u8]) -> Answer {
    let line = status_line(alloc, status)?;
    let line = match line.as_slice() {
        [words @ .., b'\n'] => words,
        _ => return said(alloc, "no line"),
    };
    if written.is_empty() {
        return Ok(line.to_vec(alloc)?);
    }
    joined(alloc, &[line, written])
}

/// A run over links in memory.
fn steady(alloc: Global, words: &[Vec<u8>], input: &[u8]) -> Answer {
    let mut input = SteadyLink::new(alloc, input.to_vec(alloc)?)?;
    let mut out = SteadyLink::new(alloc, Vec::new(alloc))?;
    let status = ran_over(alloc, words, &mut input, &mut out)?;
    told(alloc, &status, out.written())
}

/// A run over a link that follows steps.
fn scripted(alloc: Global, words: &[Vec<u8>], steps: &[Vec<u8>]) -> Answer {
    let mut input = script(alloc, steps)?;
    let mut out = SteadyLink::new(alloc, Vec::new(alloc))?;
    let status = ran_over(alloc, words, &mut input, &mut out)?;
    told(alloc, &status, out.written())
}

/// A run that writes to a sink of so many bytes.
fn limited(alloc: Global, words: &[Vec<u8>], limit: &[u8], input: &[u8]) -> Answer {
    let mut out = ByteSink::new(alloc, number(limit)?);
    let mut input = SteadyLink::new(alloc, input.to_vec(alloc)?)?;
    let status = ran_over(alloc, words, &mut input, &mut out)?;
    told(alloc, &status, out.taken())
}

/// A run whose first write fails.
fn failing(alloc: Global, words: &[Vec<u8>], input: &[u8]) -> Answer {
    let mut out = script(alloc, &[b"failing:1".to_vec(alloc)?])?;
    let mut input = SteadyLink::new(alloc, input.to_vec(alloc)?)?;
    let status = ran_over(alloc, words, &mut input, &mut out)?;
    told(alloc, &status, out.written())
}

/// The run over links in memory, and after it what a further read of 40 bytes answers.
fn left(alloc: Global, words: &[Vec<u8>], input: &[u8]) -> Answer {
    let mut input = SteadyLink::new(alloc, input.to_vec(alloc)?)?;
    let mut out = SteadyLink::new(alloc, Vec::new(alloc))?;
    let status = ran_over(alloc, words, &mut input, &mut out)?;
    let got = debug(alloc, &input.read(&mut [0; 40]))?;
    joined(alloc, &[&told(alloc, &status, out.written())?, &got])
}

/// Answers of runs, and how often the last one came.
#[derive(Drop)]
struct Runs {
    told: Vec<u8>,
    last: Vec<u8>,
    count: u64,
}

impl Runs {
    fn new(alloc: Global) -> Runs {
        Runs {
            told: Vec::new(alloc),
            last: Vec::new(alloc),
            count: 0,
        }
    }

    /// Counts the answer of the next run.
    fn add(&mut self, alloc: Global, answer: Vec<u8>) -> Result<(), AllocError> {
        if self.count > 0 && answer != self.last {
            self.end(alloc)?;
        }
        self.last = answer;
        self.count = self.count.saturating_add(1);
        Ok(())
    }

    /// Tells how often the last answer came.
    fn end(&mut self, alloc: Global) -> Result<(), AllocError> {
        if !self.told.is_empty() {
            self.told.push(b' ')?;
        }
        let head = format!(in alloc; "{} ", self.count)?;
        self.told.extend_from_slice(head.as_bytes())?;
        self.told.extend_from_slice(&self.last)?;
        self.count = 0;
        Ok(())
    }
}

/// The runs over each front of the input that is not all of it.
fn fronts(alloc: Global, words: &[Vec<u8>], input: &[u8]) -> Answer {
    let mut runs = Runs::new(alloc);
    for end in 0..input.len() {
        runs.add(alloc, steady(alloc, words, &input[..end])?)?;
    }
    runs.end(alloc)?;
    Ok(runs.told)
}

/// The runs over the input with the lowest bit of one byte turned, for each byte.
fn flips(alloc: Global, words: &[Vec<u8>], input: &[u8]) -> Answer {
    let mut runs = Runs::new(alloc);
    for place in 0..input.len() {
        let mut other = input.to_vec(alloc)?;
        if let Some(byte) = other.get_mut(place) {
            *byte ^= 1;
        }
        runs.add(alloc, steady(alloc, words, &other)?)?;
    }
    runs.end(alloc)?;
    Ok(runs.told)
}

/// Whether `frames back` prints the line of each of so many messages that say that the server waits.
fn lines(alloc: Global, count: &[u8]) -> Answer {
    let count = number(count)?;
    let mut input = Vec::new(alloc);
    for _ in 0..count {
        input.extend_from_slice(b"Z\0\0\0\x05I")?;
    }
    let words = vec![in alloc; b"frames".to_vec(alloc)?, b"back".to_vec(alloc)?]?;
    if steady(alloc, &words, &input)? == wanted_lines(alloc, count)? {
        said(alloc, "all agree")
    } else {
        said(alloc, "another end")
    }
}

fn wanted_lines(alloc: Global, count: u64) -> Result<Vec<u8>, AllocError> {
    let mut wanted = b"Ok ".to_vec(alloc)?;
    for number in 0..count {
        let line = format!(in alloc; "{} Z 5\n", number.wrapping_mul(6))?;
        wanted.extend_from_slice(line.as_bytes())?;
    }
    Ok(wanted)
}

fn status_named(name: &str, number: u64) -> Result<Status, Miss> {
    match name {
        "Ok" => Ok(Status::Ok),
        "Usage" => Ok(Status::Usage(number as usize)),
        "BadInput" => Ok(Status::BadInput(number)),
        "ReadFault" => Ok(Status::ReadFault),
        "WriteFault" => Ok(Status::WriteFault),
        "DiskFault" => Ok(Status::DiskFault),
        "TurnsSpent" => Ok(Status::TurnsSpent),
        "Memory" => Ok(Status::Memory),
        "Exists" => Ok(Status::Exists),
        _ => Err(Miss::Words),
    }
}

/// The number of a status, and its line.
fn status_of(alloc: Global, name: &[u8], count: &[u8]) -> Answer {
    let status = status_named(text(name)?, number(count)?)?;
    let head = debug(alloc, &status_number(&status))?;
    joined(alloc, &[&head, &status_line(alloc, &status)?])
}
