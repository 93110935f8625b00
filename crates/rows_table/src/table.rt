use crate::miss::{Answer, Miss};
use crate::values::{Names, text, words_of};
use crate::words::Call;
use std::alloc::Global;
use std::io;

/// What makes the calls of a table's rows.
pub trait Rows {
    /// What a call of this subject answers.
    fn answer(&mut self, alloc: Global, subject: &str, call: &Call) -> Answer;
}

/// Reads the table on standard input, and prints of each subject how many of its rows hold.
pub fn count_rows<R: Rows + Drop>(
    rt: &(impl Input + Print + AllocGlobal),
    rows: R,
) -> io::Result<()> {
    let text = io::read_to_string(rt.alloc(), rt.reader())?;
    let mut table = Table::new(rt.alloc(), rows);
    for line in text.lines() {
        table.take(rt, line.trim())?;
    }
    table.end(rt)
}

/// A table that is read: its names, and how many rows of the subject hold.
#[derive(Drop)]
struct Table<R: Rows + Drop> {
    alloc: Global,
    names: Names,
    subject: String,
    held: u64,
    rows: R,
}

/// A row, without its words' spelling.
#[derive(Drop)]
struct Row {
    words: Vec<Vec<u8>>,
    answer: Vec<u8>,
}

impl<R: Rows + Drop> Table<R> {
    fn new(alloc: Global, rows: R) -> Table<R> {
        Table {
            alloc,
            names: Names::new(alloc),
            subject: String::new(alloc),
            held: 0,
            rows,
        }
    }

    /// Takes a line of the table.
    fn take(&mut self, rt: &impl Print, line: &str) -> io::Result<()> {
        if line.is_empty() || line.starts_with('#') {
            return Ok(());
        }
        if let Some(subject) = line.strip_prefix("== ") {
            self.end(rt)?;
            self.subject = String::from_str(self.alloc, subject)?;
            self.held = 0;
            return Ok(());
        }
        match self.judged(line) {
            Ok(None) => Ok(()),
            Ok(Some(came)) => println!(rt; "{line}\n  came {}", came.escape_ascii()),
            Err(miss) => println!(rt; "{line}\n  not understood: {miss:?}"),
        }
    }

    /// Ends the subject, and prints how many of its rows hold.
    fn end(&mut self, rt: &impl Print) -> io::Result<()> {
        if self.subject.is_empty() {
            return Ok(());
        }
        let (subject, held) = (&self.subject, self.held);
        println!(rt; "{subject} {held}")
    }

    /// Does what the line says. Answers what came where it is a row that differs.
    fn judged(&mut self, line: &str) -> Result<Option<Vec<u8>>, Miss> {
        if let Some(rest) = line.strip_prefix("let ") {
            self.define(rest)?;
            return Ok(None);
        }
        let row = self.row(line)?;
        let came = self.answer(&row.words)?;
        if came == row.answer {
            self.held = self.held.saturating_add(1);
            return Ok(None);
        }
        Ok(Some(came))
    }

    /// Lets a name stand for a value.
    fn define(&mut self, line: &str) -> Result<(), Miss> {
        let words = words_of(self.alloc, line.as_bytes())?;
        let [name, value] = words.as_slice() else {
            return Err(Miss::Words);
        };
        let value = self.names.value(self.alloc, value)?;
        Ok(self.names.put(name.clone()?, value)?)
    }

    /// The row of a line.
    fn row(&self, line: &str) -> Result<Row, Miss> {
        let mut words = Vec::new(self.alloc);
        let mut answer = Vec::new(self.alloc);
        let mut past = 0u64;
        for word in words_of(self.alloc, line.as_bytes())? {
            if past == 0 && word.as_slice() == b"=".as_slice() {
                past = 1;
                continue;
            }
            let value = self.names.value(self.alloc, &word)?;
            if past == 0 {
                words.push(value)?;
                continue;
            }
            if past > 1 {
                answer.push(b' ')?;
            }
            answer.extend_from_slice(&value)?;
            past = 2;
        }
        if past == 0 {
            Err(Miss::Words)
        } else {
            Ok(Row { words, answer })
        }
    }

    /// What the call answers.
    fn answer(&mut self, words: &[Vec<u8>]) -> Answer {
        let [name, words @ ..] = words else {
            return Err(Miss::Words);
        };
        let call = Call::new(text(name)?, words);
        self.rows.answer(self.alloc, self.subject.as_str(), &call)
    }
}
