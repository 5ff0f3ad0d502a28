//! Runs the cases of a file, one after the other, and collects the answers that differ.

use crate::answers::{answer, by_places, by_ranges};
use crate::case_line::CaseLine;
use std::alloc::{AllocError, Global};
use std::sync::Wait;
use std::thread::Threads;

/// The numbers of workers that answer each expression with each block of [`BLOCKS`].
const WORKERS: &[u32] = &[1, 2, 3];

/// A number of workers that answers each expression once, with one block of [`BLOCKS`]. Starting
/// them takes longer than most cases, so they do not answer with each block.
const MANY_WORKERS: u32 = 64;

/// The numbers of places in a block.
const BLOCKS: &[u32] = &[1, 2, 7, 1_048_576];

/// What the next answer belongs to.
#[derive(Drop)]
enum Asked {
    /// A whole request text.
    Text(String),
    /// An expression over the last inputs, in the last version.
    Expr(String),
}

/// The state of a file's cases: what the lines so far set, and what they found.
#[derive(Drop)]
pub(crate) struct Cases {
    /// How many cases there were.
    pub(crate) count: u64,
    /// The report: a few lines for each answer that differs.
    pub(crate) report: String,
    /// Names in angle brackets, each with the text that it stands for.
    names: Vec<(String, String)>,
    version: u32,
    /// Whether the cases are not answered place by place.
    is_large: bool,
    inputs: String,
    asked: Asked,
    alloc: Global,
}

impl Cases {
    /// Returns the state before the first line of a file.
    pub(crate) fn new(alloc: Global) -> Cases {
        Cases {
            count: 0,
            report: String::new(alloc),
            names: Vec::new(alloc),
            version: 1,
            is_large: false,
            inputs: String::new(alloc),
            asked: Asked::Text(String::new(alloc)),
            alloc,
        }
    }

    /// Runs the cases of a file.
    pub(crate) fn take_all<RT: Threads + Wait + Sync>(
        &mut self,
        rt: &RT,
        file: &str,
    ) -> Result<(), AllocError> {
        for line in file.lines() {
            self.take(rt, CaseLine::of(line))?;
        }
        Ok(())
    }

    fn take<RT: Threads + Wait + Sync>(
        &mut self,
        rt: &RT,
        line: CaseLine<'_>,
    ) -> Result<(), AllocError> {
        match line {
            CaseLine::Note => {}
            CaseLine::Let(named) => self.name(named)?,
            CaseLine::Version(version) => self.version = version,
            CaseLine::Large => self.is_large = true,
            CaseLine::Inputs(inputs) => self.inputs = self.written_out(inputs)?,
            CaseLine::Text(text) => self.asked = Asked::Text(self.written_out(text)?),
            CaseLine::Expr(expr) => self.asked = Asked::Expr(self.written_out(expr)?),
            CaseLine::Answer(line) => {
                let line = self.written_out(line)?;
                self.compare(rt, line.as_str())?;
            }
        }
        Ok(())
    }

    /// Adds a name and the text that it stands for. Earlier names in that text are replaced.
    fn name(&mut self, named: &str) -> Result<(), AllocError> {
        if let Some((name, text)) = named.split_once(' ') {
            let name = format!(in self.alloc; "<{name}>")?;
            let text = self.written_out(text)?;
            self.names.push((name, text))?;
        }
        Ok(())
    }

    /// Returns a text in which each name is replaced by what it stands for.
    fn written_out(&self, text: &str) -> Result<String, AllocError> {
        let mut text = text.to_string(self.alloc)?;
        for (name, meant) in &self.names {
            text = text.replace(self.alloc, name.as_str(), meant.as_str())?;
        }
        Ok(text)
    }

    /// Counts the case, and reports each answer that differs from `line`.
    fn compare<RT: Threads + Wait + Sync>(
        &mut self,
        rt: &RT,
        line: &str,
    ) -> Result<(), AllocError> {
        self.count = self.count.saturating_add(1);
        let report = self.differences(rt, line)?;
        self.report.push_str(report.as_str())
    }

    /// Returns the report of each way to answer the case whose answer differs from `line`.
    fn differences<RT: Threads + Wait + Sync>(
        &self,
        rt: &RT,
        line: &str,
    ) -> Result<String, AllocError> {
        match &self.asked {
            Asked::Text(text) => self.in_each_way(rt, text.as_str(), line),
            Asked::Expr(expr) => self.on_all_workers(rt, expr.as_str(), line),
        }
    }

    /// Returns the report of an expression: in each way once, by each number of workers of
    /// [`WORKERS`] with each block, and by [`MANY_WORKERS`]. The block of the latter changes from
    /// case to case.
    fn on_all_workers<RT: Threads + Wait + Sync>(
        &self,
        rt: &RT,
        expr: &str,
        line: &str,
    ) -> Result<String, AllocError> {
        let text = self.request(expr, 2, 4)?;
        let mut report = self.in_each_way(rt, text.as_str(), line)?;
        for &workers in WORKERS {
            let wrong = self.on_workers(rt, expr, workers, line)?;
            report.push_str(wrong.as_str())?;
        }
        let turn = (self.count % BLOCKS.len() as u64) as usize;
        let wrong = self.on(rt, expr, MANY_WORKERS, BLOCKS[turn], line)?;
        report.push_str(wrong.as_str())?;
        Ok(report)
    }

    /// Returns the report of a text: by a run, by ranges, and place by place unless the case is
    /// large.
    fn in_each_way<RT: Threads + Wait + Sync>(
        &self,
        rt: &RT,
        text: &str,
        line: &str,
    ) -> Result<String, AllocError> {
        let mut answers = Vec::new(self.alloc);
        answers.push(answer(rt, self.alloc, text)?)?;
        answers.push(by_ranges(self.alloc, text)?)?;
        if !self.is_large {
            answers.push(by_places(self.alloc, text)?)?;
        }
        let mut report = String::new(self.alloc);
        for found in &answers {
            let wrong = self.difference(text, found.as_str(), line)?;
            report.push_str(wrong.as_str())?;
        }
        Ok(report)
    }

    /// Returns the report of runs on this number of workers, one run for each block.
    fn on_workers<RT: Threads + Wait + Sync>(
        &self,
        rt: &RT,
        expr: &str,
        workers: u32,
        line: &str,
    ) -> Result<String, AllocError> {
        let mut report = String::new(self.alloc);
        for &block in BLOCKS {
            let wrong = self.on(rt, expr, workers, block, line)?;
            report.push_str(wrong.as_str())?;
        }
        Ok(report)
    }

    /// Returns the report of one run on this number of workers with this block.
    fn on<RT: Threads + Wait + Sync>(
        &self,
        rt: &RT,
        expr: &str,
        workers: u32,
        block: u32,
        line: &str,
    ) -> Result<String, AllocError> {
        let text = self.request(expr, workers, block)?;
        let found = answer(rt, self.alloc, text.as_str())?;
        self.difference(text.as_str(), found.as_str(), line)
    }

    /// Returns the text of a request for an expression over the last inputs.
    fn request(&self, expr: &str, workers: u32, block: u32) -> Result<String, AllocError> {
        let (version, inputs) = (self.version, self.inputs.as_str());
        let head = format!(in self.alloc; "\"version\":{version},\"workers\":{workers}")?;
        let head = head.as_str();
        format!(in self.alloc; "{{{head},\"block\":{block},\"inputs\":{inputs},\"expr\":{expr}}}")
    }

    /// Returns the report of an answer: empty if `found` is `line`.
    fn difference(&self, text: &str, found: &str, line: &str) -> Result<String, AllocError> {
        if found == line {
            return Ok(String::new(self.alloc));
        }
        format!(in self.alloc; "\n{text}\n  gave {found}\n  not {line}")
    }
}
