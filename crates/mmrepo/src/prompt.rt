//! Standard input, with a prompt if a person types the lines.
use std::io;
use std::io::{IsTerminal, Read, StdinLock};

/// The prompt on standard error while the program waits for a line.
const PROMPT: &str = "> ";

/// Standard input. If it is a terminal, a prompt is written to standard error before each read.
#[derive(Drop)]
pub(crate) struct Prompted<'a> {
    rt: &'a HostRuntime,
    stdin: StdinLock<'a>,
    is_terminal: bool,
}

impl<'a> Prompted<'a> {
    pub(crate) fn new(rt: &'a HostRuntime) -> Self {
        let stdin = rt.reader();
        let is_terminal = stdin.is_terminal();
        Prompted {
            rt,
            stdin,
            is_terminal,
        }
    }
}

impl Read for Prompted<'_> {
    fn read(&mut self, buf: &mut [u8]) -> io::Result<usize> {
        if !self.is_terminal {
            return self.stdin.read(buf);
        }
        let _ = eprint!(self.rt; "{PROMPT}");
        let read = self.stdin.read(buf);
        if matches!(read, Ok(0)) {
            // At the end of the input nothing is typed after the prompt, so a newline ends the line of the prompt.
            let _ = eprintln!(self.rt);
        }
        read
    }
}
