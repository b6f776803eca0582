//! How a program ends.

ghost use Rattle.std.specs.Prelude.{◌≡◌, ⊤, List, Option, Some, codes, ℕ};
ghost use Rattle.std.specs.Fmt.{◌++?◌};
ghost use Rattle.aig_command_line.specs.Ending.{IsEnd, IsMapped, ended, status_of};

use std::fmt::Display;

/// How a program ends.
#[derive(Clone, Copy)]
pub enum Ending<E> {
    /// It did what was asked.
    Done,
    /// It refused that.
    Refused(E),
    /// The words of the command line ask for nothing that it does.
    NoCommand,
}

impl<E> Ending<E> {
    /// The ending of a program whose command was run.
    pub fn of(done: Result<(), E>) -> Self
        ensures { result ≡ ended done }
    {
        match done {
            Ok(()) => Ending::Done,
            Err(fault) => Ending::Refused(fault),
        }
    }

    /// The same ending, with what is made of the error of a refusal.
    pub fn map<D, F: FnOnce(E) -> D>(self, f: F) -> Ending<D>
        requires { F.IsAlwaysCallable f }
        ensures { IsMapped (F.post f) self result }
    {
        match self {
            Ending::Done => Ending::Done,
            Ending::Refused(error) => Ending::Refused(f(error)),
            Ending::NoCommand => Ending::NoCommand,
        }
    }

    /// The status of the process: 0 where it is done, 1 where it refused what was asked, and 2 where there is no command.
    pub fn status(&self) -> u8
        ensures { result ≡ status_of self.now }
    {
        match self {
            Ending::Done => 0,
            Ending::Refused(_) => 1,
            Ending::NoCommand => 2,
        }
    }
}

/// Where a program tells what is wrong.
pub trait Teller {
    /// What telling a line leaves, where it may be known what the line says.
    ghost tells: { Self → Option (List ℕ) → Self → Type 0 };

    /// Tells a line.
    fn tell<D: Display + Drop>(&mut self, line: D)
        ensures { tells self.old (D.output line) self.new };
}

/// Standard error. A line that can't be written is lost.
#[derive(Drop)]
pub struct StandardError<'a, R> {
    rt: &'a R,
}

impl<'a, R> StandardError<'a, R> {
    /// The standard error that `rt` reaches.
    pub fn new(rt: &'a R) -> Self {
        StandardError { rt }
    }
}

impl<'a, R: Eprint> Teller for StandardError<'a, R> {
    ghost tells = { λ _ _ _. ⊤ };

    fn tell<D: Display + Drop>(&mut self, line: D) {
        let _ = self.rt.eprintln(line);
    }
}

/// Tells how a program ends, by a line where it isn't done: its name and what it refused for, or how it is used. Returns the
/// status of the process.
pub fn end<E: Display, T: Teller>(
    program: &str,
    usage: &str,
    ending: &Ending<E>,
    errors: &mut T,
) -> u8
    ensures status { result ≡ status_of ending.now }
    ensures told { IsEnd T.tells E.output program.now usage.now ending.now errors.old errors.new }
{
    match ending {
        Ending::Done => {}
        Ending::Refused(fault) => errors.tell(format_args!("{program}: {fault}")),
        Ending::NoCommand => errors.tell(usage),
    }
    ending.status()
}
