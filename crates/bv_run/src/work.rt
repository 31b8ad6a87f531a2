//! What the words of a command ask for.
ghost use Rattle.std.specs.Prelude.{◌≡◌, map, string_bytes, IfSome, IfNone};
ghost use Rattle.bv_run.specs.Work.{Writes, WriteNothing};

use crate::Form;
use bv_serve::Command;

/// What the words ask for: a command that needs no sessions, or one that runs them.
#[derive(Clone, Copy, Debug, PartialEq, Eq)]
pub enum Work {
    /// A command that needs no sessions.
    Plain(Command),
    /// A command that runs sessions.
    Sessions(Form),
}

impl Work {
    /// What the words ask for, if they are one of the written forms.
    pub fn parse(words: &[String]) -> Option<Work>
        ensures some { IfSome result (λ work. Writes (map string_bytes words.now) work) }
        ensures none { IfNone result (WriteNothing (map string_bytes words.now)) }
    {
        if let Some(form) = Form::parse(words) {
            return Some(Work::Sessions(form));
        }
        match Command::parse(words) {
            Some(command) => Some(Work::Plain(command)),
            None => None,
        }
    }
}
