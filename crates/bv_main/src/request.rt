//! What the words of the command line ask the program for. They are judged whole before anything is
//! opened or made.
ghost use Rattle.std.specs.Prelude.{map, string_bytes, IfSome, IfNone};
ghost use Rattle.bv_main.specs.Program.{Asks, AsksNothing};

use crate::access::Access;
use crate::device_word::DeviceWord;
use bv_run::Work;

/// What the words ask for.
#[derive(Clone, Copy, Debug)]
pub enum Request<'a> {
    /// The help.
    Help,
    /// The version of the program and of the kit.
    Version,
    /// The command that needs no device.
    Root,
    /// A command on a device, and what it may do to the device's file.
    On {
        device: DeviceWord<'a>,
        access: Access,
        command: &'a [String],
    },
}

impl<'a> Request<'a> {
    /// What the words ask for, if they are one of the forms.
    pub fn parse(words: &'a [String]) -> Option<Request<'a>>
        ensures some { IfSome result (λ request. Asks (map string_bytes words.now) request) }
        ensures none { IfNone result (AsksNothing (map string_bytes words.now)) }
    {
        match words {
            [word] if word.as_str() == "--help" => Some(Request::Help),
            [word] if word.as_str() == "--version" => Some(Request::Version),
            [word] if word.as_str() == "root" => Some(Request::Root),
            [word, command @ ..] => {
                let device = DeviceWord::parse(word)?;
                let access = Access::of(Work::parse(command)?);
                Some(Request::On {
                    device,
                    access,
                    command,
                })
            }
            [] => None,
        }
    }
}
