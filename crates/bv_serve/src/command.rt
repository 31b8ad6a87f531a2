//! The commands, and the words that write them.
ghost use Rattle.std.specs.Prelude.{◌≡◌, [], ◌∷◌, map, string_bytes, IfSome, IfNone};
ghost use Rattle.bv_serve.specs.Words.{IsForm, IsNoForm, IsFormatWord, IsNoFormatWord};

use crate::number::read_number;
use spec_record::Geometry;

/// What the words ask for.
#[derive(Clone, Copy, Debug, PartialEq, Eq)]
pub enum Command {
    /// Print the Merkle root of the input.
    Root,
    /// Print the blobs of the volume.
    ListBlobs,
    /// Check the volume, and print what is wrong with it.
    Check,
    /// Put in place what the journal of the volume holds.
    Recover,
    /// Recover the volume, and make it one of version 2.
    Upgrade,
    /// Make a volume without a blob, of these counts and this version.
    Format(Geometry),
}

impl Command {
    /// The command that the words write, if they are one of the written forms.
    pub fn parse(words: &[String]) -> Option<Command>
        ensures some { IfSome result
            (λ command. IsForm (map string_bytes words.now) command) }
        ensures none { IfNone result (IsNoForm (map string_bytes words.now)) }
    {
        match words {
            [word] => one_word(word.as_str()),
            [name, blocks, nodes, journal] => format_of(name, blocks, nodes, journal),
            _ => None,
        }
    }
}

/// The command that one word writes, if it writes one.
fn one_word(word: &str) -> Option<Command>
    ensures some { IfSome result (λ command. IsForm (word.now ∷ []) command) }
    ensures none { IfNone result (IsNoForm (word.now ∷ [])) }
{
    match word {
        "root" => Some(Command::Root),
        "list" => Some(Command::ListBlobs),
        "check" => Some(Command::Check),
        "recover" => Some(Command::Recover),
        "upgrade" => Some(Command::Upgrade),
        _ => None,
    }
}

/// The command that makes a volume, if these four words write one.
#[tactic(auto, using(crate::proofs::WordsLemmas::as_form, crate::proofs::WordsLemmas::four_words))]
fn format_of(name: &str, blocks: &str, nodes: &str, journal: &str) -> Option<Command>
    ensures some { IfSome result
        (λ command. IsForm (name.now ∷ blocks.now ∷ nodes.now ∷ journal.now ∷ []) command) }
    ensures none { IfNone result
        (IsNoForm (name.now ∷ blocks.now ∷ nodes.now ∷ journal.now ∷ [])) }
{
    let geometry = Geometry {
        version: version_of(name)?,
        blocks: read_number(blocks)?,
        nodes: read_number(nodes)?,
        journal: read_number(journal)?,
    };
    Some(Command::Format(geometry))
}

/// The version of the volumes that the word makes, if it makes any.
fn version_of(name: &str) -> Option<u32>
    ensures some { IfSome result (λ version. IsFormatWord name.now version) }
    ensures none { IfNone result (IsNoFormatWord name.now) }
{
    match name {
        "format" => Some(1),
        "format2" => Some(2),
        _ => None,
    }
}
