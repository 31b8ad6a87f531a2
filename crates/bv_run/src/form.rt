//! The commands that run sessions, and the words that write them.
ghost use Rattle.std.specs.Prelude.{◌≡◌, [], ◌∷◌, map, string_bytes, IfSome, IfNone};
ghost use Rattle.bv_run.specs.Words.{IsForm, IsNoForm, IsFreshWord, IsNoFreshWord, made_by};

use bv_serve::read_number;
use spec_record::Geometry;

/// The least rounds of the demonstration.
const LEAST_ROUNDS: u64 = 1;

/// The most rounds of the demonstration.
const MOST_ROUNDS: u64 = 32;

/// A command that runs sessions.
#[derive(Clone, Copy, Debug, PartialEq, Eq)]
pub enum Form {
    /// Run the script of the input on the volume that is there.
    Script,
    /// Make a volume of these counts and this version, and run the script of the input on it.
    Fresh(Geometry),
    /// Make a volume, and run the demonstration's script of so many rounds on it.
    Demo(u64),
}

/// The counts of the demonstration's volume.
const DEMO: Geometry = Geometry {
    blocks: 4096,
    nodes: 1024,
    journal: 64,
    version: 1,
};

impl Form {
    /// The command that the words write, if they write one.
    pub fn parse(words: &[String]) -> Option<Form>
        ensures some { IfSome result (λ form. IsForm (map string_bytes words.now) form) }
        ensures none { IfNone result (IsNoForm (map string_bytes words.now)) }
    {
        match words {
            [word] => one_word(word),
            [name, rounds] => demo_of(name, rounds),
            [name, blocks, nodes, journal] => fresh_of(name, blocks, nodes, journal),
            _ => None,
        }
    }

    /// The counts of the volume that is made before the script runs, if one is.
    pub fn made(self) -> Option<Geometry>
        ensures { result ≡ made_by self }
    {
        match self {
            Form::Script => None,
            Form::Fresh(geometry) => Some(geometry),
            Form::Demo(_) => Some(DEMO),
        }
    }
}

/// The command that one word writes, if it writes one.
fn one_word(word: &str) -> Option<Form>
    ensures some { IfSome result (λ form. IsForm (word.now ∷ []) form) }
    ensures none { IfNone result (IsNoForm (word.now ∷ [])) }
{
    match word {
        "script" => Some(Form::Script),
        _ => None,
    }
}

/// The demonstration, if these two words write it.
#[tactic(auto, using(crate::proofs::WordsLemmas::no_name, crate::proofs::WordsLemmas::no_number, crate::proofs::WordsLemmas::no_low, crate::proofs::WordsLemmas::no_high))]
fn demo_of(name: &str, rounds: &str) -> Option<Form>
    ensures some { IfSome result (λ form. IsForm (name.now ∷ rounds.now ∷ []) form) }
    ensures none { IfNone result (IsNoForm (name.now ∷ rounds.now ∷ [])) }
{
    if name != "demo" {
        return None;
    }
    let count = read_number(rounds)?;
    if count < LEAST_ROUNDS {
        return None;
    }
    if count > MOST_ROUNDS {
        return None;
    }
    Some(Form::Demo(count))
}

/// The command that makes a volume and runs a script on it, if these four words write one.
fn fresh_of(name: &str, blocks: &str, nodes: &str, journal: &str) -> Option<Form>
    ensures some { IfSome result
        (λ form. IsForm (name.now ∷ blocks.now ∷ nodes.now ∷ journal.now ∷ []) form) }
    ensures none { IfNone result
        (IsNoForm (name.now ∷ blocks.now ∷ nodes.now ∷ journal.now ∷ [])) }
{
    let geometry = Geometry {
        version: version_of(name)?,
        blocks: read_number(blocks)?,
        nodes: read_number(nodes)?,
        journal: read_number(journal)?,
    };
    Some(Form::Fresh(geometry))
}

/// The version of the volumes that the word makes, if it makes any.
fn version_of(name: &str) -> Option<u32>
    ensures some { IfSome result (λ version. IsFreshWord name.now version) }
    ensures none { IfNone result (IsNoFreshWord name.now) }
{
    match name {
        "fresh" => Some(1),
        "fresh2" => Some(2),
        _ => None,
    }
}
