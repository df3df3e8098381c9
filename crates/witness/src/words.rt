// The arguments: a node or a formula, a state, what is claimed of it there, and at most how many paths.
use std::env::{Env, FillError};

// What is claimed of the node or the formula, and a reason is wanted for.
#[derive(Clone, Copy, PartialEq, Eq, Debug)]
pub(crate) enum Claim {
    True,
    // True or unknown.
    Possible,
    False,
}

impl Claim {
    fn of(word: &[u8]) -> Option<Claim> {
        match word {
            b"true" => Some(Claim::True),
            b"possible" => Some(Claim::Possible),
            b"false" => Some(Claim::False),
            _ => None,
        }
    }
}

// What is wanted of the node or the formula, which is the first word.
#[derive(Clone, Copy)]
pub(crate) struct Wanted {
    pub(crate) start: usize,
    pub(crate) claim: Claim,
    pub(crate) most: usize,
}

// No word behind the first that counts is longer.
const LONGEST: usize = 8;

// Decimal, up to 65535, no leading zeros, as in a model's text.
pub(crate) fn read(word: &[u8]) -> Option<usize> {
    match word {
        b"0" => Some(0),
        // A number without leading zeros begins with another digit, and with no sign.
        [b'1'..=b'9', ..] => {
            let number = str::from_utf8(word).ok()?.parse::<u16>().ok()?;
            Some(usize::from(number))
        }
        _ => None,
    }
}

fn number_at(rt: &HostRuntime, i: usize) -> Option<usize> {
    let mut word = [0u8; LONGEST];
    let n = rt.arg(i, &mut word).unwrap_or(0);
    read(&word[..n])
}

// kept: number_at but for the reading of the word: one function of both, with a closure and its requires, is as long as the two.
fn claim_at(rt: &HostRuntime, i: usize) -> Option<Claim> {
    let mut word = [0u8; LONGEST];
    let n = rt.arg(i, &mut word).unwrap_or(0);
    Claim::of(&word[..n])
}

// One word more than is ever asked with, the program's name among them.
const MOST_WORDS: usize = 6;

// How many words the program was called with, its name among them; from the most on they aren't counted.
// kept: `ask` counts its words alike, but of the words that there are no contract says anything, so a shared function could promise no count.
fn word_count(rt: &HostRuntime) -> usize {
    for i in 0..MOST_WORDS {
        // No space is lent: what is given is too long for it, or empty.
        if let Err(FillError::NotPresent) = rt.arg(i, &mut []) {
            return i;
        }
    }
    MOST_WORDS
}

// The last word, where there is one: without it every path is told.
fn most_at(rt: &HostRuntime, count: usize) -> Option<usize> {
    match count {
        4 => Some(usize::MAX),
        5 => number_at(rt, 4),
        _ => None,
    }
}

// The words behind the first.
pub(crate) fn asked(rt: &HostRuntime) -> Option<Wanted> {
    let most = most_at(rt, word_count(rt))?;
    let start = number_at(rt, 2)?;
    let claim = claim_at(rt, 3)?;
    Some(Wanted { start, claim, most })
}
