// The words of a line, and what stands after an event's name, taken word by word.
ghost use Rattle.std.specs.Prelude.{◌≡◌, ◌≤◌, true, false, ◌∷◌, [], min, MatchOption, IfOk};
ghost use Rattle.rules.specs.Tests.{all};
ghost use Rattle.list_line.specs.Reading.{digit_byte, value, words_of};
ghost use Rattle.list_line.specs.Reading as reading;
ghost use Rattle.list_line.specs.Faults.{number_of};
ghost use Rattle.list_line.specs.Scanning.{TakesNumber, TakesRole, TakesEnd};

use crate::Fault;
use crate::scan::{Until, scan};
use rules::Role;
use std::marker::Model;

// For the events' names: a `match` on eleven byte strings has a goal for each byte of each, and over a dozen of them stay open.
pub fn same(word: &[u8], name: &[u8]) -> bool
    ensures { result ≡ reading.same word.now name.now }
{
    // Not by `==`, which is a call for each name of that length.
    if word.len() != name.len() {
        return false;
    }
    for i in 0..word.len() {
        if word[i] != name[i] {
            return false;
        }
    }
    true
}

// The number that a word of digits is, 65,536 for each above 65,535; none for another word. It is passed over once.
fn value(word: &[u8]) -> Option<u32>
    ensures { MatchOption result (all digit_byte word.now ≡ false)
        (λ n. (all digit_byte word.now ≡ true) × (n ≡ min (value word.now) 65536)) }
{
    let mut n = 0u32;
    for b in word {
        if !b.is_ascii_digit() {
            return None;
        }
        n = (n * 10 + u32::from(*b - b'0')).min(65536);
    }
    Some(n)
}

// The words of a line from a place on.
#[derive(Drop)]
pub struct Words<'a> {
    line: &'a [u8],
    at: usize,
}

impl<'a> Model for Words<'a> {
    ghost use Rattle.std.specs.Prelude.{ℕ, List, drop};
    ghost use Rattle.list_line.specs.Reading.{words_of};

    ghost Value = { List (List ℕ) };

    ghost view = { λ s. words_of (drop s.at s.line.now) };
}

impl<'a> Words<'a> {
    pub fn of(line: &'a [u8]) -> Self
        ensures { result ≡ words_of line.now }
    {
        Words { line, at: 0 }
    }

    // The next word.
    pub fn word(&mut self) -> Option<&'a [u8]>
        ensures { MatchOption result (self.old ≡ []) (λ word. self.old ≡ word.now ∷ self.new) }
    {
        let line = self.line;
        let start = scan(line, self.at, Until::Word);
        if start >= line.len() {
            return None;
        }
        let end = scan(line, start, Until::Blank);
        let word = &line[start..end];
        self.at = end;
        Some(word)
    }

    pub fn number(&mut self, most: u16, above: Fault) -> Result<u16, Fault>
        ensures takes { TakesNumber self.old most (number_of above) result self.new }
        ensures bounded { IfOk result (λ n. n ≤ most) }
    {
        let word = self.word().ok_or(Fault::Missing)?;
        match value(word) {
            None => Err(Fault::Missing),
            Some(n) if n <= u32::from(most) => Ok(n as u16),
            Some(_) => Err(above),
        }
    }

    pub fn byte(&mut self) -> Result<u8, Fault>
        ensures { TakesNumber self.old 255 4 result self.new }
    {
        let n = self.number(255, Fault::Above255)?;
        Ok(n as u8)
    }

    pub fn wide(&mut self) -> Result<u16, Fault>
        ensures { TakesNumber self.old 65535 5 result self.new }
    {
        self.number(65535, Fault::Above65535)
    }

    #[tactic(auto, using(crate::proofs::Numerals::same_lengths), unfolding(crate::specs::Reading::same, rules::specs::Key::bytes))]
    pub fn role(&mut self) -> Result<Role, Fault>
        ensures { TakesRole self.old result self.new }
    {
        match self.word().ok_or(Fault::Missing)? {
            b"client" => Ok(Role::Client),
            b"server" => Ok(Role::Server),
            _ => Err(Fault::NeitherRole),
        }
    }

    // No word is left.
    pub fn end(&mut self) -> Result<(), Fault>
        ensures { TakesEnd self.old result }
    {
        match self.word() {
            None => Ok(()),
            Some(_) => Err(Fault::OneTooMany),
        }
    }
}
