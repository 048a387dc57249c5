//! How a description becomes part of a drawing.
ghost use Rattle.std.specs.Prelude.{◌≡◌, ◌<◌, ◌≤◌, false, List, [], ◌∷◌, length, MatchOption, MatchResult};
ghost use Rattle.std.specs.List.{ContainsAt as Has};
ghost use Rattle.parts.specs.Building.{bytes, known, mark, Building, Described, Numbered, Filled, Crowded, Unfit};
ghost use Rattle.parts.specs.Drawn.{Called};
ghost use Rattle.parts.specs.Text.{Bytes};

use super::Drawing;
use crate::fault::{Fault, LineError};
use crate::names;
use std::alloc::Global;

const MOST_PARTS: usize = 1024;

impl<'a> Drawing<'a> {
    // A drawing with no parts.
    pub(crate) fn new(heap: Global) -> Drawing<'a>
        ensures { Building [] result }
    {
        Drawing {
            names: Vec::new(heap),
            slots: Vec::new(heap),
            described: Vec::new(heap),
            lines: 0,
            references: 0,
        }
    }

    // One more description: the name of a part, and the names of those that it points to.
    pub(crate) fn describe(&mut self, words: &[&'a [u8]]) -> Result<(), LineError>
        requires some { 0 < length words.now }
        ensures { (ds : List (List Bytes)) → Building ds self.old → Described ds (bytes words.now) self.new result }
    {
        names::check(words)?;
        let part = self.subject(words[0])?;
        self.place(part, &words[1..])?;
        self.described[usize::from(part) - 1] = true;
        self.lines += 1;
        self.references += words.len() - 1;
        Ok(())
    }

    // Fills the first slots of a part with the numbers of these names.
    fn place(&mut self, part: u16, names: &[&'a [u8]]) -> Result<(), LineError>
        requires is_part { (1 ≤ part) × (part ≤ length (known self.old)) }
        requires fits { length names.now ≤ 4 }
        ensures { MatchResult result (λ _. Filled part (bytes names.now) self.old self.new) (Crowded (bytes names.now) self.old) }
    {
        let first = 4 * (usize::from(part) - 1);
        // By their numbers, since a name may be that of a new part, whose slots come to the others.
        for (slot, name) in names.iter().enumerate() {
            let number = self.number(name)?;
            self.slots[first + slot] = number;
        }
        Ok(())
    }

    // The number of the part that a description is about, which no other may have described.
    fn subject(&mut self, name: &'a [u8]) -> Result<u16, LineError>
        ensures { MatchResult result (λ c. Numbered name.now self.old self.new c × (mark self.new c ≡ false)) (Unfit name.now self.old) }
    {
        let part = self.number(name)?;
        if self.described[usize::from(part) - 1] {
            return Err(Fault::DescribedTwice.into());
        }
        Ok(part)
    }

    // The number of the part with this name, which becomes a new part if it is none yet.
    fn number(&mut self, name: &'a [u8]) -> Result<u16, LineError>
        ensures { MatchResult result (λ c. Numbered name.now self.old self.new c) (Crowded (name.now ∷ []) self.old) }
    {
        // Plainer than `map_or_else`, whose closure would hide that a part is added.
        match self.find(name) {
            Some(part) => Ok(part),
            None => self.add(name),
        }
    }

    // The number of the part with this name.
    pub(crate) fn find(&self, name: &[u8]) -> Option<u16>
        ensures { MatchOption result (Has (known self.now) name.now → ⊥) (λ c. Called (known self.now) c name.now) }
    {
        let place = self.names.iter().position(|other| *other == name)?;
        Some(place as u16 + 1)
    }

    // A new part, with its number.
    fn add(&mut self, name: &'a [u8]) -> Result<u16, LineError>
        requires { Has (known self.old) name.now → ⊥ }
        ensures { MatchResult result (λ c. Numbered name.now self.old self.new c × (mark self.new c ≡ false)) (Crowded (name.now ∷ []) self.old) }
    {
        if self.names.len() == MOST_PARTS {
            return Err(Fault::TooManyParts.into());
        }
        // Memory first, so that the part is new in all three or in none.
        self.names.reserve(1)?;
        self.described.reserve(1)?;
        self.slots.extend_from_slice(&[0; 4])?;
        self.names.push_reserved(name);
        self.described.push_reserved(false);
        Ok(self.names.len() as u16)
    }
}
