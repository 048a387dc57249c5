//! The calls of a program that uses a heap.
use super::kept::Kept;
use super::model::Model;
use trial_tools::Random;

#[derive(Clone, Copy)]
pub enum Call {
    Size {
        n: u16,
    },
    New {
        r: u8,
    },
    Clear {
        r: u8,
    },
    Copy {
        r: u8,
        s: u8,
    },
    Load {
        r: u8,
        s: u8,
        f: u8,
    },
    Store {
        r: u8,
        f: u8,
        s: u8,
    },
    Hold {
        r: u8,
    },
    /// With the token that is kept at this place, which names this hold and this cell.
    Release {
        place: usize,
        hold: usize,
        cell: u16,
    },
}

impl Call {
    /// A release with the token at this place, if one is there.
    pub fn release(tokens: &[Kept], place: usize) -> Option<Call> {
        let kept = tokens.get(place)?;
        Some(Call::Release {
            place,
            hold: kept.hold,
            cell: kept.cell,
        })
    }
}

// One in 32 is out of range, as often as not the first that is.
fn stray(random: &mut Random, bound: u8) -> u8 {
    match random.below(64) {
        0 => bound,
        1 => {
            let [past, _] = random.bits().to_le_bytes();
            bound.saturating_add(past)
        }
        _ => random.below(u16::from(bound)) as u8,
    }
}

// A root to read. An empty one is drawn again, once, since calls that find one do little.
fn source(random: &mut Random, model: &Model) -> u8 {
    let r = stray(random, 16);
    match model.root(r) {
        Some(0) => stray(random, 16),
        _ => r,
    }
}

// Both roots before the slot, so that trials stay the same.
fn store(random: &mut Random, model: &Model) -> Call {
    let r = source(random, model);
    let s = source(random, model);
    let f = stray(random, 4);
    Call::Store { r, f, s }
}

/// What a round plays.
#[derive(Clone, Copy)]
pub struct Mix {
    /// How many calls the round has, but for those at its end.
    pub calls: u32,
    // How many calls in 32 ask for a new cell.
    news: u16,
    // How many in 8 of those with a token bring one back.
    releases: u16,
    // How many cells a heap gets at most, where the number is in range.
    cells: u16,
}

impl Mix {
    /// One round in 64 is big.
    pub fn new(random: &mut Random, round: u32) -> Mix {
        let is_big = round % 64 == 0;
        Mix {
            calls: if is_big { 4096 } else { 768 },
            news: if is_big { 24 } else { random.cell(4) },
            releases: 1 + random.below(6),
            cells: if is_big { 1024 } else { 40 },
        }
    }

    // A number of cells, in range or not.
    fn cells(&self, random: &mut Random, room: u16) -> u16 {
        match random.below(16) {
            0 => 0,
            1 => 1025,
            2 => random.bits(),
            3..=5 => random.below(1100),
            6..=9 => room.min(self.cells),
            _ => random.cell(room.min(self.cells)),
        }
    }

    // A release of one of the tokens, as often as this round has it.
    fn release(&self, random: &mut Random, tokens: &[Kept]) -> Option<Call> {
        if tokens.is_empty() || random.below(8) >= self.releases {
            return None;
        }
        let kept = tokens.len().min(32) as u16;
        Call::release(tokens, usize::from(random.below(kept)))
    }

    /// A call of the heap that the model follows, whose ledger has room for `room` cells.
    pub fn call(&self, random: &mut Random, model: &Model, room: u16, tokens: &[Kept]) -> Call {
        if random.below(32) < self.news {
            return Call::New {
                r: stray(random, 16),
            };
        }
        match random.below(32) {
            0..=1 => Call::Size {
                n: self.cells(random, room),
            },
            2 => Call::Clear {
                r: stray(random, 16),
            },
            3..=7 => Call::Copy {
                r: stray(random, 16),
                s: source(random, model),
            },
            8..=11 => Call::Load {
                r: stray(random, 16),
                s: source(random, model),
                f: stray(random, 4),
            },
            12..=23 => store(random, model),
            _ => match self.release(random, tokens) {
                Some(release) => release,
                None => Call::Hold {
                    r: source(random, model),
                },
            },
        }
    }
}
