//! Where the trials are, and what they came to so far.
use super::model::{Answer, number};
use heap::Refusal;
use std::alloc::{AllocError, Global};
use std::fmt;
use trial_tools::{Kind, Random};

/// What differs from the model, or failed.
#[derive(Clone, Copy)]
pub enum Fault {
    Memory,
    Heap,
    Ledger,
    Answer,
    Waiting,
    Tokens,
}

impl From<AllocError> for Fault {
    fn from(_: AllocError) -> Fault {
        Fault::Memory
    }
}

impl fmt::Display for Fault {
    fn fmt<W: fmt::Write>(&self, f: &mut fmt::Formatter<W>) -> fmt::Result {
        f.write_str(match self {
            Fault::Memory => "the memory that is left",
            Fault::Heap => "the heap",
            Fault::Ledger => "the ledger",
            Fault::Answer => "the answer",
            Fault::Waiting => "what waits in the ledger",
            Fault::Tokens => "the number of tokens",
        })
    }
}

// The other trials count other things: what the two share is a few fields, and no function.
#[derive(Drop)]
pub struct Course {
    pub memory: Global,
    pub random: Random,
    pub stacks: u32,
    pub round: u32,
    /// The number of the last call in its round.
    pub step: u32,
    pub calls: u64,
    /// How often each cause was heard, by its number.
    pub refused: [u64; 12],
    pub settles: u64,
    pub compared: u64,
}

impl Course {
    pub fn new(memory: Global) -> Course {
        Course {
            memory,
            random: Random::new(0),
            stacks: 0,
            round: 0,
            step: 0,
            calls: 0,
            refused: [0; 12],
            settles: 0,
            compared: 0,
        }
    }

    /// Goes on to the next stack, with random numbers of its own. A ledger may begin in any state, so the rows hold them too.
    pub fn begin<K: Kind>(&mut self, rows: &mut [K::Row]) {
        self.stacks = self.stacks.saturating_add(1);
        self.random = Random::new(u64::from(self.stacks));
        // As in the other trials: a function of these lines would have nothing to promise.
        for row in rows.iter_mut() {
            *row = K::row(self.random.bits());
        }
    }

    /// Sees that as many answers are right.
    pub fn expect(&mut self, what: Fault, answers: u32, is_right: bool) -> Result<(), Fault> {
        self.compared = self.compared.saturating_add(u64::from(answers));
        if is_right { Ok(()) } else { Err(what) }
    }

    /// Sees that the heap answers a call as the model does.
    pub fn expect_answer(&mut self, heard: Answer, expected: Answer) -> Result<(), Fault> {
        if let Err(cause) = heard {
            if let Some(times) = self.refused.get_mut(usize::from(cause.number())) {
                *times = times.saturating_add(1);
            }
        }
        self.step = self.step.saturating_add(1);
        self.calls = self.calls.saturating_add(1);
        // A cause by its number: that of the heap against that of the rules.
        let is_right = heard.map_err(Refusal::number) == expected.map_err(number);
        self.expect(Fault::Answer, 1, is_right)
    }
}
