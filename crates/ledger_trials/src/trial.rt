//! One trial: random notes to a ledger, whose answers are compared with a plain count.
use super::plain::Plain;
use super::sight::Sight;
use ledgers::Ledger;
use std::alloc::{AllocError, Global};
use std::fmt;
use trial_tools::{Kind, KindName, Layer, Random, Stack};

/// How many cells the ledgers have room for.
pub const ROOM: u16 = 40;

const ROUNDS: u32 = 12;

const STEPS: u32 = 480;

/// What was asked of a ledger.
#[derive(Clone, Copy, Debug)]
pub enum Asked {
    Clear(u16),
    Capacity,
    Cells,
    Waiting,
    Number(u16),
    NextZero(u16),
}

/// Why a trial was not played to its end.
#[derive(Clone, Copy, Debug)]
pub enum Fault {
    NoMemory,
    Differs(Asked),
}

impl From<AllocError> for Fault {
    fn from(_: AllocError) -> Fault {
        Fault::NoMemory
    }
}

impl fmt::Display for Asked {
    fn fmt<W: fmt::Write>(&self, f: &mut fmt::Formatter<W>) -> fmt::Result {
        match self {
            Asked::Clear(n) => write!(f, "clear for {n}"),
            Asked::Capacity => f.write_str("the capacity"),
            Asked::Cells => f.write_str("the number of cells"),
            Asked::Waiting => f.write_str("what waits"),
            Asked::Number(c) => write!(f, "the number of {c}"),
            Asked::NextZero(c) => write!(f, "the next zero from {c}"),
        }
    }
}

impl fmt::Display for Fault {
    fn fmt<W: fmt::Write>(&self, f: &mut fmt::Formatter<W>) -> fmt::Result {
        match self {
            Fault::NoMemory => f.write_str("no memory"),
            Fault::Differs(asked) => write!(f, "{asked} differs"),
        }
    }
}

/// Where the trials are, and what they came to so far.
#[derive(Drop)]
pub struct Course {
    pub memory: Global,
    random: Random,
    pub kind: KindName,
    layers: Vec<Layer>,
    pub round: u32,
    pub stacks: u32,
    pub notes: u64,
    pub settles: u64,
    pub compared: u64,
}

impl Course {
    pub fn new(memory: Global) -> Course {
        Course {
            memory,
            random: Random::new(0),
            kind: KindName::Exact,
            layers: Vec::new(memory),
            round: 0,
            stacks: 0,
            notes: 0,
            settles: 0,
            compared: 0,
        }
    }

    /// Goes on to the next trial, with random numbers of its own, which the rows hold too.
    pub fn begin<K: Kind>(
        &mut self,
        rows: &mut [K::Row],
        layers: &[Layer],
    ) -> Result<(), AllocError> {
        self.stacks = self.stacks.saturating_add(1);
        self.random = Random::new(u64::from(self.stacks));
        // As in the other trials: a function of these lines would have nothing to promise.
        for row in rows.iter_mut() {
            *row = K::row(self.random.bits());
        }
        self.layers.clear();
        self.layers.extend_from_slice(layers)
    }

    pub fn stack(&self) -> Stack<'_> {
        Stack(&self.layers)
    }

    fn expect(&mut self, asked: Asked, is_right: bool) -> Result<(), Fault> {
        self.compared = self.compared.saturating_add(1);
        if is_right {
            Ok(())
        } else {
            Err(Fault::Differs(asked))
        }
    }

    // Sees that nothing changed.
    fn expect_same(&mut self, was: &Sight, is: &Sight) -> Result<(), Fault> {
        self.expect(Asked::Capacity, is.capacity == was.capacity)?;
        self.expect(Asked::Cells, is.cells == was.cells)?;
        self.expect(Asked::Waiting, is.waiting == was.waiting)?;
        for c in 0..=was.cells.saturating_add(1) {
            self.expect(Asked::Number(c), is.number(c) == was.number(c))?;
            self.expect(Asked::NextZero(c), is.next_zero(c) == was.next_zero(c))?;
        }
        Ok(())
    }

    // Sees that a settled ledger may tell this of `c`.
    fn expect_number(&mut self, c: u16, told: Option<u16>, plain: &Plain) -> Result<(), Fault> {
        let follows = !self.stack().is_prompt() || told == plain.count(c);
        self.expect(Asked::Number(c), follows && plain.allows(c, told))
    }

    // Sees that a settled ledger answers as the plain table has it.
    fn expect_plain(&mut self, sight: &Sight, plain: &Plain) -> Result<(), Fault> {
        self.expect(Asked::Capacity, sight.capacity == ROOM)?;
        self.expect(Asked::Cells, sight.cells == plain.cells())?;
        self.expect(Asked::Waiting, sight.waiting == 0)?;
        for c in 0..=plain.cells().saturating_add(1) {
            self.expect_number(c, sight.number(c), plain)?;
            self.expect(
                Asked::NextZero(c),
                sight.next_zero(c) == sight.first_zero(c),
            )?;
        }
        Ok(())
    }
}

/// Plays a trial of several rounds, each from a clear on.
pub fn play<L: Ledger + Drop>(mut ledger: L, course: &mut Course) -> Result<(), Fault> {
    for round in 1..=ROUNDS {
        course.round = round;
        Round::begin(&mut ledger, course)?.play()?;
    }
    Ok(())
}

/// A ledger that was cleared, and the plain table that it has to follow.
#[derive(Drop)]
struct Round<'a, L> {
    ledger: &'a mut L,
    plain: Plain,
    course: &'a mut Course,
}

impl<'a, L: Ledger> Round<'a, L> {
    fn begin(ledger: &'a mut L, course: &'a mut Course) -> Result<Round<'a, L>, Fault> {
        let n = course.random.cell(ROOM);
        let is_cleared = ledger.clear(n).is_ok();
        course.expect(Asked::Clear(n), is_cleared)?;
        let plain = Plain::new(course.memory, n, L::top())?;
        let sight = Sight::of(ledger, course.memory)?;
        course.expect_plain(&sight, &plain)?;
        Ok(Round {
            ledger,
            plain,
            course,
        })
    }

    fn play(&mut self) -> Result<(), Fault> {
        // The greater the pace, the more waits between settles.
        let pace = 32 + self.course.random.below(225);
        for _ in 0..STEPS {
            match self.course.random.below(pace) {
                0 => self.settle()?,
                1 => self.recount()?,
                2..=7 => self.stray()?,
                _ => self.follow()?,
            }
        }
        // Every other round ends unsettled, so that the next clear has to forget what waits.
        match self.course.random.below(2) {
            0 => Ok(()),
            _ => self.settle(),
        }
    }

    fn sight(&self) -> Result<Sight, AllocError> {
        Sight::of(self.ledger, self.course.memory)
    }

    fn note(&mut self, slot: u16, old: u16, new: u16) {
        self.ledger.note(slot, old, new);
        self.course.notes = self.course.notes.saturating_add(1);
    }

    fn settle(&mut self) -> Result<(), Fault> {
        self.ledger.settle();
        self.course.settles = self.course.settles.saturating_add(1);
        let sight = self.sight()?;
        self.course.expect_plain(&sight, &self.plain)
    }

    // A recount to the plain count changes what is told of that cell, and of no other.
    fn recount(&mut self) -> Result<(), Fault> {
        self.settle()?;
        let was = self.sight()?;
        let c = self.course.random.cell(self.plain.cells());
        let (m, told) = self.plain.recount(c);
        self.ledger.recount(c, m);
        let is = self.sight()?;
        for d in 0..=self.plain.cells().saturating_add(1) {
            let expected = if d == c { told } else { was.number(d) };
            self.course
                .expect(Asked::Number(d), is.number(d) == expected)?;
        }
        self.course.expect_plain(&is, &self.plain)
    }

    // A call out of range, a recount while something waits, or a clear for too many cells: nothing changes.
    fn stray(&mut self) -> Result<(), Fault> {
        let was = self.sight()?;
        let n = self.plain.cells();
        let slots = self.plain.slots();
        let slot = self.course.random.below(slots);
        let content = self.plain.content(slot);
        let c = self.course.random.cell(n);
        // As often as not the first number that is out of range.
        let past = match self.course.random.below(2) {
            0 => 0,
            _ => self.course.random.bits(),
        };
        let beyond = n.saturating_add(1).saturating_add(past);
        match self.course.random.below(8) {
            0 => self.note(slots.saturating_add(past), 0, c),
            1 => self.note(slot, beyond, c),
            2..=3 => self.note(slot, content, beyond),
            4 => self.ledger.recount(beyond, c),
            5 => self.ledger.recount(0, c),
            6 if was.waiting != 0 => self.ledger.recount(c, n),
            _ => {
                let many = ROOM.saturating_add(1).saturating_add(past);
                let is_refused = self.ledger.clear(many).is_err();
                self.course.expect(Asked::Clear(many), is_refused)?;
            }
        }
        let is = self.sight()?;
        self.course.expect_same(&was, &is)
    }

    // A note that follows the table. Half of them empty their slot, so that 0 is told of some cells.
    fn follow(&mut self) -> Result<(), Fault> {
        let slot = self.course.random.below(self.plain.slots());
        let old = self.plain.content(slot);
        let new = match self.course.random.below(16) {
            0 => old,
            1..=8 => 0,
            _ => self.course.random.cell(self.plain.cells()),
        };
        self.note(slot, old, new);
        self.plain.put(slot, new);
        self.glance(old)?;
        self.glance(new)
    }

    // A number and a next zero are told only while nothing waits.
    fn glance(&mut self, c: u16) -> Result<(), Fault> {
        let told = self.ledger.number(c);
        if self.ledger.waiting() == 0 {
            return self.course.expect_number(c, told, &self.plain);
        }
        let next = self.ledger.next_zero(c);
        self.course.expect(Asked::Number(c), told.is_none())?;
        self.course.expect(Asked::NextZero(c), next.is_none())
    }
}
