//! Random calls on two heaps side by side, each with a ledger of its own. Either may be brought the tokens of both.
ghost use Rattle.std.specs.Prelude.{◌≡◌, [], IfOk};
ghost use Rattle.heap.specs.States.{state};
ghost use Rattle.trials.specs.Tokens.{Balanced, Moves, NoneOpen};

use super::calls::{Call, Mix};
use super::compare::{heap_agrees, heap_answers, ledger_agrees, ledger_answers};
use super::course::{Course, Fault};
use super::kept::Kept;
use super::model::{Answer, Model};
use heap::{Heap, Unreleased};
use ledgers::Ledger;

const ROUNDS: u32 = 256;

/// Plays rounds, each with two new heaps.
pub fn play<L: Ledger + Drop>(left: L, right: L, course: &mut Course) -> Result<(), Fault> {
    let left = Side::new(left, course)?;
    let right = Side::new(right, course)?;
    let mut pair = Pair { left, right };
    for round in 1..=ROUNDS {
        course.round = round;
        course.step = 0;
        pair.play_round(course)?;
    }
    Ok(())
}

/// Two heaps side by side.
#[derive(Drop)]
struct Pair<L> {
    left: Side<L>,
    right: Side<L>,
}

impl<L: Ledger> Pair<L> {
    fn begin(&mut self, course: &Course) -> Result<(), Fault>
        ensures left { NoneOpen (state self.new.left.heap) }
        ensures right { NoneOpen (state self.new.right.heap) }
    {
        self.left.heap = Heap::new();
        self.right.heap = Heap::new();
        self.left.model = Model::new(course.memory)?;
        self.right.model = Model::new(course.memory)?;
        Ok(())
    }

    // However the round ends, each token is back after it.
    fn play_round(&mut self, course: &mut Course) -> Result<(), Fault>
        ensures left { NoneOpen (state self.new.left.heap) }
        ensures right { NoneOpen (state self.new.right.heap) }
    {
        self.begin(course)?;
        // Two heaps have 32 holds between them.
        let mut tokens = Vec::with_capacity(course.memory, 33)?;
        let outcome = self.play_calls(&mut tokens, course);
        self.give_back(&mut tokens);
        tokens.destroy_empty();
        outcome
    }

    fn play_calls(&mut self, tokens: &mut Vec<Kept>, course: &mut Course) -> Result<(), Fault>
        requires kept { tokens.old.items ≡ [] }
        requires left { NoneOpen (state self.old.left.heap) }
        requires right { NoneOpen (state self.old.right.heap) }
        ensures { Balanced tokens.new.items (state self.new.left.heap) (state self.new.right.heap) }
    {
        let mix = Mix::new(&mut course.random, course.round);
        for _ in 0..mix.calls {
            match course.random.below(2) {
                0 => self.left.step(mix, tokens, course)?,
                _ => self.right.step(mix, tokens, course)?,
            }
        }
        // A token that the left heap doesn't take back is one of the right.
        self.left.end(tokens, course)?;
        self.right.end(tokens, course)?;
        course.expect(Fault::Tokens, 1, tokens.is_empty())
    }

    // Takes back the tokens that are left after a difference.
    fn give_back(&mut self, tokens: &mut Vec<Kept>)
        requires { Balanced tokens.old.items (state self.old.left.heap) (state self.old.right.heap) }
        ensures kept { tokens.new.items ≡ [] }
        ensures left { NoneOpen (state self.new.left.heap) }
        ensures right { NoneOpen (state self.new.right.heap) }
    {
        while let Some(
            Kept {
                token,
                hold: _,
                cell: _,
            },
        ) = tokens.pop()
        {
            if self.left.heap.is_open(&token) {
                self.left.heap.release(&self.left.ledger, token).unwrap();
            } else {
                self.right.heap.release(&self.right.ledger, token).unwrap();
            }
        }
    }
}

/// A heap with its ledger, and the model that it is compared with.
#[derive(Drop)]
struct Side<L> {
    ledger: L,
    heap: Heap,
    model: Model,
}

impl<L: Ledger> Side<L> {
    fn new(ledger: L, course: &Course) -> Result<Side<L>, Fault>
    where
        L: Drop,
        ensures { IfOk result (λ s. NoneOpen (state s.heap)) }
    {
        Ok(Side {
            ledger,
            heap: Heap::new(),
            model: Model::new(course.memory)?,
        })
    }

    // Compares a small heap after every call, a big one less often, and the ledgers now and then.
    fn step(&mut self, mix: Mix, tokens: &mut Vec<Kept>, course: &mut Course) -> Result<(), Fault>
        ensures { Moves tokens.old.items (state self.old.heap) tokens.new.items (state self.new.heap) }
    {
        let room = self.ledger.capacity();
        let call = mix.call(&mut course.random, &self.model, room, tokens.as_slice());
        self.play(call, tokens, course)?;
        let (heap_pace, ledger_pace) = if self.model.n <= 40 {
            (1, 48)
        } else {
            (16, 1024)
        };
        let step = course.step;
        self.look(step % heap_pace == 0, step % ledger_pace == 0, course)
    }

    // Before it is sized, a heap has nothing to do with its ledger.
    fn look(&mut self, at_heap: bool, at_ledger: bool, course: &mut Course) -> Result<(), Fault>
        ensures { self.new.heap ≡ self.old.heap }
    {
        let n = self.model.n;
        if at_heap {
            let agrees = heap_agrees(&self.heap, &self.model);
            course.expect(Fault::Heap, heap_answers(n), agrees)?;
        }
        if !at_ledger || n == 0 {
            return Ok(());
        }
        self.ledger.settle();
        course.settles = course.settles.saturating_add(1);
        let agrees = ledger_agrees(&self.ledger, &self.model);
        course.expect(Fault::Ledger, ledger_answers(n), agrees)
    }

    // Offers a heap every token that is left. One that is refused goes to the end, behind those still to come.
    fn end(&mut self, tokens: &mut Vec<Kept>, course: &mut Course) -> Result<(), Fault>
        ensures { Moves tokens.old.items (state self.old.heap) tokens.new.items (state self.new.heap) }
    {
        for place in (0..tokens.len().min(32)).rev() {
            if let Some(call) = Call::release(tokens.as_slice(), place) {
                self.play(call, tokens, course)?;
            }
        }
        self.look(true, true, course)
    }

    // A call that leaves the slots alone leaves alone what waits in the ledger.
    fn play(&mut self, call: Call, tokens: &mut Vec<Kept>, course: &mut Course) -> Result<(), Fault>
        ensures { Moves tokens.old.items (state self.old.heap) tokens.new.items (state self.new.heap) }
    {
        let waiting = self.ledger.waiting();
        let told = self.model.told;
        let heard = self.ask(call, tokens)?;
        let expected = self.model.call(call, self.ledger.capacity());
        course.expect_answer(heard, expected)?;
        let waits = self.model.told != told || self.ledger.waiting() == waiting;
        course.expect(Fault::Waiting, 1, waits)
    }

    fn ask(&mut self, call: Call, tokens: &mut Vec<Kept>) -> Result<Answer, Fault>
        ensures { Moves tokens.old.items (state self.old.heap) tokens.new.items (state self.new.heap) }
    {
        let done = match call {
            Call::New { r } => return Ok(self.heap.new_cell(&self.ledger, r).map(Some)),
            Call::Hold { r } => return self.hold(r, tokens),
            Call::Release { place, .. } => return self.release(place, tokens),
            Call::Size { n } => self.heap.size(&mut self.ledger, n),
            Call::Clear { r } => self.heap.clear(&self.ledger, r),
            Call::Copy { r, s } => self.heap.copy(&self.ledger, r, s),
            Call::Load { r, s, f } => self.heap.load(&self.ledger, r, s, f),
            Call::Store { r, f, s } => self.heap.store(&mut self.ledger, r, f, s),
        };
        Ok(done.map(|()| None))
    }

    // The token is kept with what the model is about to hold.
    fn hold(&mut self, r: u8, tokens: &mut Vec<Kept>) -> Result<Answer, Fault>
        ensures { Moves tokens.old.items (state self.old.heap) tokens.new.items (state self.new.heap) }
    {
        if tokens.len() >= tokens.capacity() {
            return Err(Fault::Tokens);
        }
        let hold = self.model.empty_hold().unwrap_or(0);
        let cell = self.model.root(r).unwrap_or(0);
        match self.heap.hold(&self.ledger, r) {
            Ok(token) => {
                tokens.push_reserved(Kept { token, hold, cell });
                Ok(Ok(None))
            }
            Err(cause) => Ok(Err(cause)),
        }
    }

    fn release(&mut self, place: usize, tokens: &mut Vec<Kept>) -> Result<Answer, Fault>
        ensures { Moves tokens.old.items (state self.old.heap) tokens.new.items (state self.new.heap) }
    {
        if place >= tokens.len() {
            return Err(Fault::Tokens);
        }
        let Kept { token, hold, cell } = tokens.swap_remove(place);
        match self.heap.release(&self.ledger, token) {
            Ok(()) => Ok(Ok(None)),
            Err(Unreleased { cause, token }) => {
                tokens.push_reserved(Kept { token, hold, cell });
                Ok(Err(cause))
            }
        }
    }
}
