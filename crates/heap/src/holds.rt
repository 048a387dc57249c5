//! The calls that open and empty a hold.
ghost use Rattle.std.specs.Prelude.{◌≡◌};
ghost use Rattle.heap.specs.Calls.{FreeHold, Hold, Opened, Release, Returned, Unmoved, open_token, release_cause, release_checks};
ghost use Rattle.heap.specs.Keeps.{Keeps};
ghost use Rattle.heap.specs.Refusals.{cause_of};
ghost use Rattle.heap.specs.States.{state};
ghost use Rattle.std.specs.Result.{result_err};

use crate::checks::root_place;
use crate::heap::Heap;
use crate::token::{Token, Unreleased};
use ledgers::Ledger;
use refusals::Refusal;

impl Heap {
    /// Whether a token is open here: its hold contains its cell.
    pub fn is_open(&self, token: &Token) -> bool
        ensures { result ≡ open_token (state self.now) token.now }
    {
        token.cell != 0 && self.graph.holds.get(usize::from(token.hold)) == Some(&token.cell)
    }

    /// Puts the cell in root `r` into the lowest empty hold, and answers the token of that hold.
    pub fn hold<L: Ledger>(&mut self, ledger: &L, r: u8) -> Result<Token, Refusal>
        ensures does { Hold L.Ledger.ops r (state self.old) ledger.now result (state self.new) ledger.now }
        ensures kept { Unmoved result self.old self.new }
        ensures keeps { Keeps L.Ledger.ops (state self.old) ledger.now (state self.new) ledger.now }
        ensures opened { Opened result (state self.new) }
    {
        let root = root_place(r)?;
        self.check_sized()?;
        let cell = self.cell_in(root)?;
        let hold = self.empty_hold().ok_or(Refusal::Holds)?;
        self.put_hold(hold, cell);
        Ok(Token {
            hold: hold as u8,
            cell,
        })
    }

    /// Takes a token back, and empties its hold. A refused token is given back.
    pub fn release<L: Ledger>(&mut self, ledger: &L, token: Token) -> Result<(), Unreleased>
        ensures does { Release L.Ledger.ops token (state self.old) ledger.now (release_cause result) (state self.new) ledger.now }
        ensures kept { Returned token result self.old self.new }
        ensures keeps { Keeps L.Ledger.ops (state self.old) ledger.now (state self.new) ledger.now }
    {
        if let Err(cause) = self.check_open(&token) {
            return Err(Unreleased { cause, token });
        }
        self.put_hold(usize::from(token.spend()), 0);
        Ok(())
    }

    /// The lowest empty hold.
    fn empty_hold(&self) -> Option<usize>
        ensures { FreeHold (state self.now) result }
    {
        self.graph.holds.iter().position(|&cell| cell == 0)
    }

    /// Why a token can't be taken back here, if it can't.
    fn check_open(&self, token: &Token) -> Result<(), Refusal>
        ensures { result_err result ≡ cause_of (release_checks (state self.now) token.now) }
    {
        self.check_sized()?;
        if !self.is_open(token) {
            return Err(Refusal::Token);
        }
        Ok(())
    }
}
