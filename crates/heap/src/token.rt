//! Tokens of open holds.
ghost use Rattle.std.specs.Prelude.{◌≡◌};

use refusals::Refusal;

/// Says that a hold is open. It can't be copied, and only a release takes it back: a token that still names a cell can't be let go.
pub struct Token {
    pub(crate) hold: u8,
    pub(crate) cell: u16,
}

impl Drop for Token {
    fn drop(self)
        requires { self.cell ≡ 0 }
    {
        let Token { hold: _, cell: _ } = self;
    }
}

impl Token {
    /// Takes the token apart, and answers its hold.
    pub(crate) fn spend(self) -> u8
        ensures { result ≡ self.hold }
    {
        let Token { hold, cell: _ } = self;
        hold
    }
}

/// A refused release: its cause, and the token back.
pub struct Unreleased {
    pub cause: Refusal,
    pub token: Token,
}
