//! Stacks by name.
use std::fmt;

#[derive(Clone, Copy, Debug, PartialEq, Eq)]
pub enum Layer {
    Queue,
    Log,
    Zeros,
}

impl fmt::Display for Layer {
    fn fmt<W: fmt::Write>(&self, f: &mut fmt::Formatter<W>) -> fmt::Result {
        f.write_str(match self {
            Layer::Queue => "queue",
            Layer::Log => "log",
            Layer::Zeros => "zero table",
        })
    }
}

/// The layers over a bottom ledger, the lowest first.
#[derive(Clone, Copy, Debug)]
pub struct Stack<'a>(pub &'a [Layer]);

impl<'a> Stack<'a> {
    /// Whether nothing ever waits, so that what is told follows each note.
    pub fn is_prompt(self) -> bool {
        self.0.iter().all(|layer| *layer == Layer::Zeros)
    }
}

impl<'a> fmt::Display for Stack<'a> {
    fn fmt<W: fmt::Write>(&self, f: &mut fmt::Formatter<W>) -> fmt::Result {
        let [lowest, above @ ..] = self.0 else {
            return f.write_str("no layer");
        };
        for layer in above.iter().rev() {
            write!(f, "{layer} over ")?;
        }
        write!(f, "{lowest}")
    }
}
