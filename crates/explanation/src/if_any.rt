// What is printed where it is there.
ghost use Rattle.explanation.specs.Words.{text_if_any};

use std::fmt;

#[derive(Clone, Copy)]
pub struct IfAny<T>(pub Option<T>);

impl<T: fmt::Display> fmt::Display for IfAny<T> {
    ghost output = { λ a. text_if_any T.output a.0 };

    fn fmt<W: fmt::Write>(&self, f: &mut fmt::Formatter<W>) -> fmt::Result {
        match &self.0 {
            Some(part) => write!(f, "{part}"),
            None => Ok(()),
        }
    }
}
