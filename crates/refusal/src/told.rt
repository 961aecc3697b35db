// What a refusal's text tells only where there is something to tell.
ghost use Rattle.refusal.specs.Text.{told_if_any};

use std::fmt;

// What it is, and its number if there is one.
#[derive(Clone, Copy)]
pub(crate) struct Told<'a, T>(pub(crate) &'a str, pub(crate) Option<T>);

impl<T: fmt::Display> fmt::Display for Told<'_, T> {
    ghost output = { λ t. told_if_any T.output t.0.now t.1 };

    fn fmt<W: fmt::Write>(&self, f: &mut fmt::Formatter<W>) -> fmt::Result {
        let what = self.0;
        match &self.1 {
            Some(number) => write!(f, ", {what} {number}"),
            None => Ok(()),
        }
    }
}
