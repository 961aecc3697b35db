// What the programs have in common: all of standard input is read, what is said of it is printed, and an error is told.
#![tactic(auto)]

ghost use Rattle.std.specs.Prelude.{◌≡◌, ℕ, List, IfSome, IfOk, OnOk};
ghost use Rattle.std.specs.Process.{exit_status};
ghost use Rattle.console.specs.Running.{status_of};

use std::alloc::Allocator;
use std::io;
use std::io::Read;
use std::process::ExitCode;

// A program, by what it prints of its input. A trait and no closure, which could only be taken with a condition on the caller.
pub trait Program {
    // what is known of a text once all that is said of it is printed
    ghost Printed: { Self → List ℕ → Type 0 };

    // Prints what is said of a text.
    fn print(&self, text: &[u8]) -> anyhow::Result<()>
        ensures { OnOk result (Printed self.now text.now) };
}

// Reads an input to its end, and prints what is said of all of it.
pub fn answer<A: Allocator, I: Read + Drop, P: Program>(
    alloc: A,
    mut input: I,
    program: &P,
) -> anyhow::Result<()>
    ensures { OnOk result
        ((text : List ℕ)
        × IfSome (I.remaining input) (λ all. text ≡ all)
        × P.Printed program.now text) }
{
    let mut text = Vec::new(alloc);
    input.read_to_end(&mut text)?;
    program.print(text.as_slice())
}

// The status with which a program ends: 0, or 1 once an error was told on standard error.
pub fn status<R: Eprint>(rt: &R, name: &str, outcome: anyhow::Result<()>) -> io::Result<ExitCode>
    ensures { IfOk result (λ code. exit_status code ≡ status_of outcome) }
{
    let Err(error) = outcome else {
        return Ok(ExitCode::SUCCESS);
    };
    eprintln!(rt; "{name}: {error}")?;
    Ok(ExitCode::FAILURE)
}

// Runs a program on an input. It ends with status 0 only where all that it says of all of the input was printed.
pub fn run<R: Eprint + Alloc, I: Read + Drop, P: Program>(
    rt: &R,
    input: I,
    name: &str,
    program: &P,
) -> io::Result<ExitCode>
    ensures { IfOk result
        (λ code. exit_status code ≡ 0
        → (text : List ℕ)
        × IfSome (I.remaining input) (λ all. text ≡ all)
        × P.Printed program.now text) }
{
    status(rt, name, answer(rt.alloc(), input, program))
}

#[cfg(test)]
mod tests {
    use crate::{Program, answer, run};
    use std::test::Fail;

    // Prints nothing, and fails at every other text.
    #[derive(Clone, Copy)]
    struct Only<'a> {
        text: &'a [u8],
    }

    impl Program for Only<'_> {
        ghost Printed = { λ _ text. Unit {0} };

        fn print(&self, text: &[u8]) -> anyhow::Result<()> {
            if text != self.text {
                return Err(anyhow::anyhow!("another text"));
            }
            Ok(())
        }
    }

    #[test]
    fn all_of_an_input_is_answered(rt: HostRuntime) -> Result<(), Fail> {
        let text = b"two words";
        assert!(rt; answer(rt.alloc(), &text[..], &Only { text }).is_ok());
        assert!(rt; answer(rt.alloc(), &text[1..], &Only { text }).is_err());
        assert!(rt; run(&rt, &text[..], "console", &Only { text }).is_ok());
        Ok(())
    }
}
