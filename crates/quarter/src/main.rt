// Reads the description of a quarter of an hour from standard input, and prints how its price came about.
#![tactic(auto)]

ghost use Rattle.std.specs.Result.{IsOk};
ghost use Rattle.explanation.specs.Explained.{explanation_of};

use console::Program;
use explanation::explain;
use std::process::ExitCode;

#[derive(Clone, Copy)]
struct Quarter<'a> {
    rt: &'a HostRuntime,
}

impl Program for Quarter<'_> {
    // that the text describes a quarter of an hour that has a price
    ghost Printed = { λ _ text. IsOk (explanation_of text) };

    fn print(&self, text: &[u8]) -> anyhow::Result<()> {
        Ok(self.rt.print(explain(text)?)?)
    }
}

// An error is told on standard error, and ends the program with status 1.
fn main(rt: HostRuntime) -> std::io::Result<ExitCode> {
    console::run(&rt, rt.stdin(), "quarter", &Quarter { rt: &rt })
}
