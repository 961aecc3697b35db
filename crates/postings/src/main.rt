// Prints a file of postings from standard input as text, one record to a line, up to the first bad one.
#![tactic(auto)]

use console::Program;
use posting::Listing;
use std::process::ExitCode;

#[derive(Clone, Copy)]
struct Postings<'a> {
    rt: &'a HostRuntime,
}

impl Program for Postings<'_> {
    // nothing: every file is printed, up to its first bad record
    ghost Printed = { λ _ file. Unit {0} };

    fn print(&self, file: &[u8]) -> anyhow::Result<()> {
        Ok(self.rt.print(Listing(file))?)
    }
}

// Only a failure of the machine, in reading or printing, is told on standard error and ends the program with status 1.
fn main(rt: HostRuntime) -> std::io::Result<ExitCode> {
    console::run(&rt, rt.stdin(), "postings", &Postings { rt: &rt })
}
