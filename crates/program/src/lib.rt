// What the programs share: names as they are printed, messages, standard output, files and their lines, and how a program says how it ended.
#![tactic(auto)]

pub mod arguments;
pub mod files;
pub mod lines;
pub mod messages;
pub mod names;
pub mod output;
pub mod status;

// A program that runs.
#[derive(Clone, Copy)]
pub struct Program<'a> {
    pub rt: &'a HostRuntime,
    // Its name, with which its messages begin.
    name: &'a [u8],
}

impl<'a> Program<'a> {
    pub fn new(rt: &'a HostRuntime, name: &'a [u8]) -> Program<'a> {
        Program { rt, name }
    }
}
