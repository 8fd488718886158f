//! The files that a program takes.
ghost use Rattle.std.specs.Prelude.{◌≡◌};
ghost use Rattle.patty_run.specs.Inputs as inputs;

/// What a file is to a program.
#[derive(Clone, Copy, Debug, PartialEq, Eq)]
pub enum Input {
    Domain,
    Problem,
    Plan,
}

/// An input and the name of its file.
#[derive(Clone, Copy, Debug)]
pub struct NamedInput<'a> {
    pub input: Input,
    pub name: &'a str,
}

/// The word that lines have for it.
pub(crate) fn word(input: Input) -> &'static str
    ensures { result.now ≡ inputs.word_of input }
{
    match input {
        Input::Domain => "domain",
        Input::Problem => "problem",
        Input::Plan => "plan",
    }
}
