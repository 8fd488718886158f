//! The lines of a log, kept until its block is printed.
ghost use Rattle.std.specs.Prelude.{◌≡◌, ◌++◌, ◌∷◌, [], map, IfOk, OnOk, OnErr};
ghost use Rattle.cert_form.specs.Spelling.{step_line};

use cert_form::write_step;
use sqlite_items::Items;
use std::alloc::{AllocError, Global};
use theory_law::{Coefs, LogFail, LogSink, LogStep};

/// A list of lines. It takes each step unless memory runs out.
#[derive(Drop)]
pub(crate) struct LogLines {
    pub(crate) alloc: Global,
    pub(crate) lines: Items<Items<u8>>,
}

fn line_of(alloc: Global, step: &LogStep<Coefs>) -> Result<Items<u8>, AllocError>
    ensures { IfOk result (λ line. line ≡ step_line step.now) }
{
    let mut bytes = Vec::new(alloc);
    write_step(step, &mut bytes)?;
    Ok(Items::from_vec(bytes))
}

fn push_step(
    alloc: Global,
    lines: &mut Items<Items<u8>>,
    step: &LogStep<Coefs>,
) -> Result<(), AllocError>
    ensures ok { OnOk result (lines.new ≡ lines.old ++ step_line step.now ∷ []) }
    ensures err { OnErr result (lines.new ≡ lines.old) }
{
    let line = line_of(alloc, step)?;
    lines.push(line)
}

impl LogSink<Coefs> for LogLines {
    ghost use Rattle.std.specs.Prelude.{◌≡◌, map};
    ghost use Rattle.cert_form.specs.Spelling.{step_line};

    ghost faults = { λ _. 0 };

    ghost stands_for = { λ s log. s.lines ≡ map step_line log };

    ghost stopped_in = { λ _ _ _. ⊥ };

    fn step(&mut self, s: &LogStep<Coefs>) -> Result<(), LogFail> {
        match push_step(self.alloc, &mut self.lines, s) {
            Ok(()) => Ok(()),
            Err(_) => Err(LogFail::Memory),
        }
    }
}
