//! The words of an operation: its operator and its two operands.
ghost use Rattle.std.specs.Prelude.{◌≡◌, ◌++◌, OnOk, OnErr};
ghost use Rattle.operation_text.specs.Operation.{operator_text, operation_text};

use frac128::{Op, Wide};
use std::alloc::AllocError;

fn operator_word(op: Op) -> &'static [u8]
    ensures { result.now ≡ operator_text op }
{
    match op {
        Op::Add => b"add",
        Op::Sub => b"sub",
        Op::Mul => b"mul",
        Op::Div => b"div",
    }
}

fn put_operation(wide: &Wide, into: &mut Vec<u8>) -> Result<(), AllocError>
    ensures { OnOk result (into.new.items ≡ into.old.items ++ operation_text wide.now) }
{
    into.extend_from_slice(operator_word(wide.op))?;
    into.extend_from_slice(b" ")?;
    wide.x.to_text(into)?;
    into.extend_from_slice(b" ")?;
    wide.y.to_text(into)
}

/// Adds `OP X Y`: `add`, `sub`, `mul` or `div`, and the operands as fractions.
pub fn write_operation(wide: &Wide, into: &mut Vec<u8>) -> Result<(), AllocError>
    ensures ok { OnOk result (into.new.items ≡ into.old.items ++ operation_text wide.now) }
    ensures err { OnErr result (into.new.items ≡ into.old.items) }
{
    let mut words = Vec::new(*into.allocator());
    put_operation(wide, &mut words)?;
    into.extend_from_slice(words.as_slice())
}
