//! What follows from the contracts of this crate. The functions do nothing: each stands for the law that it ensures.
ghost use Rattle.frac128.specs.Laws.{TextsTellFractions, ReadsWhatIsWritten, FractionTextHasOneAnswer, DecimalHasOneAnswer, OperationHasOneAnswer};

/// Two fractions with one text are equal.
pub fn texts_tell_fractions()
    ensures { TextsTellFractions }
{}

/// `from_text` gives a fraction back from the text that `to_text` wrote of it, and from no other text.
pub fn reads_what_is_written()
    ensures { ReadsWhatIsWritten }
{}

/// What reading a fraction answers is fixed by its text.
pub fn fraction_text_has_one_answer()
    ensures { FractionTextHasOneAnswer }
{}

/// What reading a decimal answers is fixed by its text.
pub fn decimal_has_one_answer()
    ensures { DecimalHasOneAnswer }
{}

/// What an operation answers is fixed by its operands.
pub fn operation_has_one_answer()
    ensures { OperationHasOneAnswer }
{}
