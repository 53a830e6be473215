// Lines in the grammar and outside it.
ghost use Rattle.report_examples.specs.FlowGrammar.{BadLinesAreRefused, EmptyWordsAreRefused, FieldsAreRefused, LinesAreRead};

/// Lines that say something.
pub fn reads_lines()
    ensures { LinesAreRead }
{}

/// Too few words or too many, another version, another status.
pub fn refuses_lines()
    ensures { BadLinesAreRefused }
{}

/// Empty lines, two blanks, a carriage return before the newline.
pub fn refuses_empty_words()
    ensures { EmptyWordsAreRefused }
{}

/// Fields of packets that were seen.
pub fn refuses_fields()
    ensures { FieldsAreRefused }
{}
