//! Laws of the layout. The functions do nothing: the contract of each is the law.
ghost use Rattle.log_format.specs.Laws.{AnAppendAddsAPrefix, AnAppendAddsAPrefixToTheLog, AWriteOutsideKeepsTheContent, AFoundBlobFits, AFoundBlobHasItsLength, ALogOfInputsCountsThem, ALogOfInputsHasNoneWrong};

/// Law: if the log ends in some sector and every later log sector is blank, then after any subset
/// of the writes of one append the image has the old content with a prefix of the inputs added to
/// its log. `log` says the same of the log's sectors alone.
pub fn an_append_adds_a_prefix()
    ensures content { AnAppendAddsAPrefix }
    ensures log { AnAppendAddsAPrefixToTheLog }
{}

/// Law: a write outside sectors 0 and 1 and outside the area of the chosen root leaves the content
/// and the generation as they were.
pub fn a_write_outside_keeps_the_content()
    ensures { AWriteOutsideKeepsTheContent }
{}

/// Law: a blob that is found whole fits the device again.
pub fn a_found_blob_fits()
    ensures { AFoundBlobFits }
{}

/// Law: a blob that is found whole has as many bytes as its root says.
pub fn a_found_blob_has_its_length()
    ensures { AFoundBlobHasItsLength }
{}

/// Law: a log in which each entry is an input counts as many inputs as it stands for.
pub fn a_log_of_inputs_counts_them()
    ensures { ALogOfInputsCountsThem }
{}

/// Law: `first_wrong` finds nothing in a log exactly if each entry is an input and there are no
/// more than 216,000 of them.
pub fn a_log_of_inputs_has_none_wrong()
    ensures { ALogOfInputsHasNoneWrong }
{}
