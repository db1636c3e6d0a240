//! What is written is read, and the freedoms with which it is read change nothing.

ghost use Rattle.std.specs.Prelude.{◌≡◌, ◌≤◌, ◌+◌, ℕ, List, Ok, length};
ghost use Rattle.handoff_data.specs.History.{History};
ghost use Rattle.journal_text.specs.Freedoms.{ChangesNothing, DiffersByOneFreedom, HasMoreBlanks, HasMoreLines};
ghost use Rattle.journal_text.specs.Freedoms.{HasMoreReturns, HasMoreZeros, HasOtherOrder};
ghost use Rattle.journal_text.specs.Readable.{AreReadable, text_of};
ghost use Rattle.journal_text.specs.Refusals.{RefusedLinesAreFinal};
ghost use Rattle.journal_text.specs.Spelling.{spelling};
ghost use Rattle.journal_text.specs.Text.{byte_limit, entry_count, reading};

/// Reading what was written gives the journals back, where they are in the reader's ranges and the text is within
/// its limit.
pub fn written_is_read()
    ensures { (j : History) → AreReadable j → length (text_of (spelling j)) ≤ byte_limit
        → reading (text_of (spelling j)) ≡ Ok j }
{}

/// A text of journals is within the limit, and says at most one journal or one entry a line. A law: the call does
/// nothing.
pub fn texts_are_bounded()
    ensures within { (bytes : List ℕ) (j : History) → reading bytes ≡ Ok j → length bytes ≤ byte_limit }
    ensures few { (bytes : List ℕ) (j : History) → reading bytes ≡ Ok j → length j.seats + entry_count j ≤ length bytes
        + 1 }
{}

/// A carriage return more at the end of a line changes nothing of what is read. A law: the call does nothing.
pub fn returns_are_free()
    ensures { ChangesNothing HasMoreReturns }
{}

/// A line of blanks more changes nothing of what is read. A law: the call does nothing.
pub fn blank_lines_are_free()
    ensures { ChangesNothing HasMoreLines }
{}

/// A blank more before a blank changes nothing of what is read. A law: the call does nothing.
pub fn blanks_are_free()
    ensures { ChangesNothing HasMoreBlanks }
{}

/// A zero more before a number of fewer than 20 digits changes nothing of what is read. A law: the call does nothing.
pub fn leading_zeros_are_free()
    ensures { ChangesNothing HasMoreZeros }
{}

/// The order of a mask's numbers changes nothing of what is read. A law: the call does nothing.
pub fn mask_order_is_free()
    ensures { ChangesNothing HasOtherOrder }
{}

/// One of these freedoms, whichever it is, changes nothing of what is read. A law: the call does nothing.
pub fn freedoms_change_nothing()
    ensures { ChangesNothing DiffersByOneFreedom }
{}

/// Where a text is refused on a line that a line feed ends, no text is read that begins with the lines up to that
/// one. A law: the call does nothing.
pub fn refused_lines_are_final()
    ensures { RefusedLinesAreFinal }
{}
