//! The laws of lines that are cut into pieces, and of texts that come in pieces.
// Each function here does nothing. Its contract is one of the laws of the definitions, so that the check proves it.

ghost use Rattle.cip_text_rules.specs.LpStatements.{LpPiecesAreCut, LpTextsAreRead, LpFaultsOfEndedLines, LpFaultsStay};

/// A line is cut into pieces: blanks part them, a comment ends it, and a piece is the one that begins with its byte.
pub fn lp_pieces_are_cut()
    ensures { LpPiecesAreCut }
{}

/// A text that is read byte by byte comes to its program or its first fault.
pub fn lp_texts_are_read()
    ensures { LpTextsAreRead }
{}

/// A fault is known exactly where the text, as far as it was read, is faulty at a line that has ended.
pub fn lp_faults_of_ended_lines()
    ensures { LpFaultsOfEndedLines }
{}

/// A fault that is known is the text's, whatever follows, and stays known.
pub fn lp_faults_stay()
    ensures { LpFaultsStay }
{}
