//! LP texts byte by byte: which tokens have ended, and what is known then. `specs/` holds the definitions, and the laws
//! as statements.
// Each function here does nothing. Its contract is one of the laws, so that the check proves it.

ghost use Rattle.cip_text_rules.specs.LpTakenTexts.{TakenFaultsStay, TakenTextsComeOut};

use crate::lp_pieces::lp_texts_are_read;

/// The fault of a token that has ended, and that of a text that is too long, stay whatever follows, and are the text's.
pub fn taken_faults_stay()
    ensures { TakenFaultsStay }
{
    lp_texts_are_read();
}

/// A text without such a fault that ends here comes to what its last tokens say.
pub fn taken_texts_come_out()
    ensures { TakenTextsComeOut }
{
    lp_texts_are_read();
}
