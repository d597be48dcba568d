//! What holds of every text and link, for the proofs of callers. Each function is there for its clause
//! alone.

ghost use Rattle.std.specs.Prelude.{◌≡◌};
ghost use Rattle.ed2k_link.specs.declared.name.TheConstants.{NAME_LIMIT};
ghost use Rattle.ed2k_link.specs.Laws.{FaultlessTextsWriteALink, LinksHaveNoFault, TextsWriteOneLink, SpellingIsOne};

/// A text that writes a link has none of the faults.
pub fn links_have_no_fault()
    ensures { LinksHaveNoFault }
{}

/// A text that has none of the faults writes a link. So the faults are exactly what keeps a text from
/// writing a link.
pub fn faultless_texts_write_a_link()
    ensures { FaultlessTextsWriteALink }
{}

/// A text writes at most one link.
pub fn texts_write_one_link()
    ensures { TextsWriteOneLink }
{}

/// Letters of base 32 spell at most one root hash.
pub fn spelling_is_one()
    ensures { SpellingIsOne }
{}

/// A name has at most 1,024 bytes: the number that the definitions take from the constant.
pub fn names_are_limited()
    ensures { NAME_LIMIT ≡ 1024 }
{}
