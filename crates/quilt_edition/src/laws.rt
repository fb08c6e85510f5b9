ghost use Rattle.quilt_edition.specs.Editions.{OneEditionLaw, SameEditionLaw};

/// A file stands for one edition at most.
pub fn one_edition_law()
    ensures law { OneEditionLaw }
{}

/// Home pages that agree on the header and on the pages of a tree hold the same edition.
pub fn same_edition_law()
    ensures law { SameEditionLaw }
{}
