ghost use Rattle.nz_degree.specs.Elements.{FirstIsElement, PositiveHasNone, OnesAreElements, SortedIsList, SortedIsBasis, SortedAreModules};

/// In the words of a system: what `check` names is its first element of degree 0 or less, which
/// it has where one is named and only there; what `degree_one` picks of the Hilbert basis are its
/// elements of degree 1, where degrees are divided by their denominator; and what `sort` makes of
/// a list that has each element once is the list.
pub fn degrees_are_elements()
    ensures first { FirstIsElement }
    ensures none { PositiveHasNone }
    ensures ones { OnesAreElements }
    ensures sorted { SortedIsList }
    ensures basis { SortedIsBasis }
    ensures modules { SortedAreModules }
{}
