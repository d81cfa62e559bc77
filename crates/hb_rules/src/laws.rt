//! Do the definitions say what a reader takes them for?

ghost use Rattle.hb_rules.specs.Laws.{DealsAreTested, HeightsCountPlays, PossibleAreListed};

/// A law, with no work to do. `specs/Deals.antt` says twice what is possible: by records, which say
/// what a consistent deal is, and by functions, of which texts are made. The test passes exactly
/// the consistent deals, and the list has exactly the numbers of the identities that an order has
/// in some of them, ascending.
pub fn possible_are_listed()
    ensures deals { DealsAreTested }
    ensures possible { PossibleAreListed }
{}

/// A law, with no work to do: the height of a suit, which the definitions count act by act, is the
/// number of its fitting plays.
pub fn heights_count_plays()
    ensures { HeightsCountPlays }
{}
