// The layout in numbers: where each table begins and how many bytes a row has. specs/Layout.antt has the rows.
ghost use Rattle.std.specs.Prelude.{◌≡◌};
ghost use Rattle.book.specs.Layout.{base_of, width_of};
ghost use Rattle.book.specs.Tables.{number};

// The tables in the order in which they stand in the book, by what a row of each holds.
#[derive(Clone, Copy, Debug, PartialEq, Eq)]
pub enum Table {
    // Today.
    Today,
    // Tolerance.
    Tolerance,
    // The next request number to be given.
    NextNumber,
    // Securities: the lot, 0 where not set up.
    Lots,
    // The price.
    Prices,
    // The haircut.
    Haircuts,
    // The quote day.
    QuoteDays,
    // Participants, the profile in force: 1 automatic, 2 list, 3 by hand, 0 where not set up.
    Modes,
    // The list, bit n is giver n.
    Lists,
    // 1 where partial settlement is allowed.
    Partials,
    // The change that waits for the next day: the same, 0 where none waits.
    WaitingModes,
    // Its list.
    WaitingLists,
    // Its partial.
    WaitingPartials,
    // Baskets: the map, 0 where not set up.
    Maps,
    // The greatest age.
    GreatestAges,
    // Requests: the number, 0 where the row is not used.
    Numbers,
    // 6 for a FOP, 7 for a return.
    RequestKinds,
    // 0 giver, 1 taker.
    Sides,
    // The giver.
    Givers,
    // The taker.
    Takers,
    // The basket of a FOP, the exposure of a return.
    BasketsOrExposures,
    // The amount.
    Amounts,
    // The settlement day.
    Settlements,
    // The closing day, 0 where none.
    Closings,
    // The reference.
    References,
    // The amount settled so far.
    SettledAmounts,
    // One more than the partner's row, 0 where unpaired.
    Partners,
    // 1 where both parties allowed partial when they paired.
    PairPartials,
    // 1 where its owner has cancelled it while paired.
    Cancels,
    // 1 where it has ended.
    Ends,
    // Exposures: 1 where the row is used.
    InUse,
    // The giver.
    ExposureGivers,
    // The taker.
    ExposureTakers,
    // The basket.
    ExposureBaskets,
    // The closing day, 0 where none.
    ExposureClosings,
    // The amount.
    ExposureAmounts,
    // Accounts: the nominal of security i of participant p, at 64 p + i.
    Accounts,
    // Positions: the nominal of security i in exposure e, at 64 e + i.
    Positions,
    // Nothing: always 0.
    Spares,
}

// Where a table begins. Where the table is a constant, the compiler removes the match.
#[tactic(auto, unfolding(crate::specs::Layout::base_of, laws::specs::Sum::sum))]
pub fn base_of(table: Table) -> usize
    ensures { result ≡ base_of (number table) }
{
    match table {
        Table::Today => 0,
        Table::Tolerance => 4,
        Table::NextNumber => 8,
        Table::Lots => 12,
        Table::Prices => 268,
        Table::Haircuts => 524,
        Table::QuoteDays => 780,
        Table::Modes => 1036,
        Table::Lists => 1164,
        Table::Partials => 1292,
        Table::WaitingModes => 1420,
        Table::WaitingLists => 1548,
        Table::WaitingPartials => 1676,
        Table::Maps => 1804,
        Table::GreatestAges => 1932,
        Table::Numbers => 1996,
        Table::RequestKinds => 3020,
        Table::Sides => 4044,
        Table::Givers => 5068,
        Table::Takers => 6092,
        Table::BasketsOrExposures => 7116,
        Table::Amounts => 8140,
        Table::Settlements => 10188,
        Table::Closings => 11212,
        Table::References => 12236,
        Table::SettledAmounts => 14284,
        Table::Partners => 16332,
        Table::PairPartials => 17356,
        Table::Cancels => 18380,
        Table::Ends => 19404,
        Table::InUse => 20428,
        Table::ExposureGivers => 20684,
        Table::ExposureTakers => 20940,
        Table::ExposureBaskets => 21196,
        Table::ExposureClosings => 21452,
        Table::ExposureAmounts => 21708,
        Table::Accounts => 22220,
        Table::Positions => 30412,
        Table::Spares => 46796,
    }
}

// The bytes of a row of a table: eight for maps, amounts and references, else four.
pub fn width_of(table: Table) -> usize
    ensures { result ≡ width_of (number table) }
{
    match table {
        Table::Maps
        | Table::Amounts
        | Table::References
        | Table::SettledAmounts
        | Table::ExposureAmounts => 8,
        _ => 4,
    }
}

// The tables of one thing, in their order: a request, an exposure and its key, a profile that waits.
pub const REQUEST_TABLES: [Table; 15] = [
    Table::Numbers,
    Table::RequestKinds,
    Table::Sides,
    Table::Givers,
    Table::Takers,
    Table::BasketsOrExposures,
    Table::Amounts,
    Table::Settlements,
    Table::Closings,
    Table::References,
    Table::SettledAmounts,
    Table::Partners,
    Table::PairPartials,
    Table::Cancels,
    Table::Ends,
];

pub const EXPOSURE_TABLES: [Table; 6] = [
    Table::InUse,
    Table::ExposureGivers,
    Table::ExposureTakers,
    Table::ExposureBaskets,
    Table::ExposureClosings,
    Table::ExposureAmounts,
];

pub const KEY_TABLES: [Table; 4] = [
    Table::ExposureGivers,
    Table::ExposureTakers,
    Table::ExposureBaskets,
    Table::ExposureClosings,
];

pub const WAITING_TABLES: [Table; 3] = [
    Table::WaitingModes,
    Table::WaitingLists,
    Table::WaitingPartials,
];
