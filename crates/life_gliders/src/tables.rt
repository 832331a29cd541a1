//! The glider's phases as tables, which are checked entry by entry.

/// The four phases of the stream's glider at rest, x before y.
pub(crate) const PHASES: [[(u8, u8); 5]; 4] = [
    [(1, 0), (2, 1), (0, 2), (1, 2), (2, 2)],
    [(0, 1), (2, 1), (1, 2), (2, 2), (1, 3)],
    [(2, 1), (0, 2), (2, 2), (1, 3), (2, 3)],
    [(1, 1), (2, 2), (3, 2), (1, 3), (2, 3)],
];

/// For each phase at rest the cell that comes first once it is turned upside down, x before y.
pub(crate) const FIRST_OF_PHASE: [(u8, u8); 4] = [(0, 2), (1, 3), (1, 3), (1, 3)];

// Whether the first cell of each phase is one of its five, and none of them is lower, or as low and further left.
macro_rules! has_first {
    (phases $($number:literal)+) => {
        $(has_first!(phase $number, entries 0 1 2 3 4))&&+
    };
    (phase $number:literal, entries $($entry:literal)+) => {
        ($(PHASES[$number][$entry].0 == FIRST_OF_PHASE[$number].0
            && PHASES[$number][$entry].1 == FIRST_OF_PHASE[$number].1)||+)
            $(&& (PHASES[$number][$entry].1 < FIRST_OF_PHASE[$number].1
                || PHASES[$number][$entry].1 == FIRST_OF_PHASE[$number].1
                    && FIRST_OF_PHASE[$number].0 <= PHASES[$number][$entry].0))+
    };
}

const _: () = prove!(has_first!(phases 0 1 2 3));
