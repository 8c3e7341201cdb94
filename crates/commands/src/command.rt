use crate::boards::Boards;

// How lengths are counted in a hall.
#[derive(Clone, Copy, Debug, PartialEq, Eq)]
pub enum Kind {
    Metres,
    Grade,
}

// Who picks the boards that move next while a hall settles.
#[derive(Clone, Copy, Debug, PartialEq, Eq)]
pub enum PickerName {
    All,
    Ring,
}

// What a line asks for.
#[derive(Clone, Copy, Debug, PartialEq, Eq)]
pub enum Command {
    New {
        boards: u32,
        kind: Kind,
    },
    Wire {
        a: u32,
        p: u32,
        b: u32,
        q: u32,
        weight: u32,
    },
    Cut {
        board: u32,
        port: u32,
    },
    Plant {
        board: u32,
        status: u32,
        par: u32,
        code: u64,
    },
    Turn(Boards),
    Settle(PickerName),
    Tally {
        board: u32,
    },
    Show,
}
