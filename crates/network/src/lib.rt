// Boards and cables as plain functions: what a hall is, however it is stored.
#![tactic(auto)]

// The far end of the cable at a port: the board and the port there, and the cable's weight.
#[derive(Clone, Copy, Debug, PartialEq, Eq)]
pub struct End {
    pub board: u8,
    pub port: u8,
    pub weight: u32,
}
