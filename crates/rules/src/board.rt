use crate::record::Record;

// A board other than the root, as the rules know it: its record, and what it sees of its neighbours. It has no model: its value
// would be what the board sees, a function of ports, and such a value has no code.
#[derive_where(Clone, Copy; L)]
pub struct Board<'n, L, N> {
    pub own: Record<L>,
    pub near: &'n N,
}
