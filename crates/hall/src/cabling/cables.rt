ghost use Rattle.std.specs.Prelude.{◌≡◌, ℕ, ◌<◌, ◌≤◌, Some, None, MatchOption, ◌≢◌};
ghost use Rattle.network.specs.Cables.{Adds, Removes};
ghost use Rattle.hall.specs.Tables.{far_of, Rows};

use crate::cabling::Cabling;
use network::End;

// Ports without cables.
fn no_cables() -> [[Option<End>; 8]; 64]
    ensures rows { Rows result }
    ensures free { (b p : ℕ) → far_of result b p ≡ None }
{
    let row = [None; 8];
    [row; 64]
}

impl Cabling {
    // Boards without cables; nothing where there would be none, or more than 64.
    pub(crate) fn new(n: u32) -> Option<Cabling>
        ensures { MatchOption result ((0 < n) × (n ≤ 64) → ⊥) (λ c. (0 < n) × (n ≤ 64) × (c.n ≡ n) × ((b p : ℕ) → far_of c.ends b p ≡ None)) }
    {
        if !(1..=64).contains(&n) {
            return None;
        }
        let ends = no_cables();
        Some(Cabling { n, ends })
    }

    pub(crate) fn boards(&self) -> u32
        ensures { result ≡ self.now.n }
    {
        self.n
    }

    // The far end of the cable at a port, if there is one.
    pub(crate) fn far(&self, board: u32, port: u32) -> Option<End>
        ensures { result ≡ far_of self.now.ends board port }
    {
        *self.ends.get(board as usize)?.get(port as usize)?
    }

    // A cable between free ports of two different boards.
    pub(crate) fn join(&mut self, a: u32, p: u32, b: u32, q: u32, weight: u32)
        requires a_inside { a < self.old.n }
        requires b_inside { b < self.old.n }
        requires apart { a ≢ b }
        requires p_inside { p < 8 }
        requires q_inside { q < 8 }
        requires p_free { far_of self.old.ends a p ≡ None }
        requires q_free { far_of self.old.ends b q ≡ None }
        ensures boards { self.new.n ≡ self.old.n }
        ensures cables { Adds (far_of self.old.ends) a p b q weight (far_of self.new.ends) }
    {
        self.ends[a as usize][p as usize] = Some(End {
            board: b as u8,
            port: q as u8,
            weight,
        });
        self.ends[b as usize][q as usize] = Some(End {
            board: a as u8,
            port: p as u8,
            weight,
        });
    }

    // The cable at a port is gone, and both its ports are free.
    pub(crate) fn cut(&mut self, a: u32, p: u32, end: End)
        requires stands { far_of self.old.ends a p ≡ Some end }
        ensures boards { self.new.n ≡ self.old.n }
        ensures cables { Removes (far_of self.old.ends) a p end (far_of self.new.ends) }
    {
        self.ends[a as usize][p as usize] = None;
        self.ends[end.board as usize][end.port as usize] = None;
    }
}
