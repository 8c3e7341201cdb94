ghost use Rattle.std.specs.Prelude.{◌≡◌, ◌≤◌, ◌++◌, length, drop};
ghost use Rattle.board.specs.Station.{own_of};
ghost use Rattle.board.specs.Tell.{frames_below, tell_size, Tells};

use crate::fault::EarFault;
use crate::ports::Ports;
use crate::states::{Listening, Owing};
use frames::write_frame;
use lengths::Length;
use rules::{Record, Verdict};

// How many bytes a board with these ports tells.
fn tell_size(ports: Ports) -> usize
    ensures { result ≡ tell_size ports }
{
    16 * (0..8).filter(|port| ports.wired(*port)).count()
}

// Writes a frame of the record for each wired port, one behind the other. (It is a `for` over the ports with a running size,
// since where a frame goes depends on how many ports before it are wired.)
fn write_frames<L: Length>(own: Record<L>, ports: Ports, out: &mut [u8]) -> usize
    requires { tell_size ports ≤ length out.old }
    ensures size { result ≡ tell_size ports }
    ensures out { out.new ≡ frames_below L.Length.meaning own ports 8 ++ drop result out.old }
{
    let mut size = 0;
    for port in 0..8u8 {
        if ports.wired(u32::from(port))
            && let Some(frame) = write_frame(own, port)
        {
            out[size..size + 16].copy_from_slice(&frame);
            size += 16;
        }
    }
    size
}

impl<L: Length> Owing<L> {
    // The board's record.
    pub fn own(&self) -> Record<L>
        ensures { result ≡ own_of L.Length.meaning self.now.station }
    {
        self.station.own()
    }

    // The rule by which the board moved, if by one.
    pub fn verdict(&self) -> Option<Verdict>
        ensures { result ≡ self.now.verdict }
    {
        self.verdict
    }

    // Tells the record to every neighbour, by a frame for each wired port in the output; then the board listens again.
    pub fn tell(self, out: &mut [u8]) -> Result<(usize, Listening<L>), (Owing<L>, EarFault)>
        ensures { Tells L.Length.meaning self out.old result out.new }
    {
        if out.len() < tell_size(self.station.ports) {
            return Err((self, EarFault::Room));
        }
        let size = write_frames(self.own(), self.station.ports, out);
        let Owing {
            station,
            verdict: _,
            kind: _,
        } = self;
        Ok((size, Listening::anew(station)))
    }
}
