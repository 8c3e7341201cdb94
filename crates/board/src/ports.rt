ghost use Rattle.std.specs.Prelude.{◌≡◌};
ghost use Rattle.board.specs.Station.{GivenWeights, weight_at, wired_at};

// The weight of the cable at each port that is wired: a field for each port, since no state of a board end holds an array of
// its own.
#[derive(Clone, Copy)]
pub(crate) struct Ports {
    weight0: Option<u32>,
    weight1: Option<u32>,
    weight2: Option<u32>,
    weight3: Option<u32>,
    weight4: Option<u32>,
    weight5: Option<u32>,
    weight6: Option<u32>,
    weight7: Option<u32>,
}

impl Ports {
    pub(crate) fn new(weights: [Option<u32>; 8]) -> Ports
        ensures { GivenWeights weights result }
    {
        let [
            weight0,
            weight1,
            weight2,
            weight3,
            weight4,
            weight5,
            weight6,
            weight7,
        ] = weights;
        Ports {
            weight0,
            weight1,
            weight2,
            weight3,
            weight4,
            weight5,
            weight6,
            weight7,
        }
    }

    // The weight of a wired port; nothing where no cable is, as at any port above 7.
    pub(crate) fn weight(self, port: u32) -> Option<u32>
        ensures { result ≡ weight_at self port }
    {
        match port {
            0 => self.weight0,
            1 => self.weight1,
            2 => self.weight2,
            3 => self.weight3,
            4 => self.weight4,
            5 => self.weight5,
            6 => self.weight6,
            7 => self.weight7,
            _ => None,
        }
    }

    pub(crate) fn wired(self, port: u32) -> bool
        ensures { result ≡ wired_at self port }
    {
        self.weight(port).is_some()
    }
}
