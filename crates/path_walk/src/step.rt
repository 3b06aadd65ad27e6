ghost use Rattle.std.specs.Prelude.{◌≡◌};
ghost use Rattle.path_walk.specs.Seen.{step_seen, crossing_seen};

use spoc_base::IfId;
use zone_graph::Crossing;

/// A crossing on a path under search. The free places of a `SmallVec` hold a default one.
#[derive(Clone, Copy, Debug, PartialEq, Eq)]
pub(crate) struct Step {
    pub(crate) enter: IfId,
    pub(crate) leave: IfId,
}

impl Default for Step {
    fn default() -> Self {
        Step {
            enter: IfId(0),
            leave: IfId(0),
        }
    }
}

impl Step {
    /// This crossing, as a step.
    pub(crate) fn of(c: Crossing) -> Step
        ensures { step_seen result ≡ crossing_seen c }
    {
        Step {
            enter: c.enter,
            leave: c.leave,
        }
    }

    /// The crossing that it is.
    pub(crate) fn crossing(self) -> Crossing
        ensures { crossing_seen result ≡ step_seen self }
    {
        Crossing {
            enter: self.enter,
            leave: self.leave,
        }
    }
}
