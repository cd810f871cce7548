// One axis of a walk: where it stands, and where it goes next.
ghost use Rattle.std.specs.Prelude.{◌≡◌, ◌<◌};
ghost use Rattle.advance.specs.Axis.{start_of, inside_goal, tile_goal, goal_of};

// Where an axis goes next, ahead or back, and where the tile starts that it is then in.
#[derive(Clone, Copy)]
pub struct Goal {
    pub more: bool,
    pub to: u64,
    pub start: u64,
}

// Where a walk stands on one axis: the axis's extent and block size, where the tile starts, and the counter. An axis and an operand are numbers
// below 64 and 8: whoever indexes says so.
#[derive(Clone, Copy)]
pub struct Place {
    pub extent: u64,
    pub width: u64,
    pub start: u64,
    pub at: u64,
    pub ghost wide: { 0 < width },
    pub ghost inside: { at < extent },
    pub ghost begins: { start ≡ start_of width at },
}

impl Place {
    // Inside a tile: one ahead, or back to the tile's start.
    pub fn inside_goal(self) -> Goal
        ensures { result ≡ inside_goal self.extent self.width self.at }
    {
        if self.at - self.start < self.width - 1 && self.at < self.extent - 1 {
            Goal {
                more: true,
                to: self.at + 1,
                start: self.start,
            }
        } else {
            Goal {
                more: false,
                to: self.start,
                start: self.start,
            }
        }
    }

    // From tile to tile: a block ahead, or back to 0.
    fn tile_goal(self) -> Goal
        ensures { result ≡ tile_goal self.extent self.width self.at }
    {
        if self.width < self.extent - self.start {
            let next = self.start + self.width;
            Goal {
                more: true,
                to: next,
                start: next,
            }
        } else {
            Goal {
                more: false,
                to: 0,
                start: 0,
            }
        }
    }

    pub fn goal(self, inside: bool) -> Goal
        ensures { result ≡ goal_of inside self.extent self.width self.at }
    {
        if inside {
            self.inside_goal()
        } else {
            self.tile_goal()
        }
    }
}
