// Directions of selects.
ghost use Rattle.std.specs.Prelude.{◌≡◌, ◌≤◌};
ghost use Rattle.width_rules.specs.Directions.{down_of};

/// Whether a select goes up from its base, `+:`, or down, `-:`.
#[derive(Clone, Copy, Debug, PartialEq, Eq)]
pub enum Direction {
    Upward,
    Downward,
}

/// How far below its base a select of so many bits begins.
pub fn down_of(direction: Direction, width: u8) -> u8
    requires { 1 ≤ width }
    ensures { result ≡ down_of direction width }
{
    match direction {
        Direction::Upward => 0,
        Direction::Downward => width - 1,
    }
}
