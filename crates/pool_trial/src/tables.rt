ghost use Rattle.std.specs.Prelude.{◌≡◌, []};

use super::stack::Stack;

/// The buffers of one kind: the members by index, and a stack of those that are free.
#[derive(Drop)]
pub struct Tables {
    pub members: Stack,
    pub free: Stack,
}

impl Tables {
    pub fn new() -> Tables
        ensures members { result.members ≡ [] }
        ensures free { result.free ≡ [] }
    {
        Tables {
            members: Stack::new(),
            free: Stack::new(),
        }
    }
}
