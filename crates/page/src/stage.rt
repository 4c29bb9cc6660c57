ghost use Rattle.std.specs.Prelude.{◌≡◌};
ghost use Rattle.page.specs.Stages.{may_end, next_of};

use crate::line::Line;

/// A sheet has at most so many sources.
const MOST_SOURCES: u64 = 64;

/// How far a sheet has been read, which says what its next line may be.
#[derive(Clone, Copy)]
pub enum Stage {
    /// Nothing yet.
    Start,
    /// The alignment.
    Aligned,
    /// Both settings, and so many sources. The page has a list of them, too: with the count here, what may come next
    /// is told by the stage alone.
    Sources(u64),
    /// Draws, after the sources.
    Draws,
}

impl Stage {
    /// The stage after one more line, if that line may come next.
    pub fn next(self, line: Line) -> Option<Stage>
        ensures { result ≡ next_of self line }
    {
        match (self, line) {
            (Stage::Start, Line::Align(_)) => Some(Stage::Aligned),
            (Stage::Aligned, Line::Binding(_)) => Some(Stage::Sources(0)),
            (Stage::Sources(count), Line::Source(_)) if count < MOST_SOURCES => {
                Some(Stage::Sources(count + 1))
            }
            (Stage::Sources(1..) | Stage::Draws, Line::Draw(_)) => Some(Stage::Draws),
            _ => None,
        }
    }

    /// A sheet may end here.
    pub fn may_end(self) -> bool
        ensures { result ≡ may_end self }
    {
        matches!(self, Stage::Sources(1..) | Stage::Draws)
    }
}
