ghost use Rattle.std.specs.Prelude.{◌≡◌};

use super::DrawBatcher;

impl DrawBatcher {
    /// How many draws are recorded.
    pub fn draws(&self) -> usize
        ensures { result ≡ self.now.draws }
    {
        self.draws
    }

    /// How many batches they form.
    pub fn batches(&self) -> usize
        ensures { result ≡ self.now.batches }
    {
        self.batches
    }
}
