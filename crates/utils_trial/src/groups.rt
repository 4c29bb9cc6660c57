ghost use Rattle.std.specs.Prelude.{◌≡◌, ◌++◌, false, replicate, OnOk, IsErrOf};
ghost use Rattle.utils.specs.Firsts.{firsts};
ghost use Rattle.utils.specs.Unique.{all_below};
ghost use Rattle.utils_trial.specs.Named.{destinations};

use super::batch::{Batch, Groups};
use super::error::GroupError;
use utils::UniqueIndex;

impl Groups {
    /// Puts each destination onto `out` when it is first named. The marks of a struct are clear after each group.
    pub fn barriers(&mut self, batches: &[Batch], out: &mut Vec<usize>) -> Result<(), GroupError>
        ensures marks { self.new.marks ≡ replicate 256 0 }
        ensures groups { self.new.groups ≡ self.old.groups }
        ensures out { OnOk result (out.new.items ≡ out.old.items ++ firsts (destinations batches.now)) }
        ensures past { IsErrOf result GroupError.NoMark → all_below 256 (destinations batches.now) ≡ false }
    {
        let mut seen = UniqueIndex::new(&mut self.marks);
        for batch in batches {
            if seen.insert(batch.destination).ok_or(GroupError::NoMark)? {
                out.push(batch.destination)?;
            }
        }
        Ok(())
    }
}
